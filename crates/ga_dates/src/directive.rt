ghost use Rattle.std.specs.Prelude.{◌≡◌, ◌+◌, ◌<◌, ◌≤◌, drop, length, slice_index, Some, IfSome, IfNone};
ghost use Rattle.std.specs.List.{list_any};
ghost use Rattle.std.specs.Option.{option_copied};
ghost use Rattle.ga_dates.specs.declared.kind.Kind.TheVariants.{Date, Time};
ghost use Rattle.ga_dates.specs.Items.{gives};
ghost use Rattle.ga_dates.specs.Steps.Compile.{is_given};
ghost use Rattle.ga_dates.specs.Grammar.{directive_of, percent, GivesAgain, IsBadDirective};

use crate::{Item, Kind, Part};

/// The items of the directive whose `%` is at `at`. There are none where it isn't named, or gives a part that the items
/// before it give.
pub(crate) fn directive_at(
    kind: Kind,
    before: &[Item],
    text: &[u8],
    at: usize,
) -> Option<&'static [Item]>
    requires inside { at < length text.now }
    requires percent { slice_index text.now at ≡ percent }
    ensures named { IfSome result (λ added. (at + 1 < length text.now) × (directive_of kind (slice_index text.now (at + 1)) ≡ Some added.now)) }
    ensures new { IfSome result (λ added. ¬ GivesAgain before.now added.now) }
    ensures bad { IfNone result (IsBadDirective kind before.now (drop at text.now)) }
{
    let letter = *text.get(at + 1)?;
    let added = directive(kind, letter)?;
    if gives_again(before, added) {
        None
    } else {
        Some(added)
    }
}

fn gives_again(before: &[Item], added: &[Item]) -> bool
    ensures { result ≡ list_any (is_given before.now) added.now }
{
    added.iter().any(|item| is_given(before, *item))
}

fn is_given(before: &[Item], item: Item) -> bool
    ensures { result ≡ is_given before.now item }
{
    match item.part() {
        Some(part) => gives_part(before, part),
        None => false,
    }
}

/// Whether one of the items gives the part.
pub(crate) fn gives_part(items: &[Item], part: Part) -> bool
    ensures { result ≡ list_any (gives part) items.now }
{
    items.iter().any(|item| item.gives(part))
}

fn directive(kind: Kind, letter: u8) -> Option<&'static [Item]>
    ensures { option_copied result ≡ directive_of kind letter }
{
    match kind {
        Kind::Date => date_directive(letter),
        Kind::Time => time_directive(letter),
    }
}

fn date_directive(letter: u8) -> Option<&'static [Item]>
    ensures { option_copied result ≡ directive_of Date letter }
{
    match letter {
        b'd' => Some(&[Item::Day]),
        b'e' => Some(&[Item::SpacedDay]),
        b'm' => Some(&[Item::Month]),
        b'b' => Some(&[Item::MonthName]),
        b'Y' => Some(&[Item::Year]),
        b'y' => Some(&[Item::ShortYear]),
        b'F' => Some(&[
            Item::Year,
            Item::Literal(b'-'),
            Item::Month,
            Item::Literal(b'-'),
            Item::Day,
        ]),
        b'D' => Some(&[
            Item::Month,
            Item::Literal(b'/'),
            Item::Day,
            Item::Literal(b'/'),
            Item::ShortYear,
        ]),
        b'%' => Some(&[Item::Literal(b'%')]),
        _ => None,
    }
}

fn time_directive(letter: u8) -> Option<&'static [Item]>
    ensures { option_copied result ≡ directive_of Time letter }
{
    match letter {
        b'H' => Some(&[Item::Hour]),
        b'M' => Some(&[Item::Minute]),
        b'S' => Some(&[Item::Second]),
        b'T' => Some(&[
            Item::Hour,
            Item::Literal(b':'),
            Item::Minute,
            Item::Literal(b':'),
            Item::Second,
        ]),
        b'R' => Some(&[Item::Hour, Item::Literal(b':'), Item::Minute]),
        b'%' => Some(&[Item::Literal(b'%')]),
        _ => None,
    }
}
