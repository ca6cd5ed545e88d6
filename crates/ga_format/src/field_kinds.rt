ghost use Rattle.std.specs.Prelude.{◌≡◌, ◌++◌, true, MatchOption};
ghost use Rattle.std.specs.List.{list_any};
ghost use Rattle.ga_base.specs.declared.formats.Needed.{Needed};
ghost use Rattle.ga_format.specs.FieldKinds.{IsFirstMissing, gives, is_field, kinds_of, needed_kind, repeats, share};
ghost use Rattle.ga_format.specs.Specifiers.{kinds_of_letter};
ghost use Rattle.ga_format.specs.Steps.Checks.{is_literal};

use ga_base::{FormatItem, Needed};

/// All specifiers are fields but `%~`.
pub(crate) fn is_field(item: &FormatItem) -> bool
    ensures { result ≡ is_field item.now }
{
    matches!(item, FormatItem::Field(_) | FormatItem::Forwarded(_))
}

/// Whether the byte of a literal has to come next.
pub(crate) fn is_literal(item: &FormatItem) -> bool
    ensures { result ≡ is_literal item.now }
{
    matches!(item, FormatItem::Literal(_))
}

/// Whether the item may not follow the earlier items and then these.
pub(crate) fn repeats_after(earlier: &[FormatItem], items: &[FormatItem], item: &FormatItem) -> bool
    ensures { result ≡ repeats (earlier.now ++ items.now) item.now }
{
    repeats(earlier, item) || repeats(items, item)
}

/// Whether the item may not follow these: it gives a kind of field that one of them gives.
///
/// Only an item that gives some kind is looked up, so that a text costs no more than some twenty looks at each item.
fn repeats(earlier: &[FormatItem], item: &FormatItem) -> bool
    ensures { result ≡ repeats earlier.now item.now }
{
    let kinds = kinds_of(item);
    !kinds.is_empty() && is_shared(kinds, earlier)
}

/// Whether one of the items gives one of these kinds of field.
fn is_shared(kinds: &[u8], items: &[FormatItem]) -> bool
    ensures { result ≡ list_any (λ item. share kinds.now (kinds_of item)) items.now }
{
    items.iter().any(|item| share(kinds, kinds_of(item)))
}

/// Whether the two have a kind of field in common.
fn share(kinds: &[u8], others: &[u8]) -> bool
    ensures { result ≡ share kinds.now others.now }
{
    kinds.iter().any(|kind| others.contains(kind))
}

/// The kinds of field that an item gives, each by the letter of the specifier that gives it alone.
fn kinds_of(item: &FormatItem) -> &'static [u8]
    ensures { result.now ≡ kinds_of item.now }
{
    match item {
        FormatItem::Literal(_) | FormatItem::Skip => b"",
        FormatItem::Field(letter) => kinds_of_letter(*letter),
        FormatItem::Forwarded(_) => b"h",
    }
}

/// The kinds of field that the specifier of this letter gives; none for what may stand any number of times.
fn kinds_of_letter(letter: u8) -> &'static [u8]
    ensures { result.now ≡ kinds_of_letter letter }
{
    match letter {
        b'x' => b"dt",
        b't' => b"t",
        b'd' => b"d",
        b'v' => b"v",
        b'e' => b"e",
        b'C' => b"C",
        b'h' => b"h",
        b'r' => b"mUqH",
        b'm' => b"m",
        b'U' => b"U",
        b'q' => b"q",
        b'H' => b"H",
        b's' => b"s",
        b'b' => b"b",
        b'R' => b"R",
        b'u' => b"u",
        b'K' => b"K",
        b'M' => b"M",
        _ => b"",
    }
}

/// The first part that every format has to give and these items don't.
pub fn first_missing(items: &[FormatItem]) -> Option<Needed>
    ensures { MatchOption result ((need : Needed) → list_any (gives need) items.now ≡ true) (IsFirstMissing items.now) }
{
    if !is_given(items, Needed::Host) {
        return Some(Needed::Host);
    }
    if !is_given(items, Needed::Date) {
        return Some(Needed::Date);
    }
    if !is_given(items, Needed::Request) {
        return Some(Needed::Request);
    }
    None
}

/// Whether one of the items gives what is needed.
fn is_given(items: &[FormatItem], need: Needed) -> bool
    ensures { result ≡ list_any (gives need) items.now }
{
    is_shared(needed_kind(need), items)
}

/// The kind of field that is needed.
fn needed_kind(need: Needed) -> &'static [u8]
    ensures { result.now ≡ needed_kind need }
{
    match need {
        Needed::Host => b"h",
        Needed::Date => b"d",
        Needed::Request => b"U",
    }
}
