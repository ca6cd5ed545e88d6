ghost use Rattle.std.specs.Prelude.{◌≡◌, ◌≢◌, ◌+◌, ◌/◌, ◌%◌, ◌<◌, ◌↔◌, ◌⊎◌, IsTrue, MatchOption, true, false, [], take, length};
ghost use Rattle.std.specs.Str.{all_ascii_digits};
ghost use Rattle.std.specs.List.Sorted.{IsStrictlySortedBy};
ghost use Rattle.ga_base.specs.Days.{eight_digits};
ghost use Rattle.ga_base.specs.Layers.{HasForm, IsDayOrPart, IsPartOfDay, has_groups, has_requests};
ghost use Rattle.ga_base.specs.Orders.{key_cmp, name_cmp};
ghost use Rattle.ga_base.specs.declared.panel.Panel.TheVariants.{Visitors};
ghost use Rattle.ga_summary.specs.SummaryParts.{row_of_part, rows_in};
ghost use Rattle.ga_summary.specs.SummaryRows.{has_name};
ghost use Rattle.ga_summary.specs.Steps.Passing.{AllAmong, IsBehind, StandsAlone};
ghost use Rattle.ga_summary.specs.Steps.Places.{Rises};

use crate::PartRow;
use crate::names::find_name;
use crate::order::{compare_keys, compare_names};
use ga_base::{Key, Name, Panel};

/// The first number of eight digits.
const FIRST_DAY: u32 = 10_000_000;

/// The last number of eight digits.
const LAST_DAY: u32 = 99_999_999;

/// The ASCII digit of a number at a power of ten.
fn digit(number: u32, power: u32) -> u8
    requires { 0 < power }
    ensures { result ≡ 48 + number / power % 10 }
{
    b'0' + (number / power % 10) as u8
}

/// The eight digits of a day.
fn day_digits(date: u32) -> [u8; 8]
    ensures { result ≡ eight_digits date }
{
    [
        digit(date, 10_000_000),
        digit(date, 1_000_000),
        digit(date, 100_000),
        digit(date, 10_000),
        digit(date, 1_000),
        digit(date, 100),
        digit(date, 10),
        digit(date, 1),
    ]
}

/// Whether these are the digits that a part of a day has after its day's: two or four.
fn are_part_digits(more: &[u8]) -> bool
    ensures { IsTrue result ↔ (all_ascii_digits more.now ≡ true) × ((length more.now ≡ 2) ⊎ (length more.now ≡ 4)) }
{
    match more {
        [a, b] => a.is_ascii_digit() && b.is_ascii_digit(),
        [a, b, c, d] => {
            a.is_ascii_digit() && b.is_ascii_digit() && c.is_ascii_digit() && d.is_ascii_digit()
        }
        _ => false,
    }
}

/// Whether a label is that of a part of a day with these digits.
fn is_part_of_day(label: &[u8], day: &[u8; 8], date: u32) -> bool
    requires { day.now ≡ eight_digits date }
    ensures { IsTrue result ↔ IsPartOfDay date label.now }
{
    match label.strip_prefix(day.as_slice()) {
        Some(more) => are_part_digits(more),
        None => false,
    }
}

/// Whether a parent and a label are those of a day in VISITORS, or of a part of it.
fn is_day_or_part(date: u32, parent: &[u8], label: &[u8]) -> bool
    ensures { IsTrue result ↔ IsDayOrPart date parent.now label.now }
{
    let day = day_digits(date);
    if parent.is_empty() {
        label == day.as_slice()
    } else {
        parent == day.as_slice() && is_part_of_day(label, &day, date)
    }
}

/// Whether the keys of a panel have the method and the protocol.
fn has_requests(panel: Panel) -> bool
    ensures { result ≡ has_requests panel }
{
    matches!(
        panel,
        Panel::Requests | Panel::RequestsStatic | Panel::NotFound
    )
}

/// Whether a key's parent goes with its panel, and in VISITORS its label too.
fn has_parent_form(key: &Key) -> bool
    ensures { IsTrue result
        ↔ (key.now.panel ≡ Visitors → IsDayOrPart key.now.date key.now.parent key.now.label)
        × (key.now.panel ≢ Visitors → (key.now.parent ≡ []) ↔ (has_groups key.now.panel ≡ false)) }
{
    match key.panel {
        Panel::Visitors => is_day_or_part(key.date, key.parent.bytes(), key.label.bytes()),
        _ => key.parent.bytes().is_empty() != key.panel.has_groups(),
    }
}

/// Whether a key's method and protocol are empty, where its panel has none.
fn has_request_form(key: &Key) -> bool
    ensures { IsTrue result ↔ (has_requests key.now.panel ≡ false → (key.now.method ≡ []) × (key.now.protocol ≡ [])) }
{
    has_requests(key.panel) || (key.method.bytes().is_empty() && key.protocol.bytes().is_empty())
}

/// Whether a key has its form.
fn has_form(key: &Key) -> bool
    ensures { IsTrue result ↔ HasForm key.now }
{
    FIRST_DAY <= key.date && key.date <= LAST_DAY && has_parent_form(key) && has_request_form(key)
}

/// Whether names rise.
fn names_rise(names: &[Name]) -> bool
    ensures { IsTrue result ↔ IsStrictlySortedBy name_cmp names.now }
{
    names.is_sorted_by(|a, b| compare_names(a, b).is_lt())
}

/// Whether a row can stand as far as it is seen by itself.
pub(crate) fn stands_alone(row: &PartRow) -> bool
    ensures { IsTrue result ↔ StandsAlone (row_of_part row.now) }
{
    let names = row.names.items();
    has_form(&row.key)
        && names_rise(names)
        && row.sums.hits >= 1
        && names.len() as u64 <= row.sums.hits
}

/// Whether the key at a place is above those before it, which rise.
pub(crate) fn key_rises(rows: &[PartRow], at: usize) -> bool
    requires within { at < length rows.now }
    requires rising { Rises key_cmp (λ row. row.key) (rows_in (take at rows.now)) }
    ensures { IsTrue result ↔ Rises key_cmp (λ row. row.key) (rows_in (take (at + 1) rows.now)) }
{
    at == 0 || compare_keys(&rows[at - 1].key, &rows[at].key).is_lt()
}

/// The names after a name among names that rise, or None where it isn't there.
fn behind<'a>(names: &'a [Name], name: &Name) -> Option<&'a [Name]>
    requires { IsStrictlySortedBy name_cmp names.now }
    ensures { MatchOption result (has_name names.now name.now ≡ false) (λ rest. IsBehind names.now name.now rest.now) }
{
    match find_name(names, name) {
        Ok(at) => Some(&names[at + 1..]),
        Err(_) => None,
    }
}

/// Whether each of the names is among the others, where both rise. Each is searched after the one found last.
pub(crate) fn all_among(names: &[Name], among: &[Name]) -> bool
    requires rising { IsStrictlySortedBy name_cmp names.now }
    requires rising_among { IsStrictlySortedBy name_cmp among.now }
    ensures { IsTrue result ↔ AllAmong names.now among.now }
{
    let mut left = among;
    for name in names {
        match behind(left, name) {
            Some(rest) => left = rest,
            None => return false,
        }
    }
    true
}
