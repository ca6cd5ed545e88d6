ghost use Rattle.std.specs.Prelude.{◌≡◌, ◌+◌, ◌<◌, MatchOption, MatchResult, None, Some, All, length, take};
ghost use Rattle.ga_base.specs.Layers.{HasForm, day_key};
ghost use Rattle.ga_base.specs.Orders.{key_cmp};
ghost use Rattle.ga_summary.specs.SummaryParts.{IsFirstBad, RowsAreGood, row_of_part, rows_in};
ghost use Rattle.ga_summary.specs.SummaryRows.{SummaryValue, row_at};
ghost use Rattle.ga_summary.specs.Sound.{IsSummary};
ghost use Rattle.ga_summary.specs.Steps.Passing.{AreSumsOf, GoodUpTo, IsFirstBadRow};
ghost use Rattle.ga_summary.specs.Steps.Places.{GoesTo, Rises, StandsAt};

use crate::PartRow;
use crate::layer_sums::LayerSums;
use crate::load::Load;
use crate::order::compare_to_day;
use crate::row_tests::{all_among, key_rises, stands_alone};
use crate::totals_tests::totals_go_with;
use ga_base::Totals;

/// Where a day's key of VISITORS stands, or where it would go, among keys that rise, each in its form.
fn find_day(rows: &[PartRow], date: u32) -> Result<usize, usize>
    requires rising { Rises key_cmp (λ row. row.key) (rows_in rows.now) }
    requires formed { All (λ row. HasForm row.key) (rows_in rows.now) }
    ensures { MatchResult result (StandsAt key_cmp (λ row. row.key) (day_key date) (rows_in rows.now))
        (GoesTo key_cmp (λ row. row.key) (day_key date) (rows_in rows.now)) }
{
    rows.binary_search_by(|row| compare_to_day(&row.key, date))
}

/// The row of a day's key of VISITORS.
fn day_row(rows: &[PartRow], date: u32) -> Option<&PartRow>
    requires rising { Rises key_cmp (λ row. row.key) (rows_in rows.now) }
    requires formed { All (λ row. HasForm row.key) (rows_in rows.now) }
    ensures { MatchOption result (row_at (rows_in rows.now) (day_key date) ≡ None)
        (λ day. row_at (rows_in rows.now) (day_key date) ≡ Some (row_of_part day.now)) }
{
    match find_day(rows, date) {
        Ok(at) => Some(&rows[at]),
        Err(_) => None,
    }
}

/// The layers' sums with the row at a place, before which all is good. None where with it the rows are no longer good.
fn pass_row(rows: &[PartRow], at: usize, sums: LayerSums) -> Option<LayerSums>
    requires within { at < length rows.now }
    requires good { RowsAreGood (rows_in (take at rows.now)) }
    requires sums { AreSumsOf (rows_in (take at rows.now)) sums }
    ensures { MatchOption result (¬ RowsAreGood (rows_in (take (at + 1) rows.now)))
        (λ next. RowsAreGood (rows_in (take (at + 1) rows.now)) × AreSumsOf (rows_in (take (at + 1) rows.now)) next) }
{
    let row = &rows[at];
    if !key_rises(rows, at) {
        return None;
    }
    if !stands_alone(row) {
        return None;
    }
    let day = day_row(&rows[..at + 1], row.key.date)?;
    if !all_among(row.names.items(), day.names.items()) {
        return None;
    }
    sums.add(&row.key, Load::of_sums(row.sums), Load::of_sums(day.sums))
}

/// The first row with which the rows up to it aren't good.
fn first_bad_row(rows: &[PartRow]) -> Option<usize>
    ensures { MatchOption result (GoodUpTo rows.now (length rows.now)) (IsFirstBadRow rows.now) }
{
    let mut sums = LayerSums::begin();
    for at in 0..rows.len() {
        match pass_row(rows, at, sums) {
            Some(next) => sums = next,
            None => return Some(at),
        }
    }
    None
}

/// The first place where totals and rows break, or None where they make a summary.
pub(crate) fn first_bad(totals: Totals, rows: &[PartRow]) -> Option<u64>
    ensures { let value : SummaryValue = record { totals = totals; rows = rows_in rows.now } in
        MatchOption result (IsSummary value) (IsFirstBad value) }
{
    if let Some(at) = first_bad_row(rows) {
        return Some(at as u64);
    }
    if totals_go_with(totals, rows) {
        None
    } else {
        Some(rows.len() as u64)
    }
}
