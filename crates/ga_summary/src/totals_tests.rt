ghost use Rattle.std.specs.Prelude.{◌↔◌, IsTrue, All};
ghost use Rattle.ga_base.specs.Totals.{LinesAdd, TotalsFit};
ghost use Rattle.ga_summary.specs.SummaryParts.{rows_in};
ghost use Rattle.ga_summary.specs.SummaryRows.{IsInOrder};
ghost use Rattle.ga_summary.specs.Sound.{TotalsAreSound, day_rows};
ghost use Rattle.ga_summary.specs.Steps.Loads.{LoadWithin, TimeFits, load_of};

use crate::PartRow;
use crate::load::Load;
use ga_base::{BIG, LIMIT, Sums, Totals};

/// Whether counted, failed and excluded lines are all lines.
fn lines_add(totals: Totals) -> bool
    ensures { IsTrue result ↔ LinesAdd totals }
{
    u128::from(totals.hits) + u128::from(totals.failed) + u128::from(totals.excluded)
        == u128::from(totals.lines)
}

/// Whether no counter of totals is above the limit.
pub fn totals_fit(totals: Totals) -> bool
    ensures { IsTrue result ↔ TotalsFit totals }
{
    totals.lines <= LIMIT && totals.bytes <= LIMIT && totals.micros <= LIMIT
}

/// Whether a row's maximum is a time, and at most the row's sum of times.
fn time_fits(sums: Sums) -> bool
    ensures { IsTrue result ↔ TimeFits sums }
{
    sums.max_micros <= BIG && sums.max_micros <= sums.micros
}

/// Whether each row's maximum fits.
fn times_fit(rows: &[PartRow]) -> bool
    ensures { IsTrue result ↔ All (λ row. TimeFits row.sums) rows.now }
{
    for row in rows {
        if !time_fits(row.sums) {
            return false;
        }
    }
    true
}

/// Whether the rows of days sum to at most this.
fn days_within(rows: &[PartRow], most: Load) -> bool
    ensures { IsTrue result ↔ LoadWithin (load_of (day_rows (rows_in rows.now))) most }
{
    let mut sum = Load::NONE;
    for row in rows {
        if row.key.is_day() {
            match sum.add(Load::of_sums(row.sums), most) {
                Some(more) => sum = more,
                None => return false,
            }
        }
    }
    true
}

/// Whether totals go with rows that are in order.
pub(crate) fn totals_go_with(totals: Totals, rows: &[PartRow]) -> bool
    requires { IsInOrder (rows_in rows.now) }
    ensures { IsTrue result ↔ TotalsAreSound (record { totals = totals; rows = rows_in rows.now }) }
{
    if !lines_add(totals) {
        return false;
    }
    if !totals_fit(totals) {
        return false;
    }
    if !times_fit(rows) {
        return false;
    }
    days_within(rows, Load::of_totals(totals))
}
