ghost use Rattle.std.specs.Prelude.{◌≡◌, ◌<◌, IfOk, length};
ghost use Rattle.ga_summary.specs.SummaryParts.{row_of_part, rows_in};
ghost use Rattle.ga_tallies.specs.Tallies.{lists_in, pairs_in};
ghost use Rattle.ga_totals.specs.Steps.KeyRows.{AreRowsOf, AreWithin, IsRowOf};

use crate::numbered_key::{NumberedKey, by_key};
use crate::ranks::Ranks;
use crate::visits::row_at;
use ga_base::{Key, Names, NoMemory, Sums, Visitor};
use ga_summary::PartRow;
use ga_tallies::VisitorRow;
use std::alloc::Global;

/// A row for each key, in their order. Sums stand at the keys' numbers, and so do rows of the numbers of their visitors.
pub(crate) fn rows_of(
    alloc: Global,
    keys: &[Key],
    sums: &[Sums],
    visitors: &[Visitor],
    visits: &[VisitorRow],
) -> Result<Vec<PartRow>, NoMemory>
    requires many { length sums.now ≡ length keys.now }
    requires within { AreWithin (length visitors.now) (lists_in visits.now) }
    ensures { IfOk result (λ rows.
        AreRowsOf keys.now sums.now visitors.now (pairs_in (lists_in visits.now)) (rows_in rows.items)) }
{
    let ranks = Ranks::of(alloc, visitors)?;
    let order = by_key(alloc, keys)?;
    let mut rows = Vec::with_capacity(alloc, order.len())?;
    for entry in &order {
        rows.push(row_of(alloc, entry, sums, &ranks, visits)?)?;
    }
    Ok(rows)
}

/// The row of one key.
fn row_of(
    alloc: Global,
    entry: &NumberedKey<'_>,
    sums: &[Sums],
    visitors: &Ranks<'_>,
    visits: &[VisitorRow],
) -> Result<PartRow, NoMemory>
    requires many { entry.now.number < length sums.now }
    requires within { AreWithin (length visitors.now) (lists_in visits.now) }
    ensures { IfOk result (λ row.
        IsRowOf entry.now sums.now visitors.now (pairs_in (lists_in visits.now)) (row_of_part row)) }
{
    let names = visitors.names_of(alloc, row_at(visits, entry.number()))?;
    Ok(PartRow {
        key: entry.key().clone()?,
        sums: sums[entry.number()],
        names: Names::from(names),
    })
}
