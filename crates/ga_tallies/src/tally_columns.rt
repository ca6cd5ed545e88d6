ghost use Rattle.std.specs.Prelude.{◌≡◌, IfOk, map};
ghost use Rattle.ga_base.specs.Totals.{LinesAdd, TotalsFit};
ghost use Rattle.ga_tallies.specs.Steps.Absorbing.{counts_in, counts_seen};
ghost use Rattle.ga_tallies.specs.Tallies.{totals_from};

use crate::{Tally, VisitorRow};
use ga_base::{NoMemory, Sums, Totals};
use ga_numbers::{KeyNumbers, VisitorNumbers};
use std::alloc::Global;

/// Tallies by columns: each list has an entry for each tally, in their order.
#[derive(Drop)]
pub(crate) struct TallyColumns {
    /// The keys.
    pub(crate) keys: Vec<KeyNumbers>,
    /// The visitors.
    pub(crate) visitors: Vec<VisitorNumbers>,
    /// What is counted of the keys.
    pub(crate) counts: Vec<Counts>,
}

/// What a tally has counted of its keys.
#[derive(Drop)]
pub(crate) struct Counts {
    /// The sums of each key, at its number.
    pub(crate) sums: Vec<Sums>,
    /// The visitors of each key, by their numbers, at the key's number.
    pub(crate) visits: Vec<VisitorRow>,
}

/// Turns tallies into columns.
pub(crate) fn into_columns(alloc: Global, tallies: Vec<Tally>) -> Result<TallyColumns, NoMemory>
    ensures keys { IfOk result (λ apart. apart.keys.items ≡ map (λ tally. tally.keys) tallies.items) }
    ensures visitors { IfOk result (λ apart. apart.visitors.items ≡ map (λ tally. tally.visitors) tallies.items) }
    ensures counts { IfOk result (λ apart. map counts_in apart.counts.items ≡ map counts_seen tallies.items) }
{
    let many = tallies.len();
    let mut apart = TallyColumns {
        keys: Vec::with_capacity(alloc, many)?,
        visitors: Vec::with_capacity(alloc, many)?,
        counts: Vec::with_capacity(alloc, many)?,
    };
    for tally in tallies {
        let parts = tally.into_parts();
        apart.keys.push(parts.keys)?;
        apart.visitors.push(parts.visitors)?;
        apart.counts.push(Counts {
            sums: parts.sums,
            visits: parts.visits,
        })?;
    }
    Ok(apart)
}

/// These totals, and those of tallies with them.
pub(crate) fn totals_with(start: Totals, tallies: &[Tally]) -> Totals
    requires fit { TotalsFit (totals_from start tallies.now) }
    requires lines { LinesAdd start }
    ensures value { result ≡ totals_from start tallies.now }
    ensures lines { LinesAdd result }
{
    let mut totals = start;
    for tally in tallies {
        totals = totals.plus(&tally.totals());
    }
    totals
}
