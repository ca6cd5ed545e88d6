ghost use Rattle.std.specs.Prelude.{◌≡◌, ◌<◌, ◌-◌, ◌^◌, ◌∷◌, ◌++◌, [], List, IfOk, IsTrue, OnOk, length, sum_by};
ghost use Rattle.ga_pool.specs.Steps.TableInputs.{AreParts};
ghost use Rattle.ga_tallies.specs.Tallies.{TallySeen};

use ga_base::{Key, NoMemory, Noted, Sums, Totals, Visitor};
use ga_shards::Dictionary;
use ga_tallies::{Pair, Tally, TallyParts, pairs_of};
use std::alloc::Global;

/// What a worker has to put into the tables.
#[derive(Drop)]
pub(crate) struct TableRows {
    /// The totals over the lines that it counted.
    pub(crate) totals: Totals,
    /// The sums of each of its keys.
    pub(crate) sums: Vec<Sums>,
    /// The pairs of its keys and visitors.
    pub(crate) pairs: Vec<Pair>,
}

/// What tallies have, kind by kind.
#[derive(Drop)]
pub(crate) struct TableInputs {
    /// The keys of each.
    pub(crate) keys: Vec<Dictionary<Key>>,
    /// The visitors of each.
    pub(crate) visitors: Vec<Dictionary<Visitor>>,
    /// The rows of each.
    pub(crate) rows: Vec<TableRows>,
}

impl TableInputs {
    /// Nothing yet, with space for what this many tallies have.
    fn with_capacity(alloc: Global, tallies: usize) -> Result<TableInputs, NoMemory>
        ensures { IfOk result (AreParts []) }
    {
        Ok(TableInputs {
            keys: Vec::with_capacity(alloc, tallies)?,
            visitors: Vec::with_capacity(alloc, tallies)?,
            rows: Vec::with_capacity(alloc, tallies)?,
        })
    }

    /// Takes a tally apart, and adds what it has.
    fn add(&mut self, alloc: Global, tally: Tally) -> Result<(), NoMemory>
        ensures { OnOk result ((before : List TallySeen) → AreParts before self.old → AreParts (before ++ tally ∷ []) self.new) }
    {
        let TallyParts {
            totals,
            keys,
            visitors,
            sums,
            visits,
        } = tally.into_parts();
        self.keys.push(keys.into_dictionary(alloc)?)?;
        self.visitors.push(visitors.into_dictionary(alloc)?)?;
        self.rows.push(TableRows {
            totals,
            sums,
            pairs: pairs_of(alloc, &visits)?,
        })?;
        Ok(())
    }
}

/// Takes tallies apart.
pub(crate) fn table_inputs(alloc: Global, tallies: Vec<Tally>) -> Result<TableInputs, NoMemory>
    ensures { IfOk result (AreParts tallies.items) }
{
    let mut inputs = TableInputs::with_capacity(alloc, tallies.len())?;
    for tally in tallies {
        inputs.add(alloc, tally)?;
    }
    Ok(inputs)
}

/// Whether numbers of 32 bits are enough for the items of these dictionaries.
pub(crate) fn can_number<T: Noted + Drop>(dictionaries: &[Dictionary<T>]) -> bool
    ensures { IsTrue result → sum_by (λ items. length items) dictionaries.now < 2 ^ 32 - 1 }
{
    let mut items = 0u64;
    for dictionary in dictionaries {
        items = items.saturating_add(u64::from(dictionary.len()));
    }
    items < u64::from(u32::MAX)
}
