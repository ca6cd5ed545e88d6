ghost use Rattle.std.specs.Prelude.{◌≡◌, IfOk, map, vec_len};
ghost use Rattle.ga_tallies.specs.Steps.Absorbing.{counts_in, remapped_seen, remapped_with};

use crate::tally_columns::Counts;
use ga_base::NoMemory;
use std::alloc::Global;

/// What another tally has counted, with the numbers that its keys and visitors have here.
#[derive(Drop)]
pub(crate) struct RemappedTally {
    /// The number of each of its keys.
    pub(crate) keys: Vec<u32>,
    /// The number of each of its visitors.
    pub(crate) visitors: Vec<u32>,
    /// What it has counted, by its own numbers.
    pub(crate) counts: Counts,
}

/// What other tallies have counted, each with the numbers of its keys and visitors that stand at its place.
pub(crate) fn remap_tallies(
    alloc: Global,
    keys: Vec<Vec<u32>>,
    visitors: Vec<Vec<u32>>,
    counts: Vec<Counts>,
) -> Result<Vec<RemappedTally>, NoMemory>
    requires keys { vec_len keys ≡ vec_len counts }
    requires visitors { vec_len visitors ≡ vec_len counts }
    ensures { IfOk result (λ remapped_tallies. map remapped_seen remapped_tallies.items ≡ remapped_with (map (λ l. l.items) keys.items) (map (λ l. l.items) visitors.items) (map counts_in counts.items)) }
{
    let mut remapped_tallies = Vec::with_capacity(alloc, counts.len())?;
    let mut keys = keys.into_iter();
    let mut visitors = visitors.into_iter();
    for counts in counts {
        let (Some(keys), Some(visitors)) = (keys.next(), visitors.next()) else {
            unreachable!()
        };
        remapped_tallies.push(RemappedTally {
            keys,
            visitors,
            counts,
        })?;
    }
    Ok(remapped_tallies)
}
