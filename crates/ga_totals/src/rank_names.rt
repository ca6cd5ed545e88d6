ghost use Rattle.std.specs.Prelude.{◌≡◌, ◌<◌, All, IfOk, length, map, slice_index};
ghost use Rattle.ga_totals.specs.Steps.Ranks.{name_ranked};

use ga_base::{Name, NoMemory, Visitor};
use std::alloc::Global;

/// The ranks of the visitors with these numbers, one for each number.
pub(crate) fn ranks_of(alloc: Global, ranks: &[u32], row: &[u32]) -> Result<Vec<u32>, NoMemory>
    requires { All (λ v. v < length ranks.now) row.now }
    ensures { IfOk result (λ all. all.items ≡ map (λ v. slice_index ranks.now v) row.now) }
{
    let mut all = Vec::with_capacity(alloc, row.len())?;
    for number in row {
        all.push(ranks[*number as usize])?;
    }
    Ok(all)
}

/// The names of these ranks, one for each. The number of one visitor of each name is at the name's rank.
pub(crate) fn names_of_ranks(
    alloc: Global,
    visitors: &[Visitor],
    firsts: &[u32],
    ranks: &[u32],
) -> Result<Vec<Name>, NoMemory>
    requires firsts { All (λ v. v < length visitors.now) firsts.now }
    requires ranks { All (λ r. r < length firsts.now) ranks.now }
    ensures { IfOk result (λ names.
        names.items ≡ map (λ r. name_ranked visitors.now firsts.now r) ranks.now) }
{
    let mut names = Vec::with_capacity(alloc, ranks.len())?;
    for rank in ranks {
        let visitor = &visitors[firsts[*rank as usize] as usize];
        names.push(Name {
            host: visitor.host.clone()?,
            agent: visitor.agent.clone()?,
        })?;
    }
    Ok(names)
}
