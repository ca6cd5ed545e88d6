ghost use Rattle.std.specs.Prelude.{◌≡◌, ◌<◌, ◌-◌, ◌^◌, All, IfOk, IsTrue, false, length};
ghost use Rattle.ga_base.specs.Orders.{name_of};
ghost use Rattle.ga_totals.specs.Steps.Ranks.{AreByName, EndsIn, IsNextRank, names_at};
ghost use Rattle.ga_totals.specs.Steps.KeyRows.{AreNamesOf};

use crate::by_name::{NumberedVisitor, by_name, compare_names};
use crate::rank_names::{names_of_ranks, ranks_of};
use ga_base::{Name, NoMemory, Visitor};
use std::alloc::Global;
use std::marker::Model;

/// Visitors, ranked by their names: visitors of one name have one rank, and ranks rise with the names. Contracts see the
/// visitors.
#[derive(Drop)]
pub(crate) struct Ranks<'a> {
    /// The visitors, each at its number.
    visitors: &'a [Visitor],
    /// The number of one visitor of each name, at the name's rank.
    firsts: Vec<u32>,
    /// The rank of each visitor's name, at the visitor's number.
    ranks: Vec<u32>,
}

impl<'a> Model for Ranks<'a> {
    ghost use Rattle.std.specs.Prelude.{List};
    ghost use Rattle.ga_base.specs.declared.key.Visitor as seen;
    ghost use Rattle.ga_totals.specs.Steps.Ranks.{AreRanks};

    ghost Value = { List seen.Visitor };

    ghost view = { λ r. r.visitors.now };

    ghost invariant = { λ r. AreRanks r.visitors.now r.firsts.items r.ranks.items };
}

impl<'a> Ranks<'a> {
    /// The visitors, ranked by name. It takes the time of sorting them once, and the memory of two numbers for each; and of
    /// each with its number while they are sorted.
    pub(crate) fn of(alloc: Global, visitors: &'a [Visitor]) -> Result<Ranks<'a>, NoMemory>
        ensures { IfOk result (λ ranks. ranks ≡ visitors.now) }
    {
        // More visitors than numbers of 32 bits take more memory than there is.
        if visitors.len() > u32::MAX as usize {
            return Err(NoMemory);
        }
        let order = by_name(alloc, visitors)?;
        rank(alloc, visitors, &order)
    }

    /// The names of the visitors with these numbers, which rise. It takes the time of sorting the numbers.
    pub(crate) fn names_of(&self, alloc: Global, row: &[u32]) -> Result<Vec<Name>, NoMemory>
        requires { All (λ v. v < length self.now) row.now }
        ensures { IfOk result (λ names. AreNamesOf self.now row.now names.items) }
    {
        let mut ranks = ranks_of(alloc, &self.ranks, row)?;
        ranks.sort_unstable();
        ranks.dedup();
        names_of_ranks(alloc, self.visitors, &self.firsts, &ranks)
    }
}

/// Ranks the visitors, of which these are all in the order of their names.
fn rank<'a>(
    alloc: Global,
    visitors: &'a [Visitor],
    order: &[NumberedVisitor<'_>],
) -> Result<Ranks<'a>, NoMemory>
    requires by_name { AreByName visitors.now order.now }
    requires few { length visitors.now < 2 ^ 32 }
    ensures { IfOk result (λ ranks. ranks ≡ visitors.now) }
{
    let mut firsts = Vec::new(alloc);
    let mut ranks = vec![in alloc; 0u32; visitors.len()]?;
    for entry in order {
        let rank = next_rank(visitors, &mut firsts, entry)?;
        ranks[entry.number() as usize] = rank;
    }
    Ok(Ranks {
        visitors,
        firsts,
        ranks,
    })
}

/// The rank of the visitor that is next in the order of the names. One of a name that no visitor before has is the first of
/// its name.
fn next_rank(
    visitors: &[Visitor],
    firsts: &mut Vec<u32>,
    entry: &NumberedVisitor<'_>,
) -> Result<u32, NoMemory>
    requires within { All (λ v. v < length visitors.now) firsts.old.items }
    requires few { length firsts.old.items < 2 ^ 32 - 1 }
    ensures { IfOk result (λ rank.
        IsNextRank visitors.now entry.now firsts.old.items firsts.new.items rank) }
{
    if is_new(visitors, firsts, entry) {
        firsts.push(entry.number())?;
    }
    Ok(firsts.len() as u32 - 1)
}

/// Whether a visitor's name is not that of the last of the firsts.
fn is_new(visitors: &[Visitor], firsts: &[u32], entry: &NumberedVisitor<'_>) -> bool
    requires { All (λ v. v < length visitors.now) firsts.now }
    ensures other { IsTrue result
        → EndsIn (names_at visitors.now firsts.now) (name_of entry.now.visitor) → ⊥ }
    ensures same { result ≡ false
        → EndsIn (names_at visitors.now firsts.now) (name_of entry.now.visitor) }
{
    match firsts.last() {
        Some(first) => compare_names(&visitors[*first as usize], entry.visitor()).is_ne(),
        None => true,
    }
}
