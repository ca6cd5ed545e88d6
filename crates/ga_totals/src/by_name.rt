ghost use Rattle.std.specs.Prelude.{◌≡◌, ◌<◌, ◌^◌, IfOk, length};
ghost use Rattle.std.specs.List.Sorted.{IsPermutation, IsSorted};
ghost use Rattle.ga_base.specs.Orders.{name_cmp, name_of};
ghost use Rattle.ga_totals.specs.Steps.Ranks.{AreByName, AreNumbered, named_cmp};

use ga_base::{NoMemory, Visitor};
use std::alloc::Global;
use std::cmp::Ordering;
use std::marker::Model;

/// A visitor with its number.
#[derive(Drop)]
pub(crate) struct NumberedVisitor<'a> {
    /// The number.
    number: u32,
    /// The visitor, which the total lends.
    visitor: &'a Visitor,
}

impl<'a> Model for NumberedVisitor<'a> {
    ghost use Rattle.ga_totals.specs.Steps.Ranks as seen;

    ghost Value = { seen.NumberedVisitor };

    ghost view = { λ n. record { number = n.number; visitor = n.visitor.now } };
}

impl<'a> NumberedVisitor<'a> {
    /// The number.
    pub(crate) fn number(&self) -> u32
        ensures { result ≡ self.now.number }
    {
        self.number
    }

    /// The visitor.
    pub(crate) fn visitor(&self) -> &'a Visitor
        ensures { result.now ≡ self.now.visitor }
    {
        self.visitor
    }
}

/// The visitors with their numbers, in the order of their names.
pub(crate) fn by_name<'a>(
    alloc: Global,
    visitors: &'a [Visitor],
) -> Result<Vec<NumberedVisitor<'a>>, NoMemory>
    requires { length visitors.now < 2 ^ 32 }
    ensures { IfOk result (λ all. AreByName visitors.now all.items) }
{
    Ok(sort_by_name(number_visitors(alloc, visitors)?))
}

/// The visitors with their numbers.
fn number_visitors<'a>(
    alloc: Global,
    visitors: &'a [Visitor],
) -> Result<Vec<NumberedVisitor<'a>>, NoMemory>
    requires { length visitors.now < 2 ^ 32 }
    ensures { IfOk result (λ all. AreNumbered visitors.now (length visitors.now) all.items) }
{
    let mut all = Vec::with_capacity(alloc, visitors.len())?;
    for (number, visitor) in visitors.iter().enumerate() {
        all.push(NumberedVisitor {
            number: number as u32,
            visitor,
        })?;
    }
    Ok(all)
}

/// In the order of the names.
fn sort_by_name(all: Vec<NumberedVisitor<'_>>) -> Vec<NumberedVisitor<'_>>
    ensures same { IsPermutation all.entry.items result.items }
    ensures sorted { IsSorted named_cmp result.items }
{
    let mut all = all;
    all.sort_unstable_by(|a, b| compare_names(a.visitor(), b.visitor()));
    all
}

/// How the names of two visitors are ordered. Agents are compared where the hosts are equal.
#[tactic(auto, unfolding(ga_base::specs::Orders::name_cmp))]
pub(crate) fn compare_names(a: &Visitor, b: &Visitor) -> Ordering
    ensures { result ≡ name_cmp (name_of a.now) (name_of b.now) }
{
    a.host.cmp(&b.host).then_with(|| a.agent.cmp(&b.agent))
}
