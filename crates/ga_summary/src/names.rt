ghost use Rattle.std.specs.Prelude.{◌≡◌, ◌+◌, ◌<◌, ◌≤◌, MatchResult, vec_len, vec_capacity};
ghost use Rattle.std.specs.List.Sorted.{IsStrictlySortedBy};
ghost use Rattle.ga_base.specs.Orders.{name_cmp, name_of};
ghost use Rattle.ga_summary.specs.SummaryRows.{has_name};
ghost use Rattle.ga_summary.specs.Steps.Places.{StandsAt, GoesTo};
ghost use Rattle.ga_summary.specs.Steps.Joined.{put_name, put_names};

use crate::order::{compare_names, compare_to_visitor};
use ga_base::{Name, Visitor};

/// Where a name stands among names that rise, or where it would go.
pub(crate) fn find_name(names: &[Name], name: &Name) -> Result<usize, usize>
    requires { IsStrictlySortedBy name_cmp names.now }
    ensures { MatchResult result (StandsAt name_cmp (λ n. n) name.now names.now) (GoesTo name_cmp (λ n. n) name.now names.now) }
{
    names.binary_search_by(|other| compare_names(other, name))
}

/// Whether a visitor's name is among names that rise.
pub(crate) fn holds_visitor(names: &[Name], visitor: &Visitor) -> bool
    requires { IsStrictlySortedBy name_cmp names.now }
    ensures { result ≡ has_name names.now (name_of visitor.now) }
{
    let found = names.binary_search_by(|name| compare_to_visitor(name, visitor));
    found.is_ok()
}

/// Puts a name in its place, where it isn't there yet.
fn insert_name(names: &mut Vec<Name>, name: Name)
    requires rising { IsStrictlySortedBy name_cmp names.old.items }
    requires room { vec_len names.old < vec_capacity names.old }
    ensures items { names.new.items ≡ put_name name names.old.items }
    ensures rising { IsStrictlySortedBy name_cmp names.new.items }
    ensures len { vec_len names.new ≤ vec_len names.old + 1 }
    ensures capacity { vec_capacity names.old ≤ vec_capacity names.new }
{
    if let Err(at) = find_name(names, &name) {
        match names.insert(at, name) {
            Ok(()) => {}
            Err(_) => unreachable!(),
        }
    }
}

/// Puts names in their places, for which there is room.
pub(crate) fn unite(names: &mut Vec<Name>, more: Vec<Name>)
    requires rising { IsStrictlySortedBy name_cmp names.old.items }
    requires room { vec_len names.old + vec_len more ≤ vec_capacity names.old }
    ensures items { names.new.items ≡ put_names more.items names.old.items }
{
    for name in more {
        insert_name(names, name);
    }
}
