ghost use Rattle.std.specs.Prelude.{◌≡◌, ◌+◌, ◌<◌, ◌≤◌, ◌++◌, ◌∷◌, [], vec_len, vec_capacity};
ghost use Rattle.std.specs.List.Sorted.{IsStrictlySortedBy};
ghost use Rattle.ga_summary.specs.Steps.Entries.{AllClosed, IsClosed, row_of, rows_of};
ghost use Rattle.ga_summary.specs.Steps.Joined.{joined, put_names, put_rows};
ghost use Rattle.ga_base.specs.Orders.{key_cmp, name_cmp};
ghost use Rattle.ga_summary.specs.Steps.Places.{Rises};
ghost use Rattle.ga_summary.specs.Steps.Room.{AllHavePlace, CanTake, OpenAmong};

use crate::entry::Entry;
use crate::order::{compare_keys, compare_names};
use ga_base::Name;
use std::cmp::Ordering;

/// Adds an item at the end, where there is room.
pub(crate) fn push_within<T: Drop>(items: &mut Vec<T>, item: T)
    requires { vec_len items.old < vec_capacity items.old }
    ensures items { items.new.items ≡ items.old.items ++ item ∷ [] }
    ensures len { vec_len items.new ≡ vec_len items.old + 1 }
    ensures capacity { vec_capacity items.old ≤ vec_capacity items.new }
{
    match items.push(item) {
        Ok(()) => {}
        Err(_) => unreachable!(),
    }
}

/// The names of two lists that rise, in one pass, moved into `out`, which has room for all.
pub(crate) fn merge_names(left: Vec<Name>, right: Vec<Name>, mut out: Vec<Name>) -> Vec<Name>
    requires rising_left { IsStrictlySortedBy name_cmp left.items }
    requires rising_right { IsStrictlySortedBy name_cmp right.items }
    requires none { out.items ≡ [] }
    requires room { vec_len left + vec_len right ≤ vec_capacity out }
    ensures { result.items ≡ put_names right.items left.items }
{
    let mut left = left.into_iter();
    let mut right = right.into_iter();
    let mut next_left = left.next();
    let mut next_right = right.next();
    'names: loop {
        match (next_left, next_right) {
            (Some(a), Some(b)) => match compare_names(&a, &b) {
                Ordering::Less => {
                    push_within(&mut out, a);
                    next_left = left.next();
                    next_right = Some(b);
                }
                Ordering::Equal => {
                    drop(b);
                    push_within(&mut out, a);
                    next_left = left.next();
                    next_right = right.next();
                }
                Ordering::Greater => {
                    push_within(&mut out, b);
                    next_left = Some(a);
                    next_right = right.next();
                }
            },
            (Some(a), None) => {
                push_within(&mut out, a);
                next_left = left.next();
                next_right = None;
            }
            (None, Some(b)) => {
                push_within(&mut out, b);
                next_left = None;
                next_right = right.next();
            }
            (None, None) => return out,
        }
    }
}

/// The entries of two lists that rise, in one pass, moved into `out`, which has room for all. Entries of one key are joined.
pub(crate) fn merge_entries(
    left: Vec<Box<Entry>>,
    right: Vec<Box<Entry>>,
    mut out: Vec<Box<Entry>>,
) -> Vec<Box<Entry>>
    requires rising_left { Rises key_cmp (λ row. row.key) (rows_of left.items) }
    requires rising_right { Rises key_cmp (λ row. row.key) (rows_of right.items) }
    requires none { out.items ≡ [] }
    requires room { vec_len left + vec_len right ≤ vec_capacity out }
    requires closed_right { AllClosed right.items }
    requires opened { OpenAmong left.items right.items }
    requires fits { AllHavePlace left.items right.items }
    ensures closed { AllClosed result.items }
    ensures rows { rows_of result.items ≡ put_rows (rows_of right.items) (rows_of left.items) }
{
    let mut left = left.into_iter();
    let mut right = right.into_iter();
    let mut next_left = left.next();
    let mut next_right = right.next();
    'entries: loop {
        match (next_left, next_right) {
            (Some(a), Some(b)) => match compare_keys(&a.key, &b.key) {
                Ordering::Less => {
                    push_within(&mut out, a);
                    next_left = left.next();
                    next_right = Some(b);
                }
                Ordering::Equal => {
                    push_within(&mut out, joined_entry(a, b));
                    next_left = left.next();
                    next_right = right.next();
                }
                Ordering::Greater => {
                    push_within(&mut out, b);
                    next_left = Some(a);
                    next_right = right.next();
                }
            },
            (Some(a), None) => {
                push_within(&mut out, a);
                next_left = left.next();
                next_right = None;
            }
            (None, Some(b)) => {
                push_within(&mut out, b);
                next_left = None;
                next_right = right.next();
            }
            (None, None) => return out,
        }
    }
}

/// An entry with what another of its key has.
fn joined_entry(mut boxed: Box<Entry>, more: Box<Entry>) -> Box<Entry>
    requires { CanTake boxed.value more.value }
    ensures row { row_of result.value ≡ joined (row_of boxed.value) (row_of more.value) }
    ensures closed { IsClosed result.value }
{
    let entry: &mut Entry = &mut boxed;
    entry.take(Box::into_inner(more));
    boxed
}
