ghost use Rattle.std.specs.Prelude.{◌≡◌, ◌+◌, ◌≤◌, [], IfOk, vec_len, vec_capacity};
ghost use Rattle.ga_base.specs.Orders.{key_cmp};
ghost use Rattle.ga_summary.specs.Steps.Entries.{AllClosed, IsClosed, row_of, rows_of};
ghost use Rattle.ga_summary.specs.Steps.Joined.{joined, put_rows};
ghost use Rattle.ga_summary.specs.Steps.Places.{Rises};
ghost use Rattle.ga_summary.specs.Steps.Room.{AllCanGrow, CanGrow};

use crate::entry::Entry;
use crate::one_pass::push_within;
use crate::order::compare_keys;
use ga_base::NoMemory;
use std::cmp::Ordering;

/// The entries of two lists that rise, in one pass, moved into `out`, which has room for all. Entries of one key are joined, and
/// room for names is made at one key after the other.
pub(crate) fn join_entries(
    left: Vec<Box<Entry>>,
    right: Vec<Box<Entry>>,
    mut out: Vec<Box<Entry>>,
) -> Result<Vec<Box<Entry>>, NoMemory>
    requires rising_left { Rises key_cmp (λ row. row.key) (rows_of left.items) }
    requires rising_right { Rises key_cmp (λ row. row.key) (rows_of right.items) }
    requires none { out.items ≡ [] }
    requires room { vec_len left + vec_len right ≤ vec_capacity out }
    requires grows_left { AllCanGrow left.items }
    requires grows_right { AllCanGrow right.items }
    ensures closed { IfOk result (λ all. AllClosed all.items) }
    ensures rows { IfOk result (λ all. rows_of all.items ≡ put_rows (rows_of right.items) (rows_of left.items)) }
{
    let mut left = left.into_iter();
    let mut right = right.into_iter();
    let mut next_left = left.next();
    let mut next_right = right.next();
    'entries: loop {
        match (next_left, next_right) {
            (Some(a), Some(b)) => match compare_keys(&a.key, &b.key) {
                Ordering::Less => {
                    push_within(&mut out, a);
                    next_left = left.next();
                    next_right = Some(b);
                }
                Ordering::Equal => {
                    let both = joined_box(a, b)?;
                    push_within(&mut out, both);
                    next_left = left.next();
                    next_right = right.next();
                }
                Ordering::Greater => {
                    push_within(&mut out, b);
                    next_left = Some(a);
                    next_right = right.next();
                }
            },
            (Some(a), None) => {
                push_within(&mut out, a);
                next_left = left.next();
                next_right = None;
            }
            (None, Some(b)) => {
                push_within(&mut out, b);
                next_left = None;
                next_right = right.next();
            }
            (None, None) => return Ok(out),
        }
    }
}

/// An entry with what another of its key has.
fn joined_box(boxed: Box<Entry>, more: Box<Entry>) -> Result<Box<Entry>, NoMemory>
    requires grows { CanGrow boxed.value }
    requires grows_more { CanGrow more.value }
    ensures row { IfOk result (λ b. row_of b.value ≡ joined (row_of boxed.value) (row_of more.value)) }
    ensures closed { IfOk result (λ b. IsClosed b.value) }
{
    let entry = Box::into_inner(boxed);
    let alloc = *entry.work.allocator();
    Ok(Box::new(alloc, entry.join(Box::into_inner(more))?)?)
}
