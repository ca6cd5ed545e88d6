ghost use Rattle.std.specs.Prelude.{◌≡◌, ◌<◌, ◌≤◌, ◌+◌, ◌^◌, ℕ, Some, OnOk, IfSome, IfNone, length, map, slice_get};
ghost use Rattle.ga_tallies.specs.Steps.Absorbing.{AddsSuch, IsAmong, IsBrought, IsMapped, IsMappedItem, remapped_seen};
ghost use Rattle.ga_tallies.specs.Tallies.{lists_in, pairs_from, pairs_in};

use crate::VisitorRow;
use crate::remapped_tally::RemappedTally;
use crate::weighing::{Weight, parts_by};
use ga_base::{NoMemory, change_parts};
use std::thread::Threads;

/// Of fewer keys no parts are made.
const FEW_KEYS: usize = 256;

/// Adds the pairs that another brings to the rows of keys, in parts that weigh about as much, side by side.
pub(crate) fn add_in_parts<R: Threads + Sync>(
    rt: &R,
    remapped: &RemappedTally,
    weights: &[Weight],
    rows: &mut [VisitorRow],
) -> Result<(), NoMemory>
    ensures { OnOk result (AddsSuch (IsAmong 0 (length rows.old) (IsBrought (remapped_seen remapped.now)))
        (pairs_from 0 (lists_in rows.old)) (pairs_from 0 (lists_in rows.new))) }
{
    let add = move |first: usize, rows: &mut [VisitorRow]| -> Result<(), NoMemory>
        ensures { OnOk result (AddsSuch (IsAmong first (length rows.old) (IsBrought (remapped_seen remapped.entry.now)))
            (pairs_from first (lists_in rows.old)) (pairs_from first (lists_in rows.new))) }
    { add_moved(remapped, first, rows) };
    if rows.len() < FEW_KEYS {
        return change_parts(rt, &add, &[], 0, rows);
    }
    let lengths = parts_by(weights, rows.len());
    change_parts(rt, &add, &lengths, 0, rows)
}

/// Adds the pairs that another brings to the rows of some keys, of which the first has the number `first`.
fn add_moved(
    remapped: &RemappedTally,
    first: usize,
    rows: &mut [VisitorRow],
) -> Result<(), NoMemory>
    ensures { OnOk result (AddsSuch (IsAmong first (length rows.old) (IsBrought (remapped_seen remapped.now)))
        (pairs_from first (lists_in rows.old)) (pairs_from first (lists_in rows.new))) }
{
    add_rows(
        &remapped.keys,
        &remapped.visitors,
        &remapped.counts.visits,
        first,
        rows,
    )
}

/// Adds the pairs of other rows to the rows of these keys, each key and visitor by the number that it has here.
fn add_rows(
    keys: &[u32],
    visitors: &[u32],
    others: &[VisitorRow],
    first: usize,
    rows: &mut [VisitorRow],
) -> Result<(), NoMemory>
    ensures many { length rows.new ≡ length rows.old }
    ensures added { OnOk result (AddsSuch (IsAmong first (length rows.old) (IsMapped keys.now visitors.now (pairs_in (lists_in others.now))))
        (pairs_from first (lists_in rows.old)) (pairs_from first (lists_in rows.new))) }
{
    for (key, row) in others.iter().enumerate() {
        if let Some(place) = place_among(keys, key, first, rows.len()) {
            add_row(&mut rows[place], visitors, row)?;
        }
    }
    Ok(())
}

/// The place of a key's row among this many, of which the first is that of the number `first`. There is none where the row is
/// another part's.
fn place_among(keys: &[u32], key: usize, first: usize, many: usize) -> Option<usize>
    ensures some { IfSome result (λ place. (place < many) × (slice_get keys.now key ≡ Some (first + place))) }
    ensures none { IfNone result ((number : ℕ) → slice_get keys.now key ≡ Some number → first ≤ number → number < first + many → ⊥) }
{
    let number = *keys.get(key)? as usize;
    if number < first || number - first >= many {
        return None;
    }
    Some(number - first)
}

/// Adds other visitors to a row, each by the number that it has here.
fn add_row(row: &mut VisitorRow, visitors: &[u32], more: &[u32]) -> Result<(), NoMemory>
    ensures { OnOk result (AddsSuch (IsMappedItem visitors.now more.now) row.old.items row.new.items) }
{
    row.reserve(more.len())?;
    for visitor in more {
        if let Some(number) = visitors.get(*visitor as usize) {
            row.push(*number)?;
        }
    }
    Ok(())
}
