ghost use Rattle.std.specs.Prelude.{◌≡◌, ◌+◌, ◌<◌, ◌≤◌, false, true, None, Some, IfOk, MatchResult, MatchOption, [], max, vec_len, vec_capacity};
ghost use Rattle.ga_base.specs.declared.key.Key.{Key as TheKey};
ghost use Rattle.ga_base.specs.Orders.{key_cmp, is_same_key};
ghost use Rattle.ga_summary.specs.SummaryParts.{rows_in};
ghost use Rattle.ga_summary.specs.SummaryRows.{row_at};
ghost use Rattle.ga_summary.specs.Steps.Entries.{AllClosed, IsClosed, rows_of, row_of};
ghost use Rattle.ga_summary.specs.Steps.Joined.{put_row, put_rows};
ghost use Rattle.ga_summary.specs.Steps.Room.{HasPlace, AllHavePlace, IsClosedAt, OpenAmong, entry_at};
ghost use Rattle.ga_summary.specs.Steps.Places.{Rises, StandsAt, GoesTo};

use crate::PartRow;
use crate::entry::Entry;
use crate::one_pass::merge_entries;
use crate::order::compare_keys;
use ga_base::{Key, NoMemory};
use std::alloc::{AllocError, Global};
use std::mem::replace;

/// Where the key stands, or where it would go.
pub(crate) fn find(entries: &[Box<Entry>], key: &Key) -> Result<usize, usize>
    requires { Rises key_cmp (λ row. row.key) (rows_of entries.now) }
    ensures { MatchResult result (StandsAt key_cmp (λ row. row.key) key.now (rows_of entries.now)) (GoesTo key_cmp (λ row. row.key) key.now (rows_of entries.now)) }
{
    entries.binary_search_by(|entry| compare_keys(&entry.key, key))
}

/// The key's entry.
pub(crate) fn entry_of<'a>(entries: &'a [Box<Entry>], key: &Key) -> Option<&'a Entry>
    requires { Rises key_cmp (λ row. row.key) (rows_of entries.now) }
    ensures { MatchOption result (row_at (rows_of entries.now) key.now ≡ None) (λ e. row_at (rows_of entries.now) key.now ≡ Some (row_of e.now)) }
{
    match find(entries, key) {
        Ok(at) => Some(&entries[at]),
        Err(_) => None,
    }
}

/// Closed entries with the same rows.
pub(crate) fn copy_all(alloc: Global, entries: &[Box<Entry>]) -> Result<Vec<Box<Entry>>, AllocError>
    requires { AllClosed entries.now }
    ensures rows { IfOk result (λ v. rows_of v.items ≡ rows_of entries.now) }
    ensures closed { IfOk result (λ v. AllClosed v.items) }
{
    let mut copies = Vec::with_capacity(alloc, entries.len())?;
    for entry in entries {
        copies.push(Box::new(alloc, entry.copy()?)?)?;
    }
    Ok(copies)
}

/// The room that may stand empty behind the rows of a list: this many rows, and an eighth of those that are left.
const SPARE_ROWS: usize = 1_024;

/// Gives the memory behind the rows back, where much of it stands empty.
fn give_back(rows: &mut Vec<PartRow>)
    ensures items { rows.new.items ≡ rows.old.items }
{
    let len = rows.len();
    let spare = rows.capacity() - len;
    if spare > SPARE_ROWS && spare - SPARE_ROWS > len / 8 {
        rows.shrink_to(len);
    }
}

/// Closed entries with these rows. They are made from the last row on, so that the list of rows gives its memory back as they grow.
pub(crate) fn entries_of(mut rows: Vec<PartRow>) -> Result<Vec<Box<Entry>>, NoMemory>
    ensures rows { IfOk result (λ v. rows_of v.items ≡ rows_in rows.items) }
    ensures closed { IfOk result (λ v. AllClosed v.items) }
{
    let alloc = *rows.allocator();
    let mut entries = Vec::with_capacity(alloc, rows.len())?;
    while let Some(row) = rows.pop() {
        let entry = Entry::of(alloc, row.key, row.sums, row.names);
        entries.push(Box::new(alloc, entry)?)?;
        give_back(&mut rows);
    }
    entries.reverse();
    Ok(entries)
}

/// Puts an entry in its place, or joins it to the entry of its key.
fn place(entries: &mut Vec<Box<Entry>>, more: Box<Entry>)
    requires rising { Rises key_cmp (λ row. row.key) (rows_of entries.old.items) }
    requires room { vec_len entries.old < vec_capacity entries.old }
    requires closed { IsClosed more.value }
    requires fits { HasPlace entries.old.items more.value }
    ensures rows { rows_of entries.new.items ≡ put_row (row_of more.value) (rows_of entries.old.items) }
    ensures others { (key : TheKey) → is_same_key key more.value.key ≡ false → entry_at entries.new.items key ≡ entry_at entries.old.items key }
    ensures closed { (key : TheKey) → is_same_key key more.value.key ≡ true → IsClosedAt entries.new.items key }
    ensures len { vec_len entries.new ≤ vec_len entries.old + 1 }
    ensures capacity { vec_capacity entries.old ≤ vec_capacity entries.new }
{
    match find(entries, &more.key) {
        Ok(at) => {
            let entry: &mut Entry = &mut entries[at];
            entry.take(Box::into_inner(more));
        }
        Err(at) => match entries.insert(at, more) {
            Ok(()) => {}
            Err(_) => unreachable!(),
        },
    }
}

/// Puts entries in their places one by one.
fn place_each(entries: &mut Vec<Box<Entry>>, more: Vec<Box<Entry>>)
    requires rising { Rises key_cmp (λ row. row.key) (rows_of entries.old.items) }
    requires rising_more { Rises key_cmp (λ row. row.key) (rows_of more.items) }
    requires room { vec_len entries.old + vec_len more ≤ vec_capacity entries.old }
    requires closed_more { AllClosed more.items }
    requires opened { OpenAmong entries.old.items more.items }
    requires fits { AllHavePlace entries.old.items more.items }
    ensures rows { rows_of entries.new.items ≡ put_rows (rows_of more.items) (rows_of entries.old.items) }
    ensures closed { AllClosed entries.new.items }
{
    for entry in more {
        place(entries, entry);
    }
}

/// Puts entries in their places, for which all that they need is there: one by one, or by one pass over all into `room`.
pub(crate) fn place_all(entries: &mut Vec<Box<Entry>>, more: Vec<Box<Entry>>, room: Vec<Box<Entry>>)
    requires rising { Rises key_cmp (λ row. row.key) (rows_of entries.old.items) }
    requires rising_more { Rises key_cmp (λ row. row.key) (rows_of more.items) }
    requires none { room.items ≡ [] }
    requires room { vec_len entries.old + vec_len more ≤ max (vec_capacity entries.old) (vec_capacity room) }
    requires closed_more { AllClosed more.items }
    requires opened { OpenAmong entries.old.items more.items }
    requires fits { AllHavePlace entries.old.items more.items }
    ensures rows { rows_of entries.new.items ≡ put_rows (rows_of more.items) (rows_of entries.old.items) }
    ensures closed { AllClosed entries.new.items }
{
    if room.capacity() < entries.len() + more.len() {
        place_each(entries, more);
    } else {
        let none = Vec::new(*entries.allocator());
        let old = replace(entries, none);
        *entries = merge_entries(old, more, room);
    }
}
