ghost use Rattle.std.specs.Prelude.{◌≡◌, ◌+◌, ◌<◌, ◌≤◌, ◌^◌, All, IfOk, OnOk, eqb, length};
ghost use Rattle.std.specs.Set.{distinct_count};
ghost use Rattle.ga_tallies.specs.Tallies.{lists_in, pairs_in};
ghost use Rattle.ga_totals.specs.Steps.KeyRows.{AreWithin, visitors_at};
ghost use Rattle.ga_totals.specs.Steps.Sources.{AreVisits};
ghost use Rattle.ga_totals.specs.Steps.Visits.{AreMarks, counts_of};

use ga_base::{NoMemory, change_parts};
use ga_tallies::{VisitorRow, part_of};
use std::alloc::Global;
use std::thread::Threads;

/// The keys are counted in this many parts.
const KEY_PARTS: usize = 4;

/// In a row of at most this many visitors each is compared with those before it; in a longer one each is marked.
const FEW_VISITORS: usize = 8;

/// How many visitors each key has, at the key's number. Each counts once for the key in whose row it stands.
pub(crate) fn visits_of(
    alloc: Global,
    keys: u32,
    visitors: usize,
    rows: &[VisitorRow],
) -> Result<Vec<u64>, NoMemory>
    requires { AreWithin visitors (lists_in rows.now) }
    ensures { IfOk result (λ visits. AreVisits keys (pairs_in (lists_in rows.now)) visits.items) }
{
    let mut visits = vec![in alloc; 0u64; keys as usize]?;
    count_keys(alloc, visitors, rows, 0, &mut visits)?;
    Ok(visits)
}

/// The same, counted in parts of the keys, side by side.
pub(crate) fn visits_in_parts<R: Threads + Sync>(
    rt: &R,
    alloc: Global,
    keys: u32,
    visitors: usize,
    rows: &[VisitorRow],
) -> Result<Vec<u64>, NoMemory>
    requires { AreWithin visitors (lists_in rows.now) }
    ensures { IfOk result (λ visits. AreVisits keys (pairs_in (lists_in rows.now)) visits.items) }
{
    let count = move |first: usize, visits: &mut [u64]| -> Result<(), NoMemory>
        requires { (first + length visits.old < 2 ^ 32) × AreWithin visitors (lists_in rows.now) }
        ensures { OnOk result (visits.new ≡ counts_of (lists_in rows.entry.now) first (length visits.old)) }
    { count_keys(alloc, visitors, rows, first, visits) };
    let mut visits = vec![in alloc; 0u64; keys as usize]?;
    change_parts(rt, &count, &parts_of(rows, keys as usize), 0, &mut visits)?;
    Ok(visits)
}

/// How many of this many keys are in each of the parts, which have about as many visitors as one another. Nothing but the time
/// that the parts take depends on it.
fn parts_of(rows: &[VisitorRow], keys: usize) -> [usize; KEY_PARTS] {
    let mut lengths = [0; KEY_PARTS];
    let mut first = 0;
    for part in 0..KEY_PARTS {
        let length = part_between(rows, first, keys - first, KEY_PARTS - part);
        lengths[part] = length;
        first += length;
    }
    lengths
}

/// How many of this many keys, from the one with the number `first` on, are in the first of this many parts. After the last row keys
/// have no visitors.
fn part_between(rows: &[VisitorRow], first: usize, many: usize, parts: usize) -> usize
    requires numbers { first + many < 2 ^ 64 }
    requires some { 0 < parts }
    ensures { result ≤ many }
{
    let stop = rows.len().min(first + many);
    let start = stop.min(first);
    part_of(&rows[start..stop], parts)
}

/// Counts the visitors of as many keys as there are places, from the one with the number `first` on. Marks are made once a row
/// needs them.
fn count_keys(
    alloc: Global,
    visitors: usize,
    rows: &[VisitorRow],
    first: usize,
    visits: &mut [u64],
) -> Result<(), NoMemory>
    requires numbered { first + length visits.old < 2 ^ 32 }
    requires within { AreWithin visitors (lists_in rows.now) }
    ensures { OnOk result (visits.new ≡ counts_of (lists_in rows.now) first (length visits.old)) }
{
    let mut marks = Vec::new(alloc);
    for place in 0..visits.len() {
        let number = first + place;
        let row = row_at(rows, number);
        visits[place] = count(alloc, visitors, &mut marks, number as u32 + 1, row)?;
    }
    Ok(())
}

/// The visitors of a key's number, of rows that have them at the keys' numbers. After the last row there are none.
pub(crate) fn row_at(rows: &[VisitorRow], number: usize) -> &[u32]
    ensures { result.now ≡ visitors_at (lists_in rows.now) number }
{
    match rows.get(number) {
        Some(row) => row,
        None => &[],
    }
}

/// How many different visitors are in a row. Where there are more than a few, each has the mark then, which none had before.
fn count(
    alloc: Global,
    visitors: usize,
    marks: &mut Vec<u32>,
    mark: u32,
    row: &[u32],
) -> Result<u64, NoMemory>
    requires within { All (λ v. v < visitors) row.now }
    requires some { 0 < mark }
    requires marks { AreMarks visitors mark marks.old.items }
    ensures count { IfOk result (λ count. count ≡ distinct_count eqb row.now) }
    ensures marks { IfOk result (λ _. AreMarks visitors (mark + 1) marks.new.items) }
{
    if row.len() <= FEW_VISITORS {
        return Ok(count_few(row));
    }
    if marks.is_empty() {
        *marks = vec![in alloc; 0u32; visitors]?;
    }
    Ok(count_different(marks, mark, row))
}

/// How many different visitors are in a row, of which each is compared with those before it.
fn count_few(row: &[u32]) -> u64
    ensures { result ≡ distinct_count eqb row.now }
{
    let mut count = 0;
    for place in 0..row.len() {
        if !row[..place].contains(&row[place]) {
            count += 1;
        }
    }
    count
}

/// How many different visitors are in a row. Each has the mark then, which none had before.
fn count_different(marks: &mut [u32], mark: u32, row: &[u32]) -> u64
    requires within { All (λ v. v < length marks.old) row.now }
    requires new { All (λ m. m < mark) marks.old }
    ensures count { result ≡ distinct_count eqb row.now }
    ensures marks { All (λ m. m ≤ mark) marks.new }
{
    let mut count = 0;
    for visitor in row {
        let place = &mut marks[*visitor as usize];
        if *place != mark {
            *place = mark;
            count += 1;
        }
    }
    count
}
