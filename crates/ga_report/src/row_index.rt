ghost use Rattle.std.specs.Prelude.{◌≡◌, ◌<◌, [], All, IfOk, List, filter, length};
ghost use Rattle.std.specs.List.{filter_map};
ghost use Rattle.ga_report.specs.Items.{order};
ghost use Rattle.ga_report.specs.Steps.Alone.{IsPartition, has_none};
ghost use Rattle.ga_report.specs.Steps.RowPlaces.{AreIndexes, rows_at, index_at};
ghost use Rattle.ga_report.specs.Steps.Summed.{is_up_to};
ghost use Rattle.ga_report.specs.Source.{SourceRow};

use crate::arranging::is_behind;
use crate::{RowRef, RowSource};
use ga_base::{NoMemory, Panel, map_pieces};
use ga_shards::text_hash;
use std::alloc::Global;
use std::marker::Sync;
use std::thread::Threads;

/// Fewer rows than these are not looked at in pieces.
pub(crate) const MANY_ROWS: usize = 4096;

/// Where a row stands, with a cheap hash of its label.
#[derive(Clone, Copy)]
pub(crate) struct RowIndex {
    pub(crate) place: u64,
    pub(crate) hash: u64,
}

/// Row indexes of a panel's rows: those that pass a test, and the others.
#[derive(Drop)]
pub(crate) struct Partition {
    pub(crate) passing: Vec<RowIndex>,
    pub(crate) others: Vec<RowIndex>,
}

impl Partition {
    /// None yet.
    pub(crate) fn new(alloc: Global) -> Partition
        ensures passing { result.passing.items ≡ [] }
        ensures others { result.others.items ≡ [] }
    {
        Partition {
            passing: Vec::new(alloc),
            others: Vec::new(alloc),
        }
    }
}

/// The row indexes of the rows at these places, found in this many pieces side by side.
pub(crate) fn indexes_at<R: Threads + Sync, T: RowSource + Sync>(
    rt: &R,
    alloc: Global,
    pieces: u32,
    source: &T,
    places: &[u64],
) -> Result<Vec<RowIndex>, NoMemory>
    requires { All (λ place. place < length (T.view source.now).rows) places.now }
    ensures { IfOk result (λ indexes. indexes.items ≡ filter_map (index_at (T.view source.now).rows) places.now) }
{
    let piece = move |places: &[u64]| -> Result<Vec<RowIndex>, NoMemory>
        requires { All (λ place. place < length (T.view source.now).rows) places.now }
        ensures { IfOk result (λ indexes. indexes.items ≡ filter_map (index_at (T.view source.entry.now).rows) places.now) }
    { indexes_in_turn(alloc, source, places) };
    map_pieces(rt, pieces, MANY_ROWS, places, &piece)
}

/// The same, by one loop.
pub(crate) fn indexes_in_turn<T: RowSource>(
    alloc: Global,
    source: &T,
    places: &[u64],
) -> Result<Vec<RowIndex>, NoMemory>
    requires { All (λ place. place < length (T.view source.now).rows) places.now }
    ensures { IfOk result (λ indexes. indexes.items ≡ filter_map (index_at (T.view source.now).rows) places.now) }
{
    let mut indexes = Vec::with_capacity(alloc, places.len())?;
    for place in places {
        let hash = text_hash(source.row(*place).label().bytes());
        indexes.push(RowIndex {
            place: *place,
            hash,
        })?;
    }
    Ok(indexes)
}

/// The rows at these row indexes, found in this many pieces side by side.
pub(crate) fn rows_at<'a, R: Threads + Sync, T: RowSource + Sync>(
    rt: &R,
    alloc: Global,
    pieces: u32,
    source: &'a T,
    indexes: &[RowIndex],
) -> Result<Vec<RowRef<'a>>, NoMemory>
    requires { All (λ row_index. row_index.place < length (T.view source.now).rows) indexes.now }
    ensures { IfOk result (λ rows. rows.items ≡ rows_at (T.view source.now).rows indexes.now) }
{
    let piece = move |indexes: &[RowIndex]| -> Result<Vec<RowRef<'_>>, NoMemory>
        requires { All (λ row_index. row_index.place < length (T.view source.now).rows) indexes.now }
        ensures { IfOk result (λ rows. rows.items ≡ rows_at (T.view source.entry.now).rows indexes.now) }
    { rows_in_turn(alloc, source, indexes) };
    map_pieces(rt, pieces, MANY_ROWS, indexes, &piece)
}

/// The same, by one loop.
fn rows_in_turn<'a, T: RowSource>(
    alloc: Global,
    source: &'a T,
    indexes: &[RowIndex],
) -> Result<Vec<RowRef<'a>>, NoMemory>
    requires { All (λ row_index. row_index.place < length (T.view source.now).rows) indexes.now }
    ensures { IfOk result (λ rows. rows.items ≡ rows_at (T.view source.now).rows indexes.now) }
{
    let mut rows = Vec::with_capacity(alloc, indexes.len())?;
    for row_index in indexes {
        rows.push(source.row(row_index.place))?;
    }
    Ok(rows)
}

/// The rows at these row indexes that don't come after a threshold, found in this many pieces side by side.
pub(crate) fn rows_near<'a, R: Threads + Sync, T: RowSource + Sync>(
    rt: &R,
    alloc: Global,
    pieces: u32,
    source: &'a T,
    indexes: &[RowIndex],
    panel: Panel,
    threshold: &RowRef<'_>,
) -> Result<Vec<RowRef<'a>>, NoMemory>
    requires { All (λ row_index. row_index.place < length (T.view source.now).rows) indexes.now }
    ensures { IfOk result (λ rows. rows.items ≡ filter (is_up_to (order panel) threshold.now) (rows_at (T.view source.now).rows indexes.now)) }
{
    let piece = move |indexes: &[RowIndex]| -> Result<Vec<RowRef<'_>>, NoMemory>
        requires { All (λ row_index. row_index.place < length (T.view source.now).rows) indexes.now }
        ensures { IfOk result (λ rows. rows.items
            ≡ filter (is_up_to (order panel) threshold.entry.now) (rows_at (T.view source.entry.now).rows indexes.now)) }
    { rows_near_in_turn(alloc, source, indexes, panel, threshold) };
    map_pieces(rt, pieces, MANY_ROWS, indexes, &piece)
}

/// The same, by one loop.
fn rows_near_in_turn<'a, T: RowSource>(
    alloc: Global,
    source: &'a T,
    indexes: &[RowIndex],
    panel: Panel,
    threshold: &RowRef<'_>,
) -> Result<Vec<RowRef<'a>>, NoMemory>
    requires { All (λ row_index. row_index.place < length (T.view source.now).rows) indexes.now }
    ensures { IfOk result (λ rows. rows.items ≡ filter (is_up_to (order panel) threshold.now) (rows_at (T.view source.now).rows indexes.now)) }
{
    let mut rows = Vec::new(alloc);
    for row_index in indexes {
        let row = source.row(row_index.place);
        if !is_behind(panel, threshold, &row) {
            rows.push(row)?;
        }
    }
    Ok(rows)
}

/// Row indexes, split by whether their hashes have none of some bits. Rows of one item have one hash, so they are among the
/// same.
pub(crate) fn halves_of(
    alloc: Global,
    indexes: &[RowIndex],
    bits: u64,
) -> Result<Partition, NoMemory>
    ensures { IfOk result (λ halves. (rows those : List SourceRow) → AreIndexes rows indexes.now those
        → IsPartition rows (has_none bits) those halves.passing.items halves.others.items) }
{
    let mut halves = Partition::new(alloc);
    for row_index in indexes {
        if row_index.hash & bits == 0 {
            halves.passing.push(*row_index)?;
        } else {
            halves.others.push(*row_index)?;
        }
    }
    Ok(halves)
}
