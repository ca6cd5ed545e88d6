ghost use Rattle.std.specs.Prelude.{◌≡◌, ◌<◌, ◌≤◌, [], All, IfOk, OnOk, IsTrue, filter, length, map};
ghost use Rattle.std.specs.List.Sorted.{IsPermutation, IsSorted};
ghost use Rattle.std.specs.Thread.{IsSync};
ghost use Rattle.ga_report.specs.Items.{is_of, order, shown_rows, undated};
ghost use Rattle.ga_report.specs.Steps.Alone.{IsAlonePartition};
ghost use Rattle.ga_report.specs.Steps.RowPlaces.{rows_at};
ghost use Rattle.ga_report.specs.Steps.Summed.{AreSummed, CanAddUp, FitTogether, by_parent, is_up_to, items_of, panel_rows, with_row};
ghost use Rattle.ga_shards.specs.Keys.{keyed_with};

use crate::arranging::items_up_to;
use crate::buckets::Buckets;
use crate::item_name::ItemName;
use crate::panel_places::shown_places;
use crate::row_index::{MANY_ROWS, Partition, RowIndex, halves_of, indexes_at, rows_at, rows_near};
use crate::{RowRef, RowSource};
use ga_base::{DateSpec, NoMemory, Panel, Totals};
use ga_shards::{Dictionary, Keyed};
use std::alloc::Global;
use std::marker::Sync;
use std::thread::{self, Threads};

/// More items than numbers of 32 bits take more memory than there is.
const MOST_ITEMS: usize = u32::MAX as usize - 2;

/// The items of a panel: the row indexes of those that are one row each, and the sums of the others.
#[derive(Drop)]
pub(crate) struct PanelItems<'a> {
    pub(crate) alone: Vec<RowIndex>,
    pub(crate) added: Vec<RowRef<'a>>,
}

/// A panel's items: rows that differ in their day alone are added up. It takes the time of finding the panel's rows
/// and of a look at each of them, which is shared by this many pieces of the rows side by side, and of one by its name for each
/// that isn't alone in its bucket; and the memory of two numbers and some buckets for each row.
pub(crate) fn panel_items<'a, R: Threads + Sync, T: RowSource + Sync>(
    rt: &R,
    alloc: Global,
    pieces: u32,
    source: &'a T,
    panel: Panel,
    spec: DateSpec,
) -> Result<PanelItems<'a>, NoMemory>
    ensures there { IfOk result (λ panel_items. All (λ row_index. row_index.place < length (T.view source.now).rows) panel_items.alone.items) }
    ensures items { IfOk result (λ panel_items. AreSummed (panel_rows panel (shown_rows spec (T.view source.now).rows))
        (items_of (T.view source.now).rows panel_items.alone.items panel_items.added.items)) }
{
    // What is known of the totals is that the rows' sums fit.
    let _totals = source.totals();
    let partition = partition(rt, alloc, pieces, source, panel, spec)?;
    let added = sum_items(rt, alloc, pieces, source, &partition.others)?;
    Ok(PanelItems {
        alone: partition.passing,
        added,
    })
}

/// All items of a panel.
pub(crate) fn all_items<'a, R: Threads + Sync, T: RowSource + Sync>(
    rt: &R,
    alloc: Global,
    pieces: u32,
    source: &'a T,
    panel_items: PanelItems<'a>,
) -> Result<Vec<RowRef<'a>>, NoMemory>
    requires { All (λ row_index. row_index.place < length (T.view source.now).rows) panel_items.alone.items }
    ensures { IfOk result (λ items. items.items ≡ items_of (T.view source.now).rows panel_items.entry.alone.items panel_items.entry.added.items) }
{
    let mut items = rows_at(rt, alloc, pieces, source, &panel_items.alone)?;
    let mut added = panel_items.added;
    items.append(&mut added)?;
    Ok(items)
}

/// The items of a panel that don't come after a threshold.
pub(crate) fn items_near<'a, R: Threads + Sync, T: RowSource + Sync>(
    rt: &R,
    alloc: Global,
    pieces: u32,
    source: &'a T,
    panel_items: &PanelItems<'a>,
    panel: Panel,
    threshold: &RowRef<'_>,
) -> Result<Vec<RowRef<'a>>, NoMemory>
    requires { All (λ row_index. row_index.place < length (T.view source.now).rows) panel_items.now.alone.items }
    ensures { IfOk result (λ items. items.items
        ≡ filter (is_up_to (order panel) threshold.now) (items_of (T.view source.now).rows panel_items.now.alone.items panel_items.now.added.items)) }
{
    let mut items = rows_near(
        rt,
        alloc,
        pieces,
        source,
        &panel_items.alone,
        panel,
        threshold,
    )?;
    let mut added = items_up_to(alloc, &panel_items.added, panel, threshold)?;
    items.append(&mut added)?;
    Ok(items)
}

/// The row indexes of a panel's rows: those of rows that are alone in their buckets, and those of the others.
fn partition<R: Threads + Sync, T: RowSource + Sync>(
    rt: &R,
    alloc: Global,
    pieces: u32,
    source: &T,
    panel: Panel,
    spec: DateSpec,
) -> Result<Partition, NoMemory>
    ensures { IfOk result (λ partition. IsAlonePartition (T.view source.now).rows (panel_rows panel (shown_rows spec (T.view source.now).rows))
        partition.passing.items partition.others.items) }
{
    let places = shown_places(alloc, source, panel, spec)?;
    let indexes = indexes_at(rt, alloc, pieces, source, &places)?;
    let buckets = Buckets::of(alloc, &indexes)?;
    buckets.partition(alloc, &indexes)
}

/// The items of the rows at these row indexes, in this many pieces side by side: rows with another hash are of another item.
#[cycle(adding)]
fn sum_items<'a, R: Threads + Sync, T: RowSource + Sync>(
    rt: &R,
    alloc: Global,
    pieces: u32,
    source: &'a T,
    indexes: &[RowIndex],
) -> Result<Vec<RowRef<'a>>, NoMemory>
    requires { CanAddUp (T.view source.now).rows indexes.now }
    ensures { IfOk result (λ items. AreSummed (rows_at (T.view source.now).rows indexes.now) items.items) }
{
    if pieces < 2 || indexes.len() < MANY_ROWS {
        return sum_in_turn(alloc, source, indexes);
    }
    let halves = halves_of(alloc, indexes, u64::from(pieces / 2))?;
    let (low, high) = (&halves.passing, &halves.others);
    let (mut items, mut others) = sum_both(rt, alloc, pieces / 2, source, low, high)?;
    items.append(&mut others)?;
    Ok(items)
}

/// The items of the rows at these row indexes and of those at others, side by side.
#[cycle(adding)]
fn sum_both<'a, R: Threads + Sync, T: RowSource + Sync>(
    rt: &R,
    alloc: Global,
    pieces: u32,
    source: &'a T,
    low: &[RowIndex],
    high: &[RowIndex],
) -> Result<(Vec<RowRef<'a>>, Vec<RowRef<'a>>), NoMemory>
    requires low { CanAddUp (T.view source.now).rows low.now }
    requires high { CanAddUp (T.view source.now).rows high.now }
    ensures low { IfOk result (λ items. AreSummed (rows_at (T.view source.now).rows low.now) items.0.items) }
    ensures high { IfOk result (λ items. AreSummed (rows_at (T.view source.now).rows high.now) items.1.items) }
{
    let some = move || -> Result<Vec<RowRef<'_>>, NoMemory>
        requires { IsSync R.row × CanAddUp (T.view source.now).rows low.now }
        ensures { IfOk result (λ items. AreSummed (rows_at (T.view source.entry.now).rows low.entry.now) items.items) }
    { sum_items(rt, alloc, pieces, source, low) };
    let others = move || -> Result<Vec<RowRef<'_>>, NoMemory>
        requires { IsSync R.row × CanAddUp (T.view source.now).rows high.now }
        ensures { IfOk result (λ items. AreSummed (rows_at (T.view source.entry.now).rows high.entry.now) items.items) }
    { sum_items(rt, alloc, pieces, source, high) };
    let (some, others) = thread::join(rt, some, others);
    Ok((some?, others?))
}

/// The items of the rows at these row indexes.
pub(crate) fn sum_in_turn<'a, T: RowSource>(
    alloc: Global,
    source: &'a T,
    indexes: &[RowIndex],
) -> Result<Vec<RowRef<'a>>, NoMemory>
    requires { CanAddUp (T.view source.now).rows indexes.now }
    ensures { IfOk result (λ items. AreSummed (rows_at (T.view source.now).rows indexes.now) items.items) }
{
    let mut names = no_names(alloc, source);
    let mut items = Vec::new(alloc);
    for row_index in indexes {
        add_row(&mut names, &mut items, &source.row(row_index.place))?;
    }
    Ok(items)
}

/// The names of no items, which are hashed by the totals of all lines.
pub(crate) fn no_names<'a, T: RowSource>(alloc: Global, source: &T) -> Dictionary<ItemName<'a>>
    ensures { result ≡ [] }
{
    Dictionary::keyed(alloc, keyed_by(&source.totals()))
}

/// How the names of items hash, by the totals of all lines. Who writes lines into a log doesn't know what else will stand
/// there, so can't choose texts that collide.
fn keyed_by(totals: &Totals) -> Keyed
    ensures { result ≡ keyed_with totals.now.bytes totals.now.hits }
{
    Keyed::new(totals.bytes, totals.hits)
}

/// Adds a row to its item, or puts it at the end where its item isn't there. The names are those of the items.
fn add_row<'a>(
    names: &mut Dictionary<ItemName<'a>>,
    items: &mut Vec<RowRef<'a>>,
    row: &RowRef<'a>,
) -> Result<(), NoMemory>
    requires names { names.old ≡ map (λ item. undated item.key) items.old.items }
    requires fit { All (λ item. IsTrue (is_of item.key row.now) → FitTogether item row.now) items.old.items }
    ensures names { OnOk result (names.new ≡ map (λ item. undated item.key) items.new.items) }
    ensures items { OnOk result (items.new.items ≡ with_row row.now items.old.items) }
{
    if items.len() > MOST_ITEMS {
        return Err(NoMemory);
    }
    let place = names.note(row.name())? as usize;
    match items.get_mut(place) {
        Some(item) => item.add(row),
        None => items.push(row.copy())?,
    }
    Ok(())
}

/// The items, sorted so that those of a group stand together.
pub(crate) fn sort_by_group(items: Vec<RowRef<'_>>) -> Vec<RowRef<'_>>
    ensures same { IsPermutation items.entry.items result.items }
    ensures sorted { IsSorted by_parent result.items }
{
    let mut items = items;
    items.sort_unstable_by(|a, b| a.name().parent().cmp(b.name().parent()));
    items
}
