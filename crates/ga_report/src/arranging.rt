ghost use Rattle.std.specs.Prelude.{◌≡◌, ◌<◌, ◌≤◌, All, IfOk, List, filter, length, map, not};
ghost use Rattle.std.specs.List.Sorted.{IsPermutation, IsSorted};
ghost use Rattle.ga_report.specs.declared.report.General.{General};
ghost use Rattle.ga_report.specs.Items.{by_hits, is_row, is_child, item_order, last_first, order};
ghost use Rattle.ga_report.specs.Steps.Summed.{AreFirst, AreSummed, AreTop, StandFirst, IsPart, by_parent, is_up_to, items_of, panel_rows, undate};
ghost use Rattle.ga_report.specs.Source.{SourceRow};

use crate::item_name::{ItemName, item_order};
use crate::panel_items::{PanelItems, all_items, items_near};
use crate::{RowRef, RowSource};
use ga_base::laws::panel_order;
use ga_base::{NoMemory, Panel};
use std::alloc::Global;
use std::cmp::Ordering;
use std::marker::Sync;
use std::thread::Threads;

/// One item of this many is looked at to find where those that come first end.
const SAMPLED: usize = 32;

/// This many more items of a sample are up to the threshold.
const SPARE: u64 = 16;

/// The first of the items that are groups of a panel with groups, at most this many, in the report's order.
pub(crate) fn top_groups<'a>(
    alloc: Global,
    items: &[RowRef<'a>],
    panel: Panel,
    most: u64,
) -> Result<Vec<RowRef<'a>>, NoMemory>
    ensures items { IfOk result (λ rows. (source : List SourceRow) → AreSummed (panel_rows panel source) items.now
        → AreTop panel (is_row panel) most source (map undate rows.items)) }
    ensures panel { IfOk result (λ rows. All (λ item. item.key.panel ≡ panel) items.now
        → All (λ item. item.key.panel ≡ panel) rows.items) }
    ensures parts { IfOk result (λ rows. (general : General) → All (IsPart general) items.now
        → All (IsPart general) rows.items) }
{
    let rows = rows_among(alloc, items, panel)?;
    top_items(alloc, rows, panel, most)
}

/// The first of the items that are entries of a group, at most this many, in the report's order.
pub(crate) fn entries_of<'a>(
    alloc: Global,
    items: &[RowRef<'a>],
    group: &RowRef<'_>,
    most: u64,
) -> Result<Vec<RowRef<'a>>, NoMemory>
    requires { IsSorted by_parent items.now }
    ensures items { IfOk result (λ rows. (source : List SourceRow)
        → AreSummed (panel_rows group.now.key.panel source) items.now
        → AreTop group.now.key.panel (is_child group.now.key) most source (map undate rows.items)) }
    ensures parts { IfOk result (λ rows. (general : General) → All (IsPart general) items.now
        → All (IsPart general) rows.items) }
{
    let name = group.name();
    let rows = entries_among(alloc, slice_of_group(items, &name), &name)?;
    top_items(alloc, rows, name.panel(), most)
}

/// The first of the items, at most this many, in the report's order. Those that aren't among them are not sorted.
pub(crate) fn top_items<'a>(
    alloc: Global,
    items: Vec<RowRef<'a>>,
    panel: Panel,
    most: u64,
) -> Result<Vec<RowRef<'a>>, NoMemory>
    ensures { IfOk result (λ rows. AreFirst (order panel) most items.entry.items rows.items) }
{
    let rows = first_items(alloc, items, panel, most)?;
    Ok(in_report_order(rows, panel))
}

/// The first items of a panel, at most this many, in the report's order. They may be many, and are looked at in
/// this many pieces side by side.
pub(crate) fn top_of_many<'a, R: Threads + Sync, T: RowSource + Sync>(
    rt: &R,
    alloc: Global,
    pieces: u32,
    source: &'a T,
    panel_items: PanelItems<'a>,
    panel: Panel,
    most: u64,
) -> Result<Vec<RowRef<'a>>, NoMemory>
    requires { All (λ row_index. row_index.place < length (T.view source.now).rows) panel_items.alone.items }
    ensures { IfOk result (λ rows. AreFirst (order panel) most
        (items_of (T.view source.now).rows panel_items.entry.alone.items panel_items.entry.added.items) rows.items) }
{
    let items = likely_tops(rt, alloc, pieces, source, panel_items, panel, most)?;
    let rows = first_items(alloc, items, panel, most)?;
    Ok(in_report_order(rows, panel))
}

/// The items in the report's order.
fn in_report_order(items: Vec<RowRef<'_>>, panel: Panel) -> Vec<RowRef<'_>>
    ensures same { IsPermutation items.entry.items result.items }
    ensures sorted { IsSorted (order panel) result.items }
{
    let mut items = items;
    items.sort_unstable_by(|a, b| order(panel, a, b));
    items
}

/// The items that come first, at most this many, in any order.
fn first_items<'a>(
    alloc: Global,
    items: Vec<RowRef<'a>>,
    panel: Panel,
    most: u64,
) -> Result<Vec<RowRef<'a>>, NoMemory>
    ensures { IfOk result (λ rows. StandFirst (order panel) most items.entry.items rows.items) }
{
    let mut items = items;
    if most >= items.len() as u64 {
        return Ok(items);
    }
    let (first, _, _) = items.select_nth_unstable_by(most as usize, |a, b| order(panel, a, b));
    copy_items(alloc, first)
}

/// The items of a panel, without most of those that don't come first where there are many. One in 32 is looked at to
/// find a threshold after which none of the first comes, so that each item is compared about once, and few are kept.
fn likely_tops<'a, R: Threads + Sync, T: RowSource + Sync>(
    rt: &R,
    alloc: Global,
    pieces: u32,
    source: &'a T,
    panel_items: PanelItems<'a>,
    panel: Panel,
    most: u64,
) -> Result<Vec<RowRef<'a>>, NoMemory>
    requires { All (λ row_index. row_index.place < length (T.view source.now).rows) panel_items.alone.items }
    ensures { IfOk result (λ rows. (first : List SourceRow) → StandFirst (order panel) most rows.items first
        → StandFirst (order panel) most (items_of (T.view source.now).rows panel_items.entry.alone.items panel_items.entry.added.items) first) }
{
    let mut few = sample(alloc, source, &panel_items)?;
    if most < few.len() as u64 {
        let (_, threshold, _) = few.select_nth_unstable_by(
            threshold_rank(most),
            |a, b| order(panel, a, b),
        );
        let near = items_near(rt, alloc, pieces, source, &panel_items, panel, threshold)?;
        if most <= near.len() as u64 {
            return Ok(near);
        }
    }
    all_items(rt, alloc, pieces, source, panel_items)
}

/// Which item of a sample is the threshold, where this many items are wanted. A sample has a 32nd of those; up to the threshold
/// it has twice as many and some more, so that hardly ever too few items stand up to it.
fn threshold_rank(most: u64) -> usize
    ensures { result ≤ most }
{
    (most / SAMPLED as u64 * 2 + SPARE).min(most) as usize
}

/// One item of every this many.
fn sample<'a, T: RowSource>(
    alloc: Global,
    source: &'a T,
    panel_items: &PanelItems<'a>,
) -> Result<Vec<RowRef<'a>>, NoMemory>
    requires { All (λ row_index. row_index.place < length (T.view source.now).rows) panel_items.now.alone.items }
{
    let mut few = sample_of(alloc, &panel_items.added)?;
    for at in 0..panel_items.alone.len() / SAMPLED {
        few.push(source.row(panel_items.alone[at * SAMPLED].place))?;
    }
    Ok(few)
}

/// One of each this many items of a list.
fn sample_of<'a>(alloc: Global, items: &[RowRef<'a>]) -> Result<Vec<RowRef<'a>>, NoMemory> {
    let mut few = Vec::with_capacity(alloc, items.len() / SAMPLED + 1)?;
    for item in items.iter().step_by(SAMPLED) {
        few.push(item.copy())?;
    }
    Ok(few)
}

/// The items that don't come after the threshold.
pub(crate) fn items_up_to<'a>(
    alloc: Global,
    items: &[RowRef<'a>],
    panel: Panel,
    threshold: &RowRef<'_>,
) -> Result<Vec<RowRef<'a>>, NoMemory>
    ensures { IfOk result (λ rows. rows.items ≡ filter (is_up_to (order panel) threshold.now) items.now) }
{
    let mut rows = Vec::new(alloc);
    for item in items {
        if !is_behind(panel, threshold, item) {
            rows.push(item.copy())?;
        }
    }
    Ok(rows)
}

/// Whether an item comes after the threshold.
pub(crate) fn is_behind(panel: Panel, threshold: &RowRef<'_>, item: &RowRef<'_>) -> bool
    ensures { is_up_to (order panel) threshold.now item.now ≡ not result }
{
    order(panel, threshold, item).is_lt()
}

/// The same items.
fn copy_items<'a>(alloc: Global, items: &[RowRef<'a>]) -> Result<Vec<RowRef<'a>>, NoMemory>
    ensures { IfOk result (λ rows. rows.items ≡ items.now) }
{
    let mut rows = Vec::with_capacity(alloc, items.len())?;
    for item in items {
        rows.push(item.copy())?;
    }
    Ok(rows)
}

/// Where two items of a panel stand to each other.
fn order(panel: Panel, a: &RowRef<'_>, b: &RowRef<'_>) -> Ordering
    ensures { result ≡ order panel a.now b.now }
{
    match panel {
        Panel::Visitors => last_first(a, b),
        Panel::VisitTimes => item_order(&a.name(), &b.name()),
        _ => by_hits(a, b),
    }
}

/// Where two days stand to each other.
fn last_first(a: &RowRef<'_>, b: &RowRef<'_>) -> Ordering
    ensures { result ≡ last_first a.now b.now }
{
    let ties = || -> Ordering
        ensures { result ≡ item_order a.entry.now b.entry.now }
    { item_order(&a.name(), &b.name()) };
    b.name().label().cmp(a.name().label()).then_with(ties)
}

/// Where two items stand to each other by their hits.
fn by_hits(a: &RowRef<'_>, b: &RowRef<'_>) -> Ordering
    ensures { result ≡ by_hits a.now b.now }
{
    let ties = || -> Ordering
        ensures { result ≡ item_order a.entry.now b.entry.now }
    { item_order(&a.name(), &b.name()) };
    b.sums().hits.cmp(&a.sums().hits).then_with(ties)
}

/// The items that are the rows of a panel.
fn rows_among<'a>(
    alloc: Global,
    items: &[RowRef<'a>],
    panel: Panel,
) -> Result<Vec<RowRef<'a>>, NoMemory>
    ensures { IfOk result (λ rows. rows.items ≡ filter (λ item. is_row panel item.key) items.now) }
{
    let mut rows = Vec::new(alloc);
    for item in items {
        if is_row(panel, &item.name()) {
            rows.push(item.copy())?;
        }
    }
    Ok(rows)
}

/// The items that are entries of a group.
fn entries_among<'a>(
    alloc: Global,
    items: &[RowRef<'a>],
    group: &ItemName<'_>,
) -> Result<Vec<RowRef<'a>>, NoMemory>
    ensures { IfOk result (λ rows. rows.items ≡ filter (λ item. is_child group.now item.key) items.now) }
{
    let mut rows = Vec::new(alloc);
    for item in items {
        if is_child(group, &item.name()) {
            rows.push(item.copy())?;
        }
    }
    Ok(rows)
}

/// The slice of the items that has all of a group.
fn slice_of_group<'s, 'a>(items: &'s [RowRef<'a>], group: &ItemName<'_>) -> &'s [RowRef<'a>]
    requires { IsSorted by_parent items.now }
    ensures { filter (λ item. is_child group.now item.key) result.now ≡ filter (λ item. is_child group.now item.key) items.now }
{
    let parent = group.parent();
    let end = items.partition_point(|item| item.name().parent().cmp(parent).is_le());
    let up_to = &items[..end];
    let start = up_to.partition_point(|item| item.name().parent().cmp(parent).is_lt());
    &up_to[start..]
}

/// Whether an item is a row of the panel: in a panel with groups, these are the groups.
fn is_row(panel: Panel, name: &ItemName<'_>) -> bool
    ensures { result ≡ is_row panel name.now }
{
    panel_order();
    name.panel() == panel && (!panel.has_groups() || name.label().bytes().is_empty())
}

/// Whether an item is an entry of the group.
fn is_child(group: &ItemName<'_>, name: &ItemName<'_>) -> bool
    ensures { result ≡ is_child group.now name.now }
{
    panel_order();
    name.panel() == group.panel()
        && group.panel().has_groups()
        && name.parent() == group.parent()
        && !name.label().bytes().is_empty()
}
