ghost use Rattle.std.specs.Prelude.{◌≡◌, ℕ, IfOk, List, All, false, map};
ghost use Rattle.std.specs.Thread.{IsSync};
ghost use Rattle.std.specs.List.Sorted.{IsSorted};
ghost use Rattle.ga_base.specs.Layers.{has_groups};
ghost use Rattle.ga_report.specs.Items.{order, shown_rows};
ghost use Rattle.ga_report.specs.Printable.{IsPrintable};
ghost use Rattle.ga_report.specs.Reports.{AreChildren, IsPanelList, IsReport, IsRow, Pairwise, data_of, general_of, panels_of, shown_as};
ghost use Rattle.ga_report.specs.Steps.Summed.{AreFirst, AreSummed, DayFits, IsPart, by_parent, panel_rows, undate, with_day};
ghost use Rattle.ga_report.specs.Source.{SourceRow};

use crate::arranging::{entries_of, top_groups, top_of_many};
use crate::item_name::ItemName;
use crate::panel_items::{all_items, panel_items, sort_by_group};
use crate::panel_places::shown_places;
use crate::{
    General, Item, Items, PanelList, PanelLists, Report, Row, RowList, RowRef, RowSource,
    hundredths,
};
use ga_base::{DateSpec, NoMemory, Panel, PanelSet, Text, map_pieces};
use std::alloc::Global;
use std::marker::Sync;
use std::thread::Threads;

/// The rows of a panel that has many are looked at in this many pieces side by side.
const PIECES: u32 = 4;

/// No more panels there are, so that each may be a piece by itself.
const PANEL_PIECES: u32 = 32;

/// What the lists of a report have in common.
#[derive(Clone, Copy)]
struct ListShape {
    /// The most rows of a list.
    max_items: u64,
    /// How finely VISITORS tells days.
    spec: DateSpec,
}

/// The report of what was counted, with the panels of a set, and with days or parts of days in VISITORS. Of each list of rows,
/// and of each row's children, the first `max_items` are shown. With more jobs than one, each panel is made in a thread of its
/// own, and several threads look at the rows of one that has many.
pub fn rows_from<R: Threads + Sync, T: RowSource + Sync>(
    rt: &R,
    alloc: Global,
    source: &T,
    panels: &PanelSet,
    max_items: u64,
    spec: DateSpec,
    jobs: u32,
) -> Result<Report, NoMemory>
    ensures report { IfOk result (IsReport (T.view source.now) panels.now max_items spec) }
    ensures printable { IfOk result IsPrintable }
{
    // What is known of the totals is that each key has a hit.
    let _totals = source.totals();
    let general = general_of(alloc, source)?;
    let shown = shown_panels(alloc, panels)?;
    let shape = ListShape { max_items, spec };
    let lists = lists_of(rt, alloc, source, &general, &shown, shape, jobs)?;
    Ok(Report {
        general,
        panels: PanelLists::from(lists),
    })
}

/// The numbers over all lines: those of the days are sums over their rows.
pub(crate) fn general_of<T: RowSource>(alloc: Global, source: &T) -> Result<General, NoMemory>
    ensures { IfOk result (λ general. general ≡ general_of (T.view source.now)) }
{
    let totals = source.totals();
    let mut general = General {
        total_requests: totals.lines,
        valid_requests: 0,
        failed_requests: totals.failed,
        excluded_hits: totals.excluded,
        unique_visitors: 0,
        bandwidth: 0,
    };
    let days = shown_places(alloc, source, Panel::Visitors, DateSpec::Date)?;
    for day in &days {
        general = with_day(general, &source.row(*day));
    }
    Ok(general)
}

/// The numbers with one day more.
fn with_day(general: General, day: &RowRef<'_>) -> General
    requires { DayFits general day.now }
    ensures { result ≡ with_day general day.now }
{
    General {
        valid_requests: general.valid_requests + day.sums().hits,
        unique_visitors: general.unique_visitors + day.visitors(),
        bandwidth: general.bandwidth + day.sums().bytes,
        ..general
    }
}

/// The panels of a set.
pub(crate) fn shown_panels(alloc: Global, panels: &PanelSet) -> Result<Vec<Panel>, NoMemory>
    ensures { IfOk result (λ shown. shown.items ≡ panels_of panels.now) }
{
    let mut shown = Vec::new(alloc);
    for panel in Panel::ALL.iter() {
        if panels.has(*panel) {
            shown.push(*panel)?;
        }
    }
    Ok(shown)
}

/// The lists of panels, with more jobs than one side by side.
fn lists_of<R: Threads + Sync, T: RowSource + Sync>(
    rt: &R,
    alloc: Global,
    source: &T,
    general: &General,
    panels: &[Panel],
    shape: ListShape,
    jobs: u32,
) -> Result<Vec<PanelList>, NoMemory>
    requires { general.now ≡ general_of (T.view source.now) }
    ensures { IfOk result (λ lists. Pairwise (IsPanelList general.now shape.max_items (shown_rows shape.spec (T.view source.now).rows)) panels.now lists.items) }
{
    let (cut, pieces) = if jobs > 1 {
        (PANEL_PIECES, PIECES)
    } else {
        (1, 1)
    };
    let list = move |panels: &[Panel]| -> Result<Vec<PanelList>, NoMemory>
        requires { IsSync R.row × (general.now ≡ general_of (T.view source.now)) }
        ensures { IfOk result (λ lists. Pairwise (IsPanelList general.entry.now shape.max_items (shown_rows shape.spec (T.view source.entry.now).rows)) panels.now lists.items) }
    { lists_in_turn(rt, alloc, pieces, source, general, panels, shape) };
    map_pieces(rt, cut, 2, panels, &list)
}

/// The lists of panels, one after the other, the rows of each looked at in this many pieces side by side.
fn lists_in_turn<R: Threads + Sync, T: RowSource + Sync>(
    rt: &R,
    alloc: Global,
    pieces: u32,
    source: &T,
    general: &General,
    panels: &[Panel],
    shape: ListShape,
) -> Result<Vec<PanelList>, NoMemory>
    requires { general.now ≡ general_of (T.view source.now) }
    ensures { IfOk result (λ lists. Pairwise (IsPanelList general.now shape.max_items (shown_rows shape.spec (T.view source.now).rows)) panels.now lists.items) }
{
    let mut lists = Vec::new(alloc);
    for panel in panels {
        lists.push(panel_list(rt, alloc, pieces, source, general, *panel, shape)?)?;
    }
    Ok(lists)
}

/// The list of a panel, whose rows are looked at in this many pieces side by side. Only in a panel with groups have rows children.
fn panel_list<R: Threads + Sync, T: RowSource + Sync>(
    rt: &R,
    alloc: Global,
    pieces: u32,
    source: &T,
    general: &General,
    panel: Panel,
    shape: ListShape,
) -> Result<PanelList, NoMemory>
    requires { general.now ≡ general_of (T.view source.now) }
    ensures { IfOk result (IsPanelList general.now shape.max_items (shown_rows shape.spec (T.view source.now).rows) panel) }
{
    // What is known of the totals is that an item is a part of the whole.
    let _totals = source.totals();
    let panel_items = panel_items(rt, alloc, pieces, source, panel, shape.spec)?;
    if panel.has_groups() {
        let items = all_items(rt, alloc, pieces, source, panel_items)?;
        list_with_groups(alloc, general, items, panel, shape.max_items)
    } else {
        let tops = top_of_many(
            rt,
            alloc,
            pieces,
            source,
            panel_items,
            panel,
            shape.max_items,
        )?;
        plain_list(alloc, general, &tops, panel)
    }
}

/// The list of a panel without groups, of its first items.
pub(crate) fn plain_list(
    alloc: Global,
    general: &General,
    tops: &[RowRef<'_>],
    panel: Panel,
) -> Result<PanelList, NoMemory>
    requires plain { has_groups panel ≡ false }
    requires panel { All (λ top. top.key.panel ≡ panel) tops.now }
    requires parts { All (IsPart general.now) tops.now }
    ensures { IfOk result (λ list. (most : ℕ) (source items : List SourceRow) → AreSummed (panel_rows panel source) items
        → AreFirst (order panel) most items tops.now → IsPanelList general.now most source panel list) }
{
    let rows = plain_rows(alloc, general, tops)?;
    Ok(PanelList { panel, rows })
}

/// The list of a panel with groups.
pub(crate) fn list_with_groups(
    alloc: Global,
    general: &General,
    items: Vec<RowRef<'_>>,
    panel: Panel,
    max_items: u64,
) -> Result<PanelList, NoMemory>
    requires panel { All (λ item. item.key.panel ≡ panel) items.items }
    requires parts { All (IsPart general.now) items.items }
    ensures { IfOk result (λ list. (source : List SourceRow) → AreSummed (panel_rows panel source) items.entry.items
        → IsPanelList general.now max_items source panel list) }
{
    let items = sort_by_group(items);
    let tops = top_groups(alloc, &items, panel, max_items)?;
    let rows = row_list(alloc, general, &items, &tops, max_items)?;
    Ok(PanelList { panel, rows })
}

/// A row for each of the items, of a panel without groups: none has children.
fn plain_rows(alloc: Global, general: &General, tops: &[RowRef<'_>]) -> Result<RowList, NoMemory>
    requires plain { All (λ top. has_groups top.key.panel ≡ false) tops.now }
    requires parts { All (IsPart general.now) tops.now }
    ensures { IfOk result (λ rows. (most : ℕ) (source : List SourceRow)
        → Pairwise (IsRow general.now most source) (map undate tops.now) rows) }
{
    let mut rows = RowList::new(alloc);
    for top in tops {
        let item = shown_as(general, top)?;
        let children = Items::new(alloc);
        rows.push(Row { item, children })?;
    }
    Ok(rows)
}

/// A row for each of the items, with the entries of its group.
fn row_list(
    alloc: Global,
    general: &General,
    items: &[RowRef<'_>],
    tops: &[RowRef<'_>],
    max_items: u64,
) -> Result<RowList, NoMemory>
    requires parts { All (IsPart general.now) items.now }
    requires sorted { IsSorted by_parent items.now }
    requires tops { All (IsPart general.now) tops.now }
    ensures { IfOk result (λ rows. (source : List SourceRow)
        → All (λ top. AreSummed (panel_rows top.key.panel source) items.now) tops.now
        → Pairwise (IsRow general.now max_items source) (map undate tops.now) rows) }
{
    let mut rows = RowList::new(alloc);
    for top in tops {
        let item = shown_as(general, top)?;
        let children = children_of(alloc, general, items, top, max_items)?;
        rows.push(Row { item, children })?;
    }
    Ok(rows)
}

/// The children of a group.
fn children_of(
    alloc: Global,
    general: &General,
    items: &[RowRef<'_>],
    top: &RowRef<'_>,
    max_items: u64,
) -> Result<Items, NoMemory>
    requires parts { All (IsPart general.now) items.now }
    requires sorted { IsSorted by_parent items.now }
    ensures { IfOk result (λ children. (source : List SourceRow) → AreSummed (panel_rows top.now.key.panel source) items.now
        → AreChildren general.now max_items source (undate top.now) children) }
{
    let entries = entries_of(alloc, items, top, max_items)?;
    shown_items(alloc, general, &entries)
}

/// Items as they are shown.
fn shown_items(alloc: Global, general: &General, items: &[RowRef<'_>]) -> Result<Items, NoMemory>
    requires { All (IsPart general.now) items.now }
    ensures { IfOk result (λ shown. shown ≡ map (shown_as general.now) items.now) }
{
    let mut shown = Items::new(alloc);
    for item in items {
        shown.push(shown_as(general, item)?)?;
    }
    Ok(shown)
}

/// An item as it is shown.
fn shown_as(general: &General, item: &RowRef<'_>) -> Result<Item, NoMemory>
    requires { IsPart general.now item.now }
    ensures { IfOk result (λ shown. shown ≡ shown_as general.now item.now) }
{
    let name = item.name();
    let sums = item.sums();
    Ok(Item {
        label: data_of(&name)?,
        method: name.method().clone()?,
        protocol: name.protocol().clone()?,
        hits: sums.hits,
        visitors: item.visitors(),
        bytes: sums.bytes,
        micros: sums.micros,
        max_micros: sums.max_micros,
        hits_percent: hundredths(sums.hits, general.valid_requests),
        visitors_percent: hundredths(item.visitors(), general.unique_visitors),
        bytes_percent: hundredths(sums.bytes, general.bandwidth),
    })
}

/// The data of an item: a group is named by its parent.
fn data_of(name: &ItemName<'_>) -> Result<Text, NoMemory>
    ensures { IfOk result (λ label. label ≡ data_of name.now) }
{
    if name.panel().has_groups() && name.label().bytes().is_empty() {
        Ok(name.parent().clone()?)
    } else {
        Ok(name.label().clone()?)
    }
}
