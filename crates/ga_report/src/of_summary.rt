ghost use Rattle.std.specs.Prelude.{◌≡◌, IfOk, length, map};
ghost use Rattle.ga_report.specs.Items.{shown_rows};
ghost use Rattle.ga_report.specs.OfSummary.{source_value};
ghost use Rattle.ga_report.specs.Printable.{IsPrintable};
ghost use Rattle.ga_report.specs.Reports.{IsPanelList, IsReport, Pairwise, general_of};
ghost use Rattle.ga_report.specs.Steps.Summed.{AreSummed, panel_rows};

use crate::arranging::top_items;
use crate::panel_items::sum_in_turn;
use crate::panel_places::shown_places;
use crate::reporting::{general_of, list_with_groups, plain_list, shown_panels};
use crate::row_index::indexes_in_turn;
use crate::{General, PanelList, PanelLists, Report, RowRef, RowSource};
use ga_base::{DateSpec, NoMemory, Panel, PanelSet, Totals};
use ga_summary::Summary;
use std::alloc::Global;

impl RowSource for Summary {
    ghost use Rattle.ga_report.specs.OfSummary.{source_value};

    ghost view = { source_value };

    fn totals(&self) -> Totals {
        self.totals()
    }

    fn len(&self) -> u64 {
        self.len()
    }

    fn at_most(&self, _panel: Panel) -> u64 {
        self.len()
    }

    fn panel(&self, at: u64) -> Panel {
        self.row(at).key.panel
    }

    fn row(&self, at: u64) -> RowRef<'_> {
        let row = self.row(at);
        RowRef::of(row.key, row.sums, row.names.items().len() as u64)
    }
}

/// The report of a summary, with the panels of a set, and with days or parts of days in VISITORS. Of each list of rows, and of
/// each row's children, the first `max_items` are shown. It is `rows_from` without threads, by the shortest way: each row is
/// looked up by the name of its item, and the items of each panel are sorted.
pub fn rows(
    alloc: Global,
    summary: &Summary,
    panels: &PanelSet,
    max_items: u64,
    spec: DateSpec,
) -> Result<Report, NoMemory>
    ensures report { IfOk result (IsReport (source_value summary.now) panels.now max_items spec) }
    ensures printable { IfOk result IsPrintable }
{
    // What is known of the totals is that each key has a hit.
    let _totals = RowSource::totals(summary);
    let general = general_of(alloc, summary)?;
    let shown = shown_panels(alloc, panels)?;
    let panels = panel_lists(alloc, summary, &general, &shown, max_items, spec)?;
    Ok(Report { general, panels })
}

/// The lists of panels.
fn panel_lists(
    alloc: Global,
    summary: &Summary,
    general: &General,
    panels: &[Panel],
    max_items: u64,
    spec: DateSpec,
) -> Result<PanelLists, NoMemory>
    requires { general.now ≡ general_of (source_value summary.now) }
    ensures { IfOk result (Pairwise (IsPanelList general.now max_items (shown_rows spec (source_value summary.now).rows)) panels.now) }
{
    let mut lists = PanelLists::new(alloc);
    for panel in panels {
        lists.push(panel_list(alloc, summary, general, *panel, max_items, spec)?)?;
    }
    Ok(lists)
}

/// The list of a panel.
fn panel_list(
    alloc: Global,
    summary: &Summary,
    general: &General,
    panel: Panel,
    max_items: u64,
    spec: DateSpec,
) -> Result<PanelList, NoMemory>
    requires { general.now ≡ general_of (source_value summary.now) }
    ensures { IfOk result (IsPanelList general.now max_items (shown_rows spec (source_value summary.now).rows) panel) }
{
    // What is known of the totals is that an item is a part of the whole.
    let _totals = RowSource::totals(summary);
    let items = items_of(alloc, summary, panel, spec)?;
    if panel.has_groups() {
        return list_with_groups(alloc, general, items, panel, max_items);
    }
    let tops = top_items(alloc, items, panel, max_items)?;
    plain_list(alloc, general, &tops, panel)
}

/// The items of a panel, in any order.
fn items_of(
    alloc: Global,
    summary: &Summary,
    panel: Panel,
    spec: DateSpec,
) -> Result<Vec<RowRef<'_>>, NoMemory>
    ensures { IfOk result (λ items. AreSummed (panel_rows panel (shown_rows spec (source_value summary.now).rows)) items.items) }
{
    // What is known of the totals is that the rows' sums fit.
    let _totals = RowSource::totals(summary);
    let places = shown_places(alloc, summary, panel, spec)?;
    let indexes = indexes_in_turn(alloc, summary, &places)?;
    sum_in_turn(alloc, summary, &indexes)
}
