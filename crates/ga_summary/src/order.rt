ghost use Rattle.std.specs.Prelude.{◌≡◌};
ghost use Rattle.ga_base.specs.Orders.{key_cmp, name_cmp, name_of};
ghost use Rattle.ga_base.specs.Panels.{is_same_panel};
ghost use Rattle.ga_summary.specs.Steps.Passing.{day_cmp};

use ga_base::laws::{key_order, name_order, panel_order};
use ga_base::{Key, Name, Panel, Visitor};
use std::cmp::Ordering;

/// How two keys are ordered.
pub(crate) fn compare_keys(a: &Key, b: &Key) -> Ordering
    ensures { result ≡ key_cmp a.now b.now }
{
    key_order();
    a.cmp(b)
}

/// How two names are ordered.
pub(crate) fn compare_names(a: &Name, b: &Name) -> Ordering
    ensures { result ≡ name_cmp a.now b.now }
{
    name_order();
    a.cmp(b)
}

/// How a name is ordered beside that of a visitor.
#[tactic(auto, unfolding(ga_base::specs::Orders::name_cmp))]
pub(crate) fn compare_to_visitor(name: &Name, visitor: &Visitor) -> Ordering
    ensures { result ≡ name_cmp name.now (name_of visitor.now) }
{
    match name.host.cmp(&visitor.host) {
        Ordering::Equal => name.agent.cmp(&visitor.agent),
        order => order,
    }
}

/// Whether two panels are one.
pub(crate) fn same_panel(a: Panel, b: Panel) -> bool
    ensures { result ≡ is_same_panel a b }
{
    panel_order();
    a == b
}

/// How a key is ordered beside the key of a day, where it has its form.
pub(crate) fn compare_to_day(key: &Key, date: u32) -> Ordering
    ensures { result ≡ day_cmp key.now date }
{
    let panel = key.panel.number().cmp(&Panel::Visitors.number());
    panel
        .then(key.date.cmp(&date))
        .then(key.parent.as_str().cmp(""))
}
