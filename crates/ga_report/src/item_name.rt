ghost use Rattle.std.specs.Prelude.{◌≡◌, IfOk};
ghost use Rattle.std.proofs.Common.{ap};
ghost use Rattle.std.specs.Cmp.{partial_equiv_from_equiv};
ghost use Rattle.std.proofs.lemmas.Cmp.{eq_by_cmp_equiv};
ghost use Rattle.ga_base.specs.Orders.{is_same_key, key_cmp};
ghost use Rattle.ga_base.proofs.OrderLemmas.{key_cmp_exact, key_cmp_total};
ghost use Rattle.ga_report.specs.Items.{undated};
ghost use Rattle.ga_report.specs.Steps.Summed.{fed_name};
ghost use Rattle.ga_summary.proofs.Put.{equal_from_is_eq};

use ga_base::laws::panel_order;
use ga_base::{Key, NoMemory, Noted, Panel, Text};
use std::cmp::Ordering;
use std::hash::{Hash, Hasher};
use std::marker::Model;

/// What keys that differ in their day alone have in common, lent in parts. Contracts see the key without its day.
#[derive(Drop)]
pub(crate) struct ItemName<'a> {
    /// A key that has the panel, the parent, the method and the protocol.
    shared: &'a Key,
    /// The label.
    label: &'a Text,
}

impl<'a> Model for ItemName<'a> {
    ghost use Rattle.ga_base.specs.declared.key.Key.{Key};
    ghost use Rattle.ga_report.specs.Items.{undated};

    ghost Value = { Key };

    ghost view = { λ n. undated (record n.shared.now { label = n.label.now }) };
}

impl<'a> ItemName<'a> {
    /// The name of these parts.
    pub(crate) fn of(shared: &'a Key, label: &'a Text) -> ItemName<'a>
        ensures { result ≡ undated (record shared.now { label = label.now }) }
    {
        ItemName { shared, label }
    }

    /// The panel.
    pub(crate) fn panel(&self) -> Panel
        ensures { result ≡ self.now.panel }
    {
        self.shared.panel
    }

    /// The group in a panel with groups.
    pub(crate) fn parent(&self) -> &'a Text
        ensures { result.now ≡ self.now.parent }
    {
        &self.shared.parent
    }

    /// The data of an entry; empty for a group.
    pub(crate) fn label(&self) -> &'a Text
        ensures { result.now ≡ self.now.label }
    {
        self.label
    }

    /// The method in a panel of requests.
    pub(crate) fn method(&self) -> &'a Text
        ensures { result.now ≡ self.now.method }
    {
        &self.shared.method
    }

    /// The protocol in a panel of requests.
    pub(crate) fn protocol(&self) -> &'a Text
        ensures { result.now ≡ self.now.protocol }
    {
        &self.shared.protocol
    }
}

impl<'a> PartialEq for ItemName<'a> {
    ghost eq = { is_same_key };

    ghost laws = { partial_equiv_from_equiv (eq_by_cmp_equiv key_cmp_total) };

    fn eq(&self, other: &ItemName<'a>) -> bool {
        item_order(self, other).is_eq()
    }
}

impl<'a> Eq for ItemName<'a> {
    ghost laws = { eq_by_cmp_equiv key_cmp_total };
}

impl<'a> Hash for ItemName<'a> {
    ghost hash_input = { fed_name };

    ghost respects_eq = { λ a b e. ap fed_name (key_cmp_exact a b (equal_from_is_eq _ e)) };

    /// Of a panel's items few share both label and parent.
    fn hash<H: Hasher>(&self, state: &mut H) {
        self.label().hash(state);
        self.parent().hash(state);
    }
}

impl<'a> Noted for ItemName<'a> {
    fn copy(&self) -> Result<ItemName<'a>, NoMemory> {
        Ok(ItemName::of(self.shared, self.label))
    }
}

/// How two items stand to each other.
#[tactic(auto, unfolding(ga_base::specs::Orders::key_cmp))]
pub(crate) fn item_order(a: &ItemName<'_>, b: &ItemName<'_>) -> Ordering
    ensures { result ≡ key_cmp a.now b.now }
{
    panel_order();
    a.shared
        .panel
        .cmp(&b.shared.panel)
        .then_with(|| a.shared.parent.cmp(&b.shared.parent))
        .then_with(|| a.label.cmp(b.label))
        .then_with(|| a.shared.method.cmp(&b.shared.method))
        .then_with(|| a.shared.protocol.cmp(&b.shared.protocol))
}
