ghost use Rattle.std.specs.Prelude.{◌≡◌, true, false, replicate, slice_set};
ghost use Rattle.ga_base.specs.Panels.{has_panel, is_same_panel, panel_number};
ghost use Rattle.ga_base.specs.declared.panel.Panel.{Panel as ThePanel};

use crate::Panel;
use std::marker::Model;

/// A set of panels. Contracts see a flag for each panel, in the panels' order.
#[derive(Clone, Copy, Debug, PartialEq, Eq)]
pub struct PanelSet {
    /// Whether the panel of each number is in the set.
    flags: [bool; Panel::COUNT],
}

impl Model for PanelSet {
    ghost use Rattle.std.specs.Prelude.{◌≡◌, Bool, List, length};
    ghost use Rattle.ga_base.specs.declared.panel.TheConstants.Panel.{COUNT};

    ghost Value = { List Bool };

    ghost view = { λ s. s.flags };

    ghost invariant = { λ s. length s.flags ≡ COUNT };

    ghost inverse = { λ flags. record { flags = flags } };
}

impl PanelSet {
    /// All panels.
    pub fn all() -> PanelSet
        ensures flags { result ≡ replicate Panel.COUNT true }
        ensures panels { (panel : ThePanel) → has_panel result panel ≡ true }
    {
        PanelSet {
            flags: [true; Panel::COUNT],
        }
    }

    /// No panel.
    pub fn none() -> PanelSet
        ensures flags { result ≡ replicate Panel.COUNT false }
        ensures panels { (panel : ThePanel) → has_panel result panel ≡ false }
    {
        PanelSet {
            flags: [false; Panel::COUNT],
        }
    }

    /// Puts a panel in, where `on`, or takes it out. The others stay as they are.
    pub fn set(&mut self, panel: Panel, on: bool)
        ensures flags { self.new ≡ slice_set self.old (panel_number panel) on }
        ensures panel { has_panel self.new panel ≡ on }
        ensures others { (other : ThePanel) → is_same_panel other panel ≡ false → has_panel self.new other ≡ has_panel self.old other }
    {
        self.flags[panel.number()] = on;
    }

    /// Whether a panel is in.
    pub fn has(&self, panel: Panel) -> bool
        ensures { result ≡ has_panel self.now panel }
    {
        self.flags[panel.number()]
    }
}
