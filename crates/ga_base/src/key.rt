ghost use Rattle.std.specs.Prelude.{◌≡◌};
ghost use Rattle.ga_base.specs.Layers.{is_day};

use crate::{Listing, Panel, Text};

/// What lines are counted under: a panel's entry on a day.
///
/// Keys are ordered by their fields, in this order.
#[derive(Debug, PartialEq, Eq, PartialOrd, Ord, Hash, Clone, Drop)]
pub struct Key {
    /// The panel.
    pub panel: Panel,
    /// The day, `10000 * year + 100 * month + day`.
    pub date: u32,
    /// The group in a panel with groups, the day's digits for a part of a day, else empty.
    pub parent: Text,
    /// The entry's data, as the host; empty for a group itself.
    pub label: Text,
    /// The method in a panel of requests, else empty.
    pub method: Text,
    /// The protocol in a panel of requests, else empty.
    pub protocol: Text,
}

impl Key {
    /// Whether it is a day's key in VISITORS, and not that of a part of a day or of another panel.
    #[tactic(auto, unfolding(crate::specs::Panels::is_same_panel))]
    pub fn is_day(&self) -> bool
        ensures { result ≡ is_day self.now }
    {
        self.panel == Panel::Visitors && self.parent.bytes().is_empty()
    }
}

/// A list of keys.
pub type Keys = Listing<Key>;

/// Requests with the same host, date and agent are one visitor.
#[derive(Debug, PartialEq, Eq, PartialOrd, Ord, Hash, Clone, Drop)]
pub struct Visitor {
    /// The client's address.
    pub host: Text,
    /// The day, `10000 * year + 100 * month + day`.
    pub date: u32,
    /// The user agent.
    pub agent: Text,
}
