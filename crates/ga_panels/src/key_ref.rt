ghost use Rattle.std.specs.Prelude.{◌≡◌, ◌∷◌, [], IfOk, MatchOption};
ghost use Rattle.ga_panels.specs.Refs.{key_of};
ghost use Rattle.ga_panels.specs.Table.{group_keys};

use ga_base::{Key, NoMemory, Panel, Text};
use std::alloc::Global;

/// What a line is counted under, as `Key` says it, with texts that are borrowed.
#[derive(Clone, Copy, Debug, PartialEq, Eq)]
pub struct KeyRef<'a> {
    /// The panel.
    pub panel: Panel,
    /// The day, `10000 * year + 100 * month + day`.
    pub date: u32,
    /// The group in a panel with groups, the day's digits for a part of a day, else empty.
    pub parent: &'a str,
    /// The entry's data, as the host; empty for a group itself.
    pub label: &'a str,
    /// The method in a panel of requests, else empty.
    pub method: &'a str,
    /// The protocol in a panel of requests, else empty.
    pub protocol: &'a str,
}

impl<'a> KeyRef<'a> {
    /// The key that a record has beside this one: that of the group that the entry stands in, which has no data, or of the day
    /// that this is a part of. `None` where there is none.
    #[tactic(auto, unfolding(ga_base::specs::Panels::is_same_panel))]
    pub fn group(self) -> Option<KeyRef<'a>>
        ensures { MatchOption result
            (group_keys (key_of self.entry) self.entry.parent.now ≡ [])
            (λ group. group_keys (key_of self.entry) self.entry.parent.now ≡ key_of group ∷ []) }
    {
        if self.parent.is_empty() {
            return None;
        }
        if self.panel == Panel::Visitors {
            return Some(KeyRef {
                parent: "",
                label: self.parent,
                method: "",
                protocol: "",
                ..self
            });
        }
        Some(KeyRef {
            label: "",
            method: "",
            protocol: "",
            ..self
        })
    }

    /// The same key in texts of its own.
    pub fn to_key(self, alloc: Global) -> Result<Key, NoMemory>
        ensures { IfOk result (λ key. key ≡ key_of self.entry) }
    {
        Ok(Key {
            panel: self.panel,
            date: self.date,
            parent: Text::of(alloc, self.parent)?,
            label: Text::of(alloc, self.label)?,
            method: Text::of(alloc, self.method)?,
            protocol: Text::of(alloc, self.protocol)?,
        })
    }
}
