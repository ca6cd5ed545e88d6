ghost use Rattle.std.specs.Prelude.{◌≡◌, MatchOption};
ghost use Rattle.ga_summary.specs.Steps.Loads.{LoadWithin};
ghost use Rattle.ga_summary.specs.Steps.Passing.{begun, reached, layer_plus, with_load};

use crate::load::Load;
use crate::order::same_panel;
use ga_base::{Key, Panel};

/// What two layers of a panel on a day sum to, in the rows passed so far, which rise: of the keys without a parent, which stand
/// first, or of those with one. Of panels, days and parents that lie after nothing is kept.
#[derive(Clone, Copy, Debug)]
pub(crate) struct LayerSums {
    panel: Panel,
    date: u32,
    /// Whether the keys have no parent.
    no_parent: bool,
    /// The layer of those whose label is empty, as groups have it.
    groups: Load,
    /// The layer of the others.
    entries: Load,
}

impl LayerSums {
    /// The sums before the first row.
    pub(crate) fn begin() -> LayerSums
        ensures { result ≡ begun }
    {
        LayerSums {
            panel: Panel::Visitors,
            date: 0,
            no_parent: true,
            groups: Load::NONE,
            entries: Load::NONE,
        }
    }

    /// The sums of a key's layers: none so far, where it is the first of them.
    fn reach(self, key: &Key) -> LayerSums
        ensures { result ≡ reached self key.now }
    {
        let no_parent = key.parent.bytes().is_empty();
        if same_panel(self.panel, key.panel)
            && self.date == key.date
            && self.no_parent == no_parent
        {
            return self;
        }
        LayerSums {
            panel: key.panel,
            date: key.date,
            no_parent,
            groups: Load::NONE,
            entries: Load::NONE,
        }
    }

    /// The sums with a row of the key added in its layer, or None where that is above the most that is allowed.
    pub(crate) fn add(self, key: &Key, more: Load, most: Load) -> Option<LayerSums>
        ensures { MatchOption result (¬ LoadWithin (layer_plus self key.now more) most)
            (λ sums. (sums ≡ with_load self key.now more) × LoadWithin (layer_plus self key.now more) most) }
    {
        let sums = self.reach(key);
        if key.label.bytes().is_empty() {
            Some(LayerSums {
                groups: sums.groups.add(more, most)?,
                ..sums
            })
        } else {
            Some(LayerSums {
                entries: sums.entries.add(more, most)?,
                ..sums
            })
        }
    }
}
