ghost use Rattle.std.specs.Prelude.{◌≡◌, map};
ghost use Rattle.ga_totals.specs.Steps.Sources.{CanBeSource, source_rows};

use crate::key_panels::sizes_of;
use ga_base::{Panel, Sums, Totals};
use ga_numbers::KeyNumbers;
use ga_report::{RowRef, RowSource};
use std::marker::Model;

/// A total as a source of rows for a report: each of its keys, with its sums and the number of its visitors. It makes no names,
/// and lends keys and sums as they stand.
#[derive(Drop)]
pub struct TotalSource<'a> {
    /// What was counted over all lines.
    totals: Totals,
    /// The keys, each at its number.
    keys: &'a KeyNumbers,
    /// The panel of each key, at its number: a report asks for it for each panel anew.
    panels: Vec<Panel>,
    /// How many keys each panel has, at the panel's number.
    sizes: [u64; Panel::COUNT],
    /// The sums of each key, at its number.
    sums: &'a [Sums],
    /// How many visitors each key has, at its number.
    visits: Vec<u64>,
}

impl<'a> Model for TotalSource<'a> {
    ghost use Rattle.std.specs.Prelude.{◌≡◌, map};
    ghost use Rattle.ga_report.specs.Source.{SourceValue};
    ghost use Rattle.ga_totals.specs.Steps.Sources.{AreSizes, CanBeSource, source_rows};

    ghost Value = { SourceValue };

    ghost view = { λ t. record { totals = t.totals; rows = source_rows t.keys.now t.sums.now t.visits.items } };

    ghost invariant = { λ t. CanBeSource t.keys.now t.sums.now t.visits.items × (t.panels.items ≡ map (λ key. key.panel) t.keys.now)
        × AreSizes t.panels.items t.sizes };
}

impl<'a> TotalSource<'a> {
    /// These totals, and these keys with what is at their numbers.
    pub(crate) fn of(
        totals: Totals,
        keys: &'a KeyNumbers,
        panels: Vec<Panel>,
        sums: &'a [Sums],
        visits: Vec<u64>,
    ) -> TotalSource<'a>
        requires can { CanBeSource keys.now sums.now visits.items }
        requires panels { panels.items ≡ map (λ key. key.panel) keys.now }
        ensures { result ≡ record { totals = totals; rows = source_rows keys.now sums.now visits.items } }
    {
        let sizes = sizes_of(&panels);
        TotalSource {
            totals,
            keys,
            panels,
            sizes,
            sums,
            visits,
        }
    }
}

impl<'a> RowSource for TotalSource<'a> {
    ghost view = { λ source. source };

    fn totals(&self) -> Totals {
        self.totals
    }

    fn len(&self) -> u64 {
        u64::from(self.keys.len())
    }

    fn at_most(&self, panel: Panel) -> u64 {
        self.sizes[panel.number()]
    }

    fn panel(&self, at: u64) -> Panel {
        prove!(at < self.panels.len() as u64);
        self.panels[at as usize]
    }

    fn row(&self, at: u64) -> RowRef<'_> {
        prove!(at < u64::from(self.keys.len()));
        let key = self.keys.get(at as u32);
        let number = at as usize;
        RowRef::with(
            key.shared,
            key.date,
            key.label,
            self.sums[number],
            self.visits[number],
        )
    }
}
