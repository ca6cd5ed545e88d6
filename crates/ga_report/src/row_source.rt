ghost use Rattle.std.specs.Prelude.{◌≡◌, ◌<◌, ◌≤◌, count_by, length, slice_get, IfSome, Some};
ghost use Rattle.ga_base.specs.Panels.{is_same_panel};
ghost use Rattle.ga_report.specs.Items.{is_as_fine, undated};
ghost use Rattle.ga_report.specs.SoundRows.{AreSound};
ghost use Rattle.ga_report.specs.Steps.Summed.{plus, FitTogether};
ghost use Rattle.ga_report.specs.Source.{SourceValue};

use crate::item_name::ItemName;
use ga_base::{DateSpec, Key, Panel, Sums, Text, Totals};
use std::marker::Model;

/// The digits of a day and an hour.
const HOUR_LEN: usize = 10;

/// The digits of a day, an hour and a minute.
const MINUTE_LEN: usize = 12;

/// Where the rows of a report come from: totals over all lines, and a row for each key, in any order.
pub trait RowSource {
    ghost view: { Self → SourceValue };

    /// The totals over all lines.
    fn totals(&self) -> Totals
        ensures totals { result ≡ (view self.now).totals }
        ensures sound { AreSound (view self.now).rows };

    /// The number of rows.
    fn len(&self) -> u64
        ensures { result ≡ length (view self.now).rows };

    /// This many rows of a panel there are at most. Where this many are seen, a report looks for no more of them.
    fn at_most(&self, panel: Panel) -> u64
        ensures { count_by (λ row. is_same_panel row.key.panel panel) (view self.now).rows ≤ result };

    /// The panel of the row at a place. A report looks at it once for each panel, and takes the rows of that panel alone.
    fn panel(&self, at: u64) -> Panel
        requires { at < length (view self.now).rows }
        ensures { IfSome (slice_get (view self.now).rows at) (λ row. result ≡ row.key.panel) };

    /// The row at a place, from 0.
    fn row(&self, at: u64) -> RowRef<'_>
        requires { at < length (view self.now).rows }
        ensures { slice_get (view self.now).rows at ≡ Some result };
}

/// What was counted under a key, or under all keys of an item: its sums and the number of its visitors. The key is lent in
/// parts.
#[derive(Debug, Drop)]
pub struct RowRef<'a> {
    /// A key that has all but the day and the label.
    shared: &'a Key,
    /// The day.
    date: u32,
    /// The label.
    label: &'a Text,
    sums: Sums,
    visitors: u64,
}

impl<'a> Model for RowRef<'a> {
    ghost use Rattle.ga_report.specs.Source.{SourceRow};

    ghost Value = { SourceRow };

    ghost view = { λ t. record {
      key = record t.shared.now { date = t.date; label = t.label.now };
      sums = t.sums;
      visitors = t.visitors;
    } };
}

impl<'a> RowRef<'a> {
    /// The row of a key.
    pub fn of(key: &'a Key, sums: Sums, visitors: u64) -> RowRef<'a>
        ensures { result ≡ record { key = key.now; sums = sums; visitors = visitors } }
    {
        RowRef::with(key, key.date, &key.label, sums, visitors)
    }

    /// The row of a key with this day and this label, whose other parts are those of the key that is lent.
    pub fn with(
        shared: &'a Key,
        date: u32,
        label: &'a Text,
        sums: Sums,
        visitors: u64,
    ) -> RowRef<'a>
        ensures { result ≡ record {
          key = record shared.now { date = date; label = label.now };
          sums = sums;
          visitors = visitors;
        } }
    {
        RowRef {
            shared,
            date,
            label,
            sums,
            visitors,
        }
    }

    /// What the item is called: the key without its day.
    pub(crate) fn name(&self) -> ItemName<'a>
        ensures { result ≡ undated self.now.key }
    {
        ItemName::of(self.shared, self.label)
    }

    /// Whether its key, one of VISITORS, is as fine as this.
    pub(crate) fn is_as_fine(&self, spec: DateSpec) -> bool
        ensures { result ≡ is_as_fine spec self.now.key }
    {
        let has_parent = !self.shared.parent.bytes().is_empty();
        match spec {
            DateSpec::Date => !has_parent,
            DateSpec::Hour => has_parent && self.label.bytes().len() == HOUR_LEN,
            DateSpec::Minute => has_parent && self.label.bytes().len() == MINUTE_LEN,
        }
    }

    /// The day of its key.
    pub(crate) fn date(&self) -> u32
        ensures { result ≡ self.now.key.date }
    {
        self.date
    }

    /// The label.
    pub(crate) fn label(&self) -> &'a Text
        ensures { result.now ≡ self.now.key.label }
    {
        self.label
    }

    /// The sums.
    pub(crate) fn sums(&self) -> Sums
        ensures { result ≡ self.now.sums }
    {
        self.sums
    }

    /// The number of visitors.
    pub(crate) fn visitors(&self) -> u64
        ensures { result ≡ self.now.visitors }
    {
        self.visitors
    }

    /// The same row.
    pub(crate) fn copy(&self) -> RowRef<'a>
        ensures { result ≡ self.now }
    {
        RowRef {
            shared: self.shared,
            date: self.date,
            label: self.label,
            sums: self.sums,
            visitors: self.visitors,
        }
    }

    /// Adds a row of the same item.
    pub(crate) fn add(&mut self, more: &RowRef<'_>)
        requires { FitTogether self.old more.now }
        ensures { self.new ≡ plus self.old more.now }
    {
        self.sums.hits += more.sums.hits;
        self.sums.bytes += more.sums.bytes;
        self.sums.micros += more.sums.micros;
        self.sums.max_micros = self.sums.max_micros.max(more.sums.max_micros);
        self.visitors += more.visitors;
    }
}
