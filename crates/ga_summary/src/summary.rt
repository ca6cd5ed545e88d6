ghost use Rattle.std.specs.Prelude.{◌≡◌, ◌<◌, ◌≤◌, slice_get, ◌+◌, ◌↔◌, ℕ, List, length, [], ◌∷◌, ◌++◌, Some, OnOk, OnErr, IfOk, IsErrOf};
ghost use Rattle.ga_base.specs.declared.counts.Counter.{Counter as TheCounter};
ghost use Rattle.ga_summary.specs.Steps.Joined.{merged_value};
ghost use Rattle.ga_summary.specs.LastDays.{trimmed};
ghost use Rattle.ga_summary.specs.Limits.{passes};
ghost use Rattle.std.specs.Option.{option_copied};
ghost use Rattle.ga_summary.specs.OneLine.{line_value, record_totals};
ghost use Rattle.ga_summary.specs.Outcomes.{Outcome, Counted, hit_of, lines_of};
ghost use Rattle.ga_summary.specs.SummaryParts.{IsFirstBad, value_of};
ghost use Rattle.ga_summary.specs.SummaryRows.{SummaryValue, amounts_at, has_pair};
ghost use Rattle.ga_base.specs.Totals.{totals_plus, TotalsFit};
ghost use Rattle.ga_summary.specs.Sound.{IsSummary, IsCountable};
ghost use Rattle.ga_summary.specs.Sums.{IsSumOf, IsMerged};

use crate::entries::{copy_all, entries_of, entry_of, place_all};
use crate::entry::Entry;
use crate::first_bad::first_bad;
use crate::joining::join_entries;
use crate::limits::add_totals;
use crate::names::holds_visitor;
use crate::one_line::{line_entries, sums_of_record, totals_of_record};
use crate::room::reserve;
use crate::trim::keep_last;
use crate::{MergeFault, NotSound, RowView, SummaryParts};
use ga_base::{Amounts, Key, Keys, LIMIT, NoMemory, Record, Totals, Visitor};
use std::alloc::{AllocError, Global};
use std::marker::Model;

/// What was counted of the lines of a log: totals over all lines, and for each key its sums and visitors.
///
/// The entries rise by their keys, and the names of each entry rise. All entries are closed.
#[derive(Debug, Drop)]
pub struct Summary {
    totals: Totals,
    entries: Vec<Box<Entry>>,
}

impl Model for Summary {
    ghost use Rattle.ga_summary.specs.SummaryRows.{SummaryValue};

    ghost Value = { SummaryValue };

    ghost use Rattle.ga_summary.specs.Steps.Entries.{AllClosed, rows_of};
    ghost use Rattle.ga_summary.specs.Sound.{IsSummary};

    ghost view = { λ s. record { totals = s.totals; rows = rows_of s.entries.items } };

    ghost invariant = { λ s. IsSummary (record { totals = s.totals; rows = rows_of s.entries.items }) × AllClosed s.entries.items };
}

impl Clone for Summary {
    ghost is_clone = { λ s t. t ≡ s };

    fn clone(&self) -> Result<Summary, AllocError> {
        Ok(Summary {
            totals: self.totals,
            entries: copy_all(*self.entries.allocator(), &self.entries)?,
        })
    }
}

impl Summary {
    /// The summary of no lines, which takes no memory.
    pub fn empty(alloc: Global) -> Summary
        ensures { IsSumOf [] result }
    {
        Summary::of_lines(alloc, 0, 0)
    }

    /// The summary of lines of which none is counted, which takes no memory.
    pub fn of_lines(alloc: Global, failed: u64, excluded: u64) -> Summary
        requires { failed + excluded ≤ LIMIT }
        ensures { IsSumOf (lines_of failed excluded) result }
    {
        Summary {
            totals: Totals {
                lines: failed + excluded,
                failed,
                excluded,
                ..Totals::ZERO
            },
            entries: Vec::new(alloc),
        }
    }

    /// The summary that has these parts, which has to be sound, with rows and names that rise.
    ///
    /// It takes the time of one sorting pass over the rows. Lack of memory comes of good parts alone.
    pub fn from_parts(parts: SummaryParts) -> Result<Summary, NotSound>
        ensures ok { IfOk result (λ s. s ≡ value_of parts) }

        // The first place where the parts break is reported, and nothing else is.
        ensures bad { (at : ℕ) → IsErrOf result (NotSound.NotSound at) ↔ IsFirstBad (value_of parts) at }
        ensures memory { IsErrOf result NotSound.NoMemory → IsSummary (value_of parts) }
    {
        let SummaryParts { totals, rows } = parts;
        if let Some(at) = first_bad(totals, rows.items()) {
            return Err(NotSound::NotSound { at });
        }
        Ok(Summary {
            totals,
            entries: entries_of(rows.into_vec())?,
        })
    }

    /// The summary that has these parts, which are those of one. As `from_parts`, without its tests.
    pub fn of_parts(parts: SummaryParts) -> Result<Summary, NoMemory>
        requires { IsSummary (value_of parts) }
        ensures { IfOk result (λ s. s ≡ value_of parts) }
    {
        let SummaryParts { totals, rows } = parts;
        Ok(Summary {
            totals,
            entries: entries_of(rows.into_vec())?,
        })
    }

    /// The totals over all lines.
    pub fn totals(&self) -> Totals
        ensures totals { result ≡ self.now.totals }
        ensures sound { IsSummary self.now }
    {
        self.totals
    }

    /// The number of keys.
    pub fn len(&self) -> u64
        ensures { result ≡ length self.now.rows }
    {
        self.entries.len() as u64
    }

    /// What is counted under a key, or None where the key isn't there.
    pub fn amounts_of(&self, key: &Key) -> Option<Amounts>
        ensures { result ≡ amounts_at self.now.rows key.now }
    {
        match entry_of(&self.entries, key) {
            Some(entry) => Some(entry.amounts()),
            None => None,
        }
    }

    /// Whether a key has a visitor.
    pub fn has_pair(&self, key: &Key, visitor: &Visitor) -> bool
        ensures { result ≡ has_pair self.now.rows key.now visitor.now }
    {
        match entry_of(&self.entries, key) {
            Some(entry) => visitor.date == key.date && holds_visitor(entry.names(), visitor),
            None => false,
        }
    }

    /// The row at a place, from 0, where keys rise.
    pub fn row(&self, at: u64) -> RowView<'_>
        requires { at < length self.now.rows }
        ensures { slice_get self.now.rows at ≡ Some (record { key = result.key.now; sums = result.sums; names = result.names.now }) }
    {
        let entry: &Entry = &self.entries[at as usize];
        RowView {
            key: &entry.key,
            sums: entry.sums,
            names: &entry.names,
        }
    }

    /// A summary equal to this one, as `clone` gives it.
    pub fn copy(&self) -> Result<Summary, NoMemory>
        ensures { IfOk result (λ s. s ≡ self.now) }
    {
        Ok(self.clone()?)
    }

    /// Adds what another summary has. After an `Err` this one is as it was.
    pub fn merge(&mut self, other: &Summary) -> Result<(), MergeFault>
        ensures merged { OnOk result (IsMerged self.old other.now self.new) }
        ensures sum { OnOk result ((xs ys : List Outcome) → IsSumOf xs self.old → IsSumOf ys other.now
            → IsSumOf (xs ++ ys) self.new) }

        // The first of lines, bytes and micros that would pass the limit is reported, and nothing else is.
        ensures full { (which : TheCounter) (total : ℕ) → IsErrOf result (MergeFault.CounterFull which total)
            ↔ (passes (totals_plus self.old.totals other.now.totals) ≡ Some (which, total)) }
        ensures unchanged { OnErr result (self.new ≡ self.old) }
    {
        let totals = add_totals(self.totals, other.totals)?;
        let more = other.copy()?;
        self.absorb(totals, more)?;
        Ok(())
    }

    /// The summary of what this one and another have, made of their parts.
    ///
    /// Nothing is copied, and room for visitors is made at one key after the other. After an `Err` both are gone.
    pub fn join(self, other: Summary) -> Result<Summary, MergeFault>
        ensures merged { IfOk result (λ s. IsMerged self other s) }
        ensures sum { IfOk result (λ s. (xs ys : List Outcome) → IsSumOf xs self → IsSumOf ys other → IsSumOf (xs ++ ys) s) }

        // The first of lines, bytes and micros that would pass the limit is reported, and nothing else is.
        ensures full { (which : TheCounter) (total : ℕ) → IsErrOf result (MergeFault.CounterFull which total)
            ↔ (passes (totals_plus self.totals other.totals) ≡ Some (which, total)) }
    {
        let totals = add_totals(self.totals, other.totals)?;
        Ok(self.join_fitting(totals, other)?)
    }

    /// Counts a record under its keys, for its visitor if it has one. After an `Err` the summary is as it was.
    ///
    /// This is for a record at a time: what a new key or visitor costs grows with the number of those that are there.
    pub fn add(
        &mut self,
        keys: &Keys,
        visitor: Option<&Visitor>,
        rec: &Record,
    ) -> Result<(), MergeFault>
        requires { IsCountable rec.now.date (hit_of keys.now (option_copied visitor) rec.now) }

        // A summary that is the sum of outcomes becomes the sum of them and this one.
        ensures sum { OnOk result ((outcomes : List Outcome) → IsSumOf outcomes self.old
            → IsSumOf (outcomes ++ Counted (hit_of keys.now (option_copied visitor.entry) rec.now) ∷ []) self.new) }
        ensures merged { OnOk result ((one : SummaryValue)
            → IsSumOf (Counted (hit_of keys.now (option_copied visitor.entry) rec.now) ∷ []) one → IsMerged self.old one self.new) }

        // The first of lines, bytes and micros that would pass the limit is reported, and nothing else is.
        ensures full { (which : TheCounter) (total : ℕ) → IsErrOf result (MergeFault.CounterFull which total)
            ↔ (passes (totals_plus self.old.totals (record_totals rec.now)) ≡ Some (which, total)) }
        ensures unchanged { OnErr result (self.new ≡ self.old) }
    {
        let totals = add_totals(self.totals, totals_of_record(rec))?;
        let one = Summary::of_record(*self.entries.allocator(), keys.items(), visitor, rec)?;
        self.absorb(totals, one)?;
        Ok(())
    }

    /// The summary of one counted record.
    fn of_record(
        alloc: Global,
        keys: &[Key],
        visitor: Option<&Visitor>,
        rec: &Record,
    ) -> Result<Summary, NoMemory>
        requires { IsCountable rec.now.date (hit_of keys.now (option_copied visitor) rec.now) }
        ensures { IfOk result (λ s. s ≡ line_value (hit_of keys.now (option_copied visitor.entry) rec.now)) }
    {
        Ok(Summary {
            totals: totals_of_record(rec),
            entries: line_entries(alloc, keys, visitor, sums_of_record(rec))?,
        })
    }

    /// Keeps the keys of the last days alone, this many of those that it has, or all where this is 0. The totals stay, and no
    /// memory is taken.
    pub fn trim(&mut self, keep: u32)
        ensures { self.new ≡ trimmed keep self.old }
    {
        keep_last(&mut self.entries, keep);
    }

    /// Takes in what another summary has, where the totals of both are known and fit.
    fn absorb(&mut self, totals: Totals, other: Summary) -> Result<(), NoMemory>
        requires totals { totals ≡ totals_plus self.old.totals other.totals }
        requires fit { TotalsFit totals }
        ensures merged { OnOk result (self.new ≡ merged_value self.old other) }
        ensures unchanged { OnErr result (self.new ≡ self.old) }
    {
        let more = other.entries;
        let room = reserve(&mut self.entries, &more)?;
        place_all(&mut self.entries, more, room);
        self.totals = totals;
        Ok(())
    }

    /// The summary of both, where the totals of both are known and fit.
    fn join_fitting(self, totals: Totals, other: Summary) -> Result<Summary, NoMemory>
        requires totals { totals ≡ totals_plus self.totals other.totals }
        requires fit { TotalsFit totals }
        ensures { IfOk result (λ s. s ≡ merged_value self other) }
    {
        let alloc = *self.entries.allocator();
        let room = Vec::with_capacity(alloc, self.entries.len() + other.entries.len())?;
        Ok(Summary {
            totals,
            entries: join_entries(self.entries, other.entries, room)?,
        })
    }
}
