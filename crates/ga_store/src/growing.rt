ghost use Rattle.std.specs.Prelude.{◌≡◌, ◌↔◌, ◌<◌, None, IfOk, IfSome, IsTrue, OnOk};
ghost use Rattle.ga_base.specs.Totals.{LinesAdd, TotalsFit, totals_plus};
ghost use Rattle.ga_summary.specs.Limits.{passes};
ghost use Rattle.ga_summary.specs.Steps.Joined.{merged_value};
ghost use Rattle.ga_summary.specs.SummaryRows.{IsInOrder};
ghost use Rattle.ga_summary.specs.Sums.{IsMerged};
ghost use Rattle.ga_codec.specs.Values.{delta_value};
ghost use Rattle.ga_store.specs.Database.{with_last_days};
ghost use Rattle.ga_store.specs.Steps.Records.{IsTogether, TakesDelta};
ghost use Rattle.ga_store.specs.Store.{db_value};

use crate::Db;
use crate::found::RecordPart;
use ga_base::{NoMemory, Totals};
use ga_summary::laws::one_merged;
use ga_summary::{MergeFault, Summary, totals_fit};
use std::alloc::Global;
use std::marker::Model;
use std::mem::replace;

/// What is kept apart is merged into the summary once it has more rows than one of this many parts of the summary.
const PARTS: u64 = 4;

/// A database that takes on run records. What they add is merged together before it is merged into the summary.
#[derive(Debug, Drop)]
pub(crate) struct Growing {
    alloc: Global,
    /// The database; its summary lacks what is kept apart.
    db: Db,
    /// What records added that isn't in the summary yet; None where nothing is.
    apart: Option<Summary>,
}

impl Model for Growing {
    ghost use Rattle.std.specs.Prelude.{IfSome};
    ghost use Rattle.ga_base.specs.Totals.{TotalsFit, totals_plus};
    ghost use Rattle.ga_store.specs.Database.{DbValue};
    ghost use Rattle.ga_store.specs.Steps.Records.{with_apart};
    ghost use Rattle.ga_store.specs.Store.{db_value};

    ghost Value = { DbValue };

    ghost view = { λ g. record (db_value g.db) { summary = with_apart g.db.summary g.apart } };

    ghost invariant = { λ g. IfSome g.apart (λ apart. TotalsFit (totals_plus g.db.summary.totals apart.totals)) };
}

impl Growing {
    /// The database, before it takes on records.
    pub(crate) fn of(alloc: Global, db: Db) -> Growing
        ensures { result ≡ db_value db }
    {
        Growing {
            alloc,
            db,
            apart: None,
        }
    }

    /// The place of the first gate after the records that were taken on.
    pub(crate) fn slot(&self) -> u64
        ensures { result ≡ self.now.slot }
    {
        self.db.slot
    }

    /// Takes on a run record, and answers whether it did: not where its totals pass a limit.
    pub(crate) fn take_on(&mut self, found: RecordPart) -> Result<bool, NoMemory>
        requires few { self.old.records < found.next }
        ensures { IfOk result (TakesDelta self.old self.new (delta_value found.delta) found.next) }
    {
        let RecordPart { delta, next } = found;
        if !self.has_room(&delta.summary) {
            return Ok(false);
        }
        self.add(delta.summary)?;
        self.db.entries = delta.entries;
        self.db.records += 1;
        self.db.slot = next;
        Ok(true)
    }

    /// The database with all records, and of these the last days.
    pub(crate) fn into_db(self) -> Result<Db, NoMemory>
        ensures { IfOk result (λ db. db_value db ≡ with_last_days self) }
    {
        let mut db = self.joined()?;
        db.keep_last_days();
        Ok(db)
    }

    /// The database with all records and all days.
    fn joined(self) -> Result<Db, NoMemory>
        ensures { IfOk result (λ db. db_value db ≡ self) }
    {
        let Growing { mut db, apart, .. } = self;
        if let Some(apart) = apart {
            db.summary = join_fitting(db.summary, apart)?;
        }
        Ok(db)
    }

    /// Whether no counter passes its limit where this is added.
    fn has_room(&self, more: &Summary) -> bool
        ensures { IsTrue result ↔ (passes (totals_plus self.now.summary.totals more.now.totals) ≡ None) }
    {
        totals_fit(self.totals().plus(&more.totals()))
    }

    /// The totals of the database with all records.
    fn totals(&self) -> Totals
        ensures value { result ≡ self.now.summary.totals }
        ensures fit { TotalsFit result }
        ensures lines { LinesAdd result }
    {
        let stored = self.db.summary.totals();
        match &self.apart {
            None => stored,
            Some(apart) => stored.plus(&apart.totals()),
        }
    }

    /// Adds what a run record counted, for which there is room.
    fn add(&mut self, more: Summary) -> Result<(), NoMemory>
        requires room { passes (totals_plus self.old.summary.totals more.totals) ≡ None }
        ensures merged { OnOk result (IsMerged self.old.summary more self.new.summary) }
        ensures others { OnOk result (self.new ≡ record self.old { summary = self.new.summary }) }
    {
        self.keep_apart(more)?;
        self.join_large()?;
        Ok(())
    }

    /// Puts this with what is kept apart.
    fn keep_apart(&mut self, more: Summary) -> Result<(), NoMemory>
        requires room { passes (totals_plus self.old.summary.totals more.totals) ≡ None }
        ensures merged { OnOk result (IsMerged self.old.summary more self.new.summary) }
        ensures others { OnOk result (self.new ≡ record self.old { summary = self.new.summary }) }
    {
        // That the two are in order, for the proof alone.
        let _ = self.db.summary.totals();
        let _ = more.totals();
        let apart = together(self.apart.take(), more)?;
        self.apart = Some(apart);
        Ok(())
    }

    /// Merges what is kept apart into the summary, once it is large.
    fn join_large(&mut self) -> Result<(), NoMemory>
        ensures { OnOk result (self.new ≡ self.old) }
    {
        if !self.is_large() {
            return Ok(());
        }
        if let Some(apart) = self.apart.take() {
            let none = Summary::empty(self.alloc);
            let stored = replace(&mut self.db.summary, none);
            self.db.summary = join_fitting(stored, apart)?;
        }
        Ok(())
    }

    /// Whether what is kept apart is large beside the summary.
    fn is_large(&self) -> bool {
        match &self.apart {
            None => false,
            Some(apart) => apart.len() > self.db.summary.len() / PARTS,
        }
    }
}

/// What is kept apart, if anything is, with this.
fn together(apart: Option<Summary>, more: Summary) -> Result<Summary, NoMemory>
    requires { IfSome apart (λ one. TotalsFit (totals_plus one.totals more.totals)) }
    ensures { IfOk result (IsTogether apart more) }
{
    match apart {
        None => Ok(more),
        Some(apart) => join_fitting(apart, more),
    }
}

/// The summary of two, the totals of which fit together.
fn join_fitting(one: Summary, more: Summary) -> Result<Summary, NoMemory>
    requires fit { TotalsFit (totals_plus one.totals more.totals) }
    ensures joined { IfOk result (λ both. both ≡ merged_value one more) }
    ensures ordered { IsInOrder one.rows × IsInOrder more.rows }
{
    // That two summaries come to one, and that both are in order, for the proof alone.
    one_merged();
    let _ = one.totals();
    let _ = more.totals();
    match one.join(more) {
        Ok(both) => Ok(both),
        Err(MergeFault::CounterFull { .. }) => unreachable!(),
        Err(MergeFault::NoMemory) => Err(NoMemory),
    }
}
