ghost use Rattle.std.specs.Prelude.{◌≡◌, ◌≤◌, Some};
ghost use Rattle.ga_base.specs.declared.counts.TheConstants.{LIMIT};
ghost use Rattle.ga_codec.specs.Values.{snapshot_value};
ghost use Rattle.ga_store.specs.Database.{empty_db, of_snapshot, with_last_days};

use crate::Position;
use crate::found::FirstPart;
use ga_base::Entries;
use ga_summary::Summary;
use ga_summary::laws::one_sum;
use std::alloc::Global;

/// A database as it was recovered.
#[derive(Debug, Drop)]
pub struct Db {
    /// What was counted.
    pub summary: Summary,
    /// How far each log was counted.
    pub entries: Entries,
    /// How many of the last days it keeps, 0 for all. None where nothing is stored, and after a snapshot of version 1, which doesn't say it.
    pub keep: Option<u32>,
    /// The number of its snapshot, at most `LIMIT`, and 0 where nothing is stored.
    pub generation: u64,
    /// The side that has it; None where nothing is stored.
    pub side: Option<u32>,
    /// The number of run records after the snapshot.
    pub records: u64,
    /// The place of the first closed gate after them.
    pub slot: u64,
    ghost numbered: { generation ≤ LIMIT },
}

impl Db {
    ghost use Rattle.ga_store.specs.Commit.{position_of};
    ghost use Rattle.ga_store.specs.Store.{db_value};

    /// The database where nothing is stored.
    pub fn empty(alloc: Global) -> Db
        ensures { db_value result ≡ empty_db }
    {
        // That one summary is the sum of no lines, for the proof alone.
        one_sum();
        Db {
            summary: Summary::empty(alloc),
            entries: Entries::new(alloc),
            keep: None,
            generation: 0,
            side: None,
            records: 0,
            slot: 0,
        }
    }

    /// Where it stands on the sides.
    pub fn position(&self) -> Position
        ensures { result ≡ position_of (db_value self.now) }
    {
        Position {
            keep: self.keep,
            generation: self.generation,
            side: self.side,
            records: self.records,
            slot: self.slot,
        }
    }

    /// Keeps its last days alone, as many as it says, or all where it doesn't say how many.
    pub(crate) fn keep_last_days(&mut self)
        ensures { db_value self.new ≡ with_last_days (db_value self.old) }
    {
        self.summary.trim(self.keep.unwrap_or(0));
    }

    /// The database of the snapshot on a side, before the records after it.
    pub(crate) fn of_first(side: u32, first: FirstPart) -> Db
        ensures { db_value result ≡ of_snapshot side first.next (snapshot_value first.snapshot) }
    {
        let FirstPart { snapshot, next } = first;
        Db {
            summary: snapshot.summary,
            entries: snapshot.entries,
            keep: snapshot.keep,
            generation: snapshot.generation,
            side: Some(side),
            records: 0,
            slot: next,
        }
    }
}
