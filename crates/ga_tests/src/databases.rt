//! The bytes of a database, and its sides.

ghost use Rattle.std.specs.Prelude.{IsTrue};
ghost use Rattle.ga_codec.specs.Shapes.{IsGeneration};
ghost use Rattle.ga_store.specs.Commit.{Agrees, MergesBy};
ghost use Rattle.ga_store.specs.Commits.{IsReady};
ghost use Rattle.ga_store.specs.Store.{db_value};

use ga_base::{Bytes, Counter, Entries, NoMemory};
use ga_codec::{
    CodecFault, Delta, Snapshot, read_delta, read_snapshot, write_delta, write_snapshot,
};
use ga_ports::Disk;
use ga_store::{Db, Mode, Prepared, StoreFault, commit, prepare, recover, recover_with};
use ga_summary::Summary;
use std::alloc::Global;
use std::thread::Threads;

/// The faults of bytes.
pub const CODEC_FAULTS: [CodecFault; 2] = [
    CodecFault::NotInGrammar { at: 0 },
    CodecFault::NoMemory,
];

/// The faults of a database.
pub const STORE_FAULTS: [StoreFault; 4] = [
    StoreFault::DiskFault,
    StoreFault::Damaged { side: 0, at: 1 },
    StoreFault::CounterFull {
        which: Counter::Lines,
        total: 0,
    },
    StoreFault::NoMemory,
];

/// How a run is kept.
pub const MODES: [Mode; 2] = [Mode::Append, Mode::Overwrite];

/// The snapshot of a generation, which keeps this many days.
pub fn snapshot(
    generation: u64,
    keep: Option<u32>,
    summary: Summary,
    entries: Entries,
) -> Snapshot {
    Snapshot {
        generation,
        keep,
        summary,
        entries,
    }
}

/// The record of a run.
pub fn delta(summary: Summary, entries: Entries) -> Delta {
    Delta { summary, entries }
}

/// The bytes of a snapshot.
pub fn snapshot_bytes(alloc: Global, snapshot: &Snapshot) -> Result<Bytes, NoMemory>
    requires { IsGeneration snapshot.now.generation }
{
    write_snapshot(alloc, snapshot)
}

/// The snapshot of bytes.
pub fn snapshot_in(alloc: Global, bytes: &[u8]) -> Result<Snapshot, CodecFault> {
    read_snapshot(alloc, bytes)
}

/// The bytes of a record.
pub fn delta_bytes(alloc: Global, delta: &Delta) -> Result<Bytes, NoMemory> {
    write_delta(alloc, delta)
}

/// The record of bytes.
pub fn delta_in(alloc: Global, bytes: &[u8]) -> Result<Delta, CodecFault> {
    read_delta(alloc, bytes)
}

/// The database of a disk.
pub fn database<D: Disk>(alloc: Global, disk: &mut D) -> Result<Db, StoreFault>
    requires { IsTrue (D.view disk.old).is_open }
{
    recover(alloc, disk)
}

/// The database of a disk, by two threads where there are more jobs than one.
pub fn database_by<R: Threads + Sync, D: Disk>(
    rt: &R,
    alloc: Global,
    disk: &mut D,
    jobs: u32,
) -> Result<Db, StoreFault>
    requires { IsTrue (D.view disk.old).is_open }
{
    recover_with(rt, alloc, disk, jobs)
}

/// The place of the next record of a database, of which each field is named.
pub fn slot_of(db: &Db) -> u64 {
    let Db {
        summary: _,
        entries: _,
        keep: _,
        generation: _,
        side: _,
        records: _,
        slot,
    } = db;
    *slot
}

/// Prepares a run.
pub fn work_of(
    alloc: Global,
    db: &Db,
    run: &Summary,
    merged: &Summary,
    entries: &Entries,
    keep: u32,
    mode: Mode,
) -> Result<Prepared, StoreFault>
    requires agrees { Agrees mode keep (db_value db.now) }
    requires merged { MergesBy mode keep db.now.summary run.now merged.now }
{
    prepare(alloc, db, run, merged, entries, keep, mode)
}

/// Commits what was prepared.
pub fn commit_work<D: Disk>(disk: &mut D, work: Prepared) -> Result<(), StoreFault>
    requires open { IsTrue (D.view disk.old).is_open }
    requires ready { IsReady work (D.view disk.old) (D.images disk.old) }
{
    commit(disk, work)
}
