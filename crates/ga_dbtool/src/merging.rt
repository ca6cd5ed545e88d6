ghost use Rattle.std.specs.Prelude.{◌≡◌, ◌+◌, ◌<◌, ◌≤◌, ◌++◌, if◌then◌else◌, false, ℕ, None, IfOk, IfErr, OnOk};
ghost use Rattle.ga_base.specs.Totals.{totals_plus};
ghost use Rattle.ga_base.specs.declared.counts.TheConstants.{LIMIT};
ghost use Rattle.ga_disk.specs.Trace.{DiskTrace};
ghost use Rattle.ga_store.specs.Commit.{most_records};
ghost use Rattle.ga_store.specs.Store.{db_value};
ghost use Rattle.ga_summary.specs.LastDays as spec;
ghost use Rattle.ga_summary.specs.Limits.{passes};
ghost use Rattle.ga_dbtool.specs.Merged.{Agree, Differ, ShareFirst, ShareNone, keep_of};
ghost use Rattle.ga_dbtool.specs.Opening.{Opens};
ghost use Rattle.ga_dbtool.specs.Outside.{disk_of, disks_of};
ghost use Rattle.ga_dbtool.specs.Steps.Parts.{IsPrepared, MergesLastDays, MissesAt, OpensBoth, StopsJoining, StopsOpening, StopsPreparing};

use crate::DbStatus;
use crate::facts::facts_text;
use crate::opening::open_db;
use crate::shared::first_shared;
use ga_base::{Bytes, Entries, Entry, NoMemory, Text};
use ga_disk::Disk;
use ga_store::{Db, Mode, Position, Prepared, prepare_at};
use ga_summary::Summary;
use std::alloc::Global;

/// Two databases that can be merged.
#[derive(Debug, Drop)]
pub(crate) struct Pair {
    /// The one that takes in the other.
    pub(crate) left: Db,
    /// The other one.
    pub(crate) right: Db,
}

/// A merge that can be kept without memory.
#[derive(Debug, Drop)]
pub(crate) struct Ready {
    /// What is written.
    pub(crate) work: Prepared,
    /// How much is in the database then.
    pub(crate) text: Bytes,
}

/// The databases in two folders, which can be merged.
pub(crate) fn open_both<D: Disk>(
    alloc: Global,
    dir: &Text,
    other: &Text,
    first: &mut D,
    second: &mut D,
) -> Result<Pair, DbStatus>
    ensures ok { IfOk result (λ pair. OpensBoth dir.now other.now
        (disks_of (disk_of (D.view first.old) (D.images first.old)) (disk_of (D.view second.old) (D.images second.old)))
        (disks_of (disk_of (D.view first.new) (D.images first.new)) (disk_of (D.view second.new) (D.images second.new)))
        (db_value pair.left) (db_value pair.right)) }
    ensures stops { IfErr result (StopsOpening dir.now other.now
        (disks_of (disk_of (D.view first.old) (D.images first.old)) (disk_of (D.view second.old) (D.images second.old)))
        (disks_of (disk_of (D.view first.new) (D.images first.new)) (disk_of (D.view second.new) (D.images second.new)))) }
    ensures first_calls { DiskTrace (D.view first.old) (D.view first.new) }
    ensures second_calls { DiskTrace (D.view second.old) (D.view second.new) }
{
    let left = open_at(alloc, 0, dir, first)?;
    let right = open_at(alloc, 1, other, second)?;
    agree(&left, &right)?;
    share_none(&left, &right)?;
    Ok(Pair { left, right })
}

/// The database in a folder; `db` is its number in a status.
fn open_at<D: Disk>(alloc: Global, db: u32, dir: &Text, disk: &mut D) -> Result<Db, DbStatus>
    ensures ok { IfOk result (λ found. Opens dir.now (disk_of (D.view disk.old) (D.images disk.old)) (disk_of (D.view disk.new) (D.images disk.new)) (db_value found)) }
    ensures misses { IfErr result (MissesAt db dir.now (disk_of (D.view disk.old) (D.images disk.old)) (disk_of (D.view disk.new) (D.images disk.new))) }
    ensures calls { DiskTrace (D.view disk.old) (D.view disk.new) }
{
    match open_db(alloc, dir, disk) {
        Ok(found) => Ok(found),
        Err(fault) => Err(DbStatus::of_store(db, fault)),
    }
}

/// Refuses databases that keep different numbers of days.
fn agree(left: &Db, right: &Db) -> Result<(), DbStatus>
    ensures ok { OnOk result (Agree (db_value left.now) (db_value right.now)) }
    ensures differ { IfErr result (λ status. (stored : ℕ) × (given : ℕ) × (status ≡ DbStatus.KeepDiffers stored given)
        × Differ (db_value left.now) (db_value right.now) stored given) }
{
    match (left.keep, right.keep) {
        (Some(stored), Some(given)) if stored != given => {
            Err(DbStatus::KeepDiffers { stored, given })
        }
        _ => Ok(()),
    }
}

/// Refuses databases that both have a log.
fn share_none(left: &Db, right: &Db) -> Result<(), DbStatus>
    ensures ok { OnOk result (ShareNone (db_value left.now).entries (db_value right.now).entries) }
    ensures share { IfErr result (λ status. (place : ℕ) × (place' : ℕ) × (status ≡ DbStatus.SharedEntry place place')
        × ShareFirst (db_value left.now).entries (db_value right.now).entries place place') }
{
    match first_shared(left.entries.items(), right.entries.items()) {
        None => Ok(()),
        Some((left, right)) => Err(DbStatus::SharedEntry { left, right }),
    }
}

/// The work of merging the second database into the first, and what is said of it then. All memory is taken here.
pub(crate) fn prepare_merge(alloc: Global, pair: Pair) -> Result<Ready, DbStatus>
    ensures ok { IfOk result (λ ready. IsPrepared (db_value pair.left) (db_value pair.right) ready.work ready.text) }
    ensures stops { IfErr result (StopsPreparing (db_value pair.left) (db_value pair.right)) }
{
    let Pair { left, right } = pair;
    let keep = keep_of(&left, &right);
    let position = left.position();
    let Db {
        summary,
        entries,
        ..
    } = left;
    let Db {
        summary: run,
        entries: more,
        ..
    } = right;
    let mut all = entries;
    append(&mut all, more.items())?;
    let whole = last_days_of(summary, &run, keep)?;
    let work = match prepare_at(alloc, position, &run, &whole, &all, keep, Mode::Append) {
        Ok(work) => work,
        Err(fault) => return Err(DbStatus::of_store(0, fault)),
    };
    let (generation, records) = after(position, work.is_new());
    let text = facts_text(alloc, generation, records, &whole, &all)?;
    Ok(Ready { work, text })
}

/// How many of the last days both together keep.
fn keep_of(left: &Db, right: &Db) -> u32
    ensures { result ≡ keep_of (db_value left.now) (db_value right.now) }
{
    left.keep.unwrap_or(right.keep.unwrap_or(0))
}

/// The generation and the number of records after one more of the one or the other.
fn after(position: Position, is_new: bool) -> (u64, u64)
    requires generation { position.generation ≤ LIMIT }
    requires records { is_new ≡ false → position.records < most_records }
    ensures generation { result.0 ≡ (if is_new then position.generation + 1 else position.generation) }
    ensures records { result.1 ≡ (if is_new then 0 else position.records + 1) }
{
    if is_new {
        (position.generation + 1, 0)
    } else {
        (position.generation, position.records + 1)
    }
}

/// Adds entries to a list. After an `Err` some of them may be there.
fn append(entries: &mut Entries, more: &[Entry]) -> Result<(), NoMemory>
    ensures { OnOk result (entries.new ≡ entries.old ++ more.now) }
{
    for entry in more {
        entries.push(*entry)?;
    }
    Ok(())
}

/// The last days of two summaries together, this many.
fn last_days_of(left: Summary, right: &Summary, keep: u32) -> Result<Summary, DbStatus>
    ensures ok { IfOk result (MergesLastDays keep left right.now) }
    ensures fits { OnOk result (passes (totals_plus left.totals right.now.totals) ≡ None) }
    ensures stops { IfErr result (StopsJoining left right.now) }
{
    let more = right.copy()?;
    match left.join(more) {
        Ok(both) => Ok(trimmed(both, keep)),
        Err(fault) => Err(DbStatus::from(fault)),
    }
}

/// Its last days, this many.
fn trimmed(both: Summary, keep: u32) -> Summary
    ensures { result ≡ spec.trimmed keep both }
{
    let mut whole = both;
    whole.trim(keep);
    whole
}
