ghost use Rattle.std.specs.Prelude.{IfOk, IsTrue};
ghost use Rattle.ga_disk.specs.MemDisk.{disk_view};
ghost use Rattle.ga_store.specs.Commit.{Agrees, MergesBy};
ghost use Rattle.ga_store.specs.Store.{db_value};
ghost use Rattle.ga_store.specs.declared.mode.Mode.TheVariants.{Append};
ghost use Rattle.ga_storing_tests.specs.Together.{IsTogether};

use crate::recovery::{disk_of, side_of};
use ga_base::{Counter, Entries, LIMIT, Text};
use ga_disk::laws::a_disk_stays;
use ga_disk::{Disk, MemDisk};
use ga_store::{Db, Mode, StoreFault, commit, prepare, recover};
use ga_summary::{MergeFault, Summary};
use std::alloc::Global;
use std::test::Fail;

/// What a run counted, after what is stored where it is added to that.
fn together(mode: Mode, stored: &Summary, run: &Summary) -> Result<Summary, StoreFault>
    ensures { IfOk result (IsTogether mode stored.now run.now) }
{
    let mut merged = match mode {
        Mode::Overwrite => return Ok(run.copy()?),
        Mode::Append => stored.copy()?,
    };
    match merged.merge(run) {
        Ok(()) => Ok(merged),
        Err(MergeFault::CounterFull { which, total }) => {
            Err(StoreFault::CounterFull { which, total })
        }
        Err(MergeFault::NoMemory) => Err(StoreFault::NoMemory),
    }
}

/// The whole summary of a run that keeps this many days.
fn merged_by(mode: Mode, keep: u32, stored: &Summary, run: &Summary) -> Result<Summary, StoreFault>
    ensures { IfOk result (MergesBy mode keep stored.now run.now) }
{
    let mut whole = together(mode, stored, run)?;
    whole.trim(keep);
    Ok(whole)
}

/// How many days a database keeps, or this many where it doesn't say how many.
fn kept_by(db: &Db, keep: u32) -> u32
    ensures { Agrees Append result (db_value db.now) }
{
    match db.keep {
        None => keep,
        Some(kept) => kept,
    }
}

/// Stores a run over an empty log, which keeps as many days as the database, or this many: what is recovered and what is prepared
/// from it is all that a commit asks for.
fn store<D: Disk>(alloc: Global, disk: &mut D, keep: u32, mode: Mode) -> Result<(), StoreFault>
    requires { IsTrue (D.view disk.old).is_open }
    ensures { IsTrue (D.view disk.new).is_open }
{
    a_disk_stays();
    let db = recover(alloc, disk)?;
    let run = Summary::empty(alloc);
    let keep = kept_by(&db, keep);
    let merged = merged_by(mode, keep, &db.summary, &run)?;
    let work = prepare(alloc, &db, &run, &merged, &Entries::new(alloc), keep, mode)?;
    commit(disk, work)
}

/// A disk after a first run and this many more.
fn disk_after(alloc: Global, more: u32) -> Result<MemDisk, Fail>
    ensures { IfOk result (λ disk. IsTrue (disk_view disk).is_open) }
{
    let mut disk = MemDisk::new(alloc);
    disk.open(&Text::of(alloc, "d")?)?;
    store(alloc, &mut disk, 0, Mode::Overwrite)?;
    for _run in 0..more {
        store(alloc, &mut disk, 0, Mode::Append)?;
    }
    Ok(disk)
}

/// How many runs come after the first, and the two sides then, by the letters of `recovery`: 64 runs are records after the first
/// generation, and the next begins another on the other side.
const RUNS: [(u32, &str, &str); 4] = [
    (0, "N", ""),
    (1, "NR", ""),
    (
        64,
        "NRRRRRRRRRRRRRRRRRRRRRRRRRRRRRRRRRRRRRRRRRRRRRRRRRRRRRRRRRRRRRRRR",
        "",
    ),
    (
        65,
        "NRRRRRRRRRRRRRRRRRRRRRRRRRRRRRRRRRRRRRRRRRRRRRRRRRRRRRRRRRRRRRRRR",
        "O",
    ),
];

/// Whether the sides are these after this many runs.
fn writes(alloc: Global, more: u32, side0: &str, side1: &str) -> Result<bool, Fail> {
    let disk = disk_after(alloc, more)?;
    Ok(
        disk.side(0) == side_of(alloc, side0)?.as_slice()
            && disk.side(1) == side_of(alloc, side1)?.as_slice(),
    )
}

#[test]
fn runs_write_these_bytes(rt: HostRuntime) -> Result<(), Fail> {
    for (more, side0, side1) in RUNS {
        assert!(rt; writes(rt.alloc(), more, side0, side1)?, "{more}");
    }
    Ok(())
}

/// Whether a run over these sides, which keeps this many days where they don't say how many, leaves those.
fn leads_to(alloc: Global, sides: &str, keep: u32, side0: &str, side1: &str) -> Result<bool, Fail> {
    let mut disk = disk_of(alloc, sides)?;
    store(alloc, &mut disk, keep, Mode::Append)?;
    Ok(
        disk.side(0) == side_of(alloc, side0)?.as_slice()
            && disk.side(1) == side_of(alloc, side1)?.as_slice(),
    )
}

#[test]
fn a_lone_open_gate_is_closed_first(rt: HostRuntime) -> Result<(), Fail> {
    for (sides, side0, side1) in [
        ("N@118=79 -", "NR", ""),
        ("NR@224=79 O@118=79", "NR@224=79", "OR"),
        ("G -", "N", ""),
    ] {
        assert!(rt; leads_to(rt.alloc(), sides, 0, side0, side1)?, "{sides}");
    }
    Ok(())
}

#[test]
fn a_side_without_its_number_is_left_for_the_other(rt: HostRuntime) -> Result<(), Fail> {
    for (sides, side0, side1) in [
        ("F -", "F", "P"),
        ("FR -", "FR", "P"),
        ("- F", "P", "F"),
        ("G F@114=79", "P", "F@114=79"),
    ] {
        assert!(rt; leads_to(rt.alloc(), sides, 2, side0, side1)?, "{sides}");
    }
    Ok(())
}

/// The generation and the number of records that a disk has.
fn numbers(alloc: Global, disk: &mut MemDisk) -> Result<(u64, u64), StoreFault>
    requires { IsTrue (disk_view disk.old).is_open }
{
    let db = recover(alloc, disk)?;
    Ok((db.generation, db.records))
}

/// A run over these sides, and the generation and the number of records before and after it.
#[derive(Clone, Copy)]
struct Run {
    sides: &'static str,
    mode: Mode,
    old: (u64, u64),
    new: (u64, u64),
}

/// Whether a run is stored though its disk fails after this many calls. A crash by a pick leaves the new numbers then, and else the old
/// ones or the new ones.
fn is_stored(alloc: Global, run: &Run, calls: u64, pick: u8) -> Result<bool, Fail> {
    let mut disk = disk_of(alloc, run.sides)?;
    disk.fail_after(calls);
    let stored = store(alloc, &mut disk, 0, run.mode);
    disk.crash(&[pick]);
    let left = numbers(alloc, &mut disk)?;
    match stored {
        Ok(()) if left == run.new => Ok(true),
        Err(StoreFault::DiskFault) if left == run.old || left == run.new => Ok(false),
        _ => Err(Fail::new(format_args!("{calls} calls, pick {pick}"))),
    }
}

/// How many calls a recovery makes, and a commit at most.
const RECOVERY: u64 = 6;

const COMMIT: u64 = 9;

/// Whether a run is stored once its disk makes enough calls, whichever was the last before.
fn is_stored_at_last(alloc: Global, run: &Run, pick: u8) -> Result<bool, Fail> {
    for calls in RECOVERY..RECOVERY + COMMIT + 1 {
        if is_stored(alloc, run, calls, pick)? {
            return Ok(calls > RECOVERY);
        }
    }
    Ok(false)
}

/// A record; a generation on a side that has none; one on a side whose gate is open; and one after a side without its number.
const CRASHES: [Run; 4] = [
    Run {
        sides: "N -",
        mode: Mode::Append,
        old: (1, 0),
        new: (1, 1),
    },
    Run {
        sides: "NRRRRRRRRRRRRRRRRRRRRRRRRRRRRRRRRRRRRRRRRRRRRRRRRRRRRRRRRRRRRRRRR -",
        mode: Mode::Append,
        old: (1, 64),
        new: (2, 0),
    },
    Run {
        sides: "NRRRRRRRRRRRRRRRRRRRRRRRRRRRRRRRRRRRRRRRRRRRRRRRRRRRRRRRRRRRRRRRR O",
        mode: Mode::Overwrite,
        old: (2, 0),
        new: (3, 0),
    },
    Run {
        sides: "F -",
        mode: Mode::Append,
        old: (1, 0),
        new: (2, 0),
    },
];

#[test]
fn a_crash_leaves_the_old_or_the_new(rt: HostRuntime) -> Result<(), Fail> {
    for run in CRASHES {
        for pick in [0, 255, 79] {
            assert!(rt; is_stored_at_last(rt.alloc(), &run, pick)?, "{pick}");
        }
    }
    Ok(())
}

/// What a run is prepared to where the database has its last generation.
fn prepared_at_the_limit(alloc: Global) -> Result<Option<StoreFault>, StoreFault> {
    let db = Db {
        summary: Summary::empty(alloc),
        entries: Entries::new(alloc),
        keep: Some(0),
        generation: LIMIT,
        side: Some(0),
        records: 0,
        slot: 118,
    };
    let run = Summary::empty(alloc);
    let merged = merged_by(Mode::Overwrite, 0, &db.summary, &run)?;
    Ok(prepare(alloc, &db, &run, &merged, &db.entries, 0, Mode::Overwrite).err())
}

#[test]
fn the_last_generation_is_full(rt: HostRuntime) -> Result<(), Fail> {
    let full = StoreFault::CounterFull {
        which: Counter::Generations,
        total: 4_611_686_018_427_387_904,
    };
    assert_eq!(rt; prepared_at_the_limit(rt.alloc())?, Some(full));
    Ok(())
}
