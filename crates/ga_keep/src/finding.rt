ghost use Rattle.std.specs.Prelude.{◌≡◌, IfOk, IfErr};
ghost use Rattle.ga_disk.specs.Trace.{DiskTrace};
ghost use Rattle.ga_store.specs.Store.{db_value};
ghost use Rattle.ga_keep.specs.RunDatabase as spec;
ghost use Rattle.ga_keep.specs.RunDatabase.{Finds, differing};
ghost use Rattle.ga_keep.specs.Faults.{Misses};

use ga_base::Text;
use ga_disk::Disk;
use ga_store::{Db, StoreFault, recover_with};
use ga_words::Settings;
use std::alloc::Global;
use std::thread::Threads;

/// Whether a run uses the database.
pub fn uses_database(settings: &Settings) -> bool
    ensures { result ≡ spec.uses_database settings.now }
{
    settings.persist || settings.restore
}

/// The database that a run finds. One that uses none leaves the disk alone.
pub fn find<R: Threads + Sync, D: Disk>(
    rt: &R,
    alloc: Global,
    settings: &Settings,
    disk: &mut D,
) -> Result<Db, StoreFault>
    ensures ok { IfOk result (λ db. Finds settings.now (D.view disk.old) (D.view disk.new) (D.images disk.old) (D.images disk.new) (db_value db)) }
    ensures misses { IfErr result (Misses settings.now (D.view disk.old) (D.view disk.new) (D.images disk.old) (D.images disk.new)) }
    ensures calls { DiskTrace (D.view disk.old) (D.view disk.new) }
{
    if !uses_database(settings) {
        return Ok(Db::empty(alloc));
    }
    disk.open(&settings.db_path)?;
    recover_with(rt, alloc, disk, settings.jobs)
}

/// How many days what is stored keeps, where the run restores it and keeps another number of days.
pub fn differs(settings: &Settings, stored: &Db) -> Option<u32>
    ensures { result ≡ differing settings.now (db_value stored.now) }
{
    if settings.restore {
        other_than(settings.keep, stored.keep)
    } else {
        None
    }
}

/// A number, where it is another than this.
fn other_than(keep: u32, number: Option<u32>) -> Option<u32>
    ensures { result ≡ spec.other_than keep number }
{
    match number {
        None => None,
        Some(number) => { if number == keep { None } else { Some(number) } }
    }
}
