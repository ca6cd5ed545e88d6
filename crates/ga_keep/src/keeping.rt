ghost use Rattle.std.specs.Prelude.{◌≡◌, OnOk, IfErr, IsTrue};
ghost use Rattle.ga_disk.specs.Trace.{DiskTrace};
ghost use Rattle.ga_store.specs.Database.{DbValue};
ghost use Rattle.ga_keep.specs.RunDatabase.{ComesAfter, IsKept, mode_of};
ghost use Rattle.ga_keep.specs.Faults.{IsUnkept};

use ga_base::Entries;
use ga_disk::Disk;
use ga_store::{Mode, Position, StoreFault, commit, prepare_at};
use ga_summary::Summary;
use ga_words::Settings;
use std::alloc::Global;

/// Keeps a run after the database that stands at a position: what the run counted, the last days of the whole with what it
/// restored, and how far each log was counted. All memory is taken before the disk is touched.
pub fn keep<D: Disk>(
    alloc: Global,
    settings: &Settings,
    position: Position,
    run: &Summary,
    whole: &Summary,
    entries: &Entries,
    disk: &mut D,
) -> Result<(), StoreFault>
    requires open { IsTrue (D.view disk.old).is_open }
    requires after { (stored : DbValue) × ComesAfter settings.now stored position run.now whole.now (D.view disk.old) (D.images disk.old) }
    ensures kept { OnOk result ((stored : DbValue) → ComesAfter settings.now stored position run.now whole.now (D.view disk.old) (D.images disk.old)
        → IsKept settings.now stored whole.now entries.now (D.view disk.old) (D.view disk.new) (D.images disk.old) (D.images disk.new)) }
    ensures unkept { IfErr result (λ fault. (stored : DbValue) → ComesAfter settings.now stored position run.now whole.now (D.view disk.old) (D.images disk.old)
        → IsUnkept settings.now stored whole.now entries.now (D.view disk.old) (D.view disk.new) (D.images disk.old) (D.images disk.new) fault) }
    ensures calls { DiskTrace (D.view disk.old) (D.view disk.new) }
{
    let work = prepare_at(
        alloc,
        position,
        run,
        whole,
        entries,
        settings.keep,
        mode(settings),
    )?;
    commit(disk, work)
}

/// How a run is kept.
fn mode(settings: &Settings) -> Mode
    ensures { result ≡ mode_of settings.now }
{
    if settings.restore {
        Mode::Append
    } else {
        Mode::Overwrite
    }
}
