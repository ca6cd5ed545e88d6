ghost use Rattle.std.specs.Prelude.{IfOk, IfErr};
ghost use Rattle.ga_disk.specs.Trace.{DiskTrace};
ghost use Rattle.ga_store.specs.Store.{db_value};
ghost use Rattle.ga_dbtool.specs.Opening.{Misses, Opens};
ghost use Rattle.ga_dbtool.specs.Outside.{disk_of};

use ga_base::Text;
use ga_disk::Disk;
use ga_store::{Db, StoreFault, recover};
use std::alloc::Global;

/// The database in a folder, as it is after both of its sides were synced.
pub(crate) fn open_db<D: Disk>(alloc: Global, dir: &Text, disk: &mut D) -> Result<Db, StoreFault>
    ensures found { IfOk result (λ db. Opens dir.now (disk_of (D.view disk.old) (D.images disk.old)) (disk_of (D.view disk.new) (D.images disk.new)) (db_value db)) }
    ensures misses { IfErr result (Misses dir.now (disk_of (D.view disk.old) (D.images disk.old)) (disk_of (D.view disk.new) (D.images disk.new))) }
    ensures calls { DiskTrace (D.view disk.old) (D.view disk.new) }
{
    disk.open(dir)?;
    recover(alloc, disk)
}
