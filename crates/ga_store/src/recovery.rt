ghost use Rattle.std.specs.Prelude.{◌≡◌, IfErr, IfSome, IsTrue, OnOk};
ghost use Rattle.ga_counters.specs.Counts.{raised};
ghost use Rattle.ga_disk.specs.Images.{OnlyImage};
ghost use Rattle.ga_store.specs.Store.{Looks, Recovers, SyncsBoth, is_disk_fault};
ghost use Rattle.ga_store.specs.declared.fault.StoreFault.TheVariants.{DiskFault};

use crate::hands::{AtOnce, Hands, InTurn};
use crate::side_reading::read_sides;
use crate::side_stream::SideStream;
use crate::{Db, StoreFault};
use ga_disk::Disk;
use std::alloc::Global;
use std::thread::Threads;

/// Recovers the database of an open disk: it syncs side 0, then side 1, and then reads them, slice by slice.
///
/// The syncs come first, so that a gate that reads open is open in every image from then on. Each side is read to its end,
/// also where its bytes are damaged or none of them count.
pub fn recover<D: Disk>(alloc: Global, disk: &mut D) -> Result<Db, StoreFault>
    requires { IsTrue (D.view disk.old).is_open }
    ensures { Recovers D.view D.images disk.old disk.new result }
{
    recover_by(&InTurn { alloc }, disk)
}

/// As `recover`, with a thread beside it where `jobs` is more than one: it digests a slice while the next one is decoded.
pub fn recover_with<R: Threads + Sync, D: Disk>(
    rt: &R,
    alloc: Global,
    disk: &mut D,
    jobs: u32,
) -> Result<Db, StoreFault>
    requires { IsTrue (D.view disk.old).is_open }
    ensures { Recovers D.view D.images disk.old disk.new result }
{
    if jobs > 1 {
        return recover_by(&AtOnce { rt, alloc }, disk);
    }
    recover_by(&InTurn { alloc }, disk)
}

/// As `recover`, where bodies are read and digested by these hands.
fn recover_by<H: Hands, D: Disk>(hands: &H, disk: &mut D) -> Result<Db, StoreFault>
    requires { IsTrue (D.view disk.old).is_open }
    ensures { Recovers D.view D.images disk.old disk.new result }
{
    settle(disk)?;
    let mut stream0 = SideStream::open(hands.alloc(), disk, 0)?;
    let mut stream1 = SideStream::open(hands.alloc(), disk, 1)?;
    let said = read_sides(hands, disk, &mut stream0, &mut stream1)?;
    stream0.drain(disk)?;
    stream1.drain(disk)?;
    said.answer()
}

/// Syncs both sides, side 0 first.
fn settle<D: Disk>(disk: &mut D) -> Result<(), StoreFault>
    requires { IsTrue (D.view disk.old).is_open }
    ensures looks { Looks (is_disk_fault result) (D.view disk.old) (D.view disk.new) (D.images disk.old) (D.images disk.new) }
    ensures calls { OnOk result ((D.view disk.new).counts.calls ≡ raised (D.view disk.old).counts.calls 2) }
    ensures order { OnOk result (SyncsBoth D.view D.images disk.old disk.new) }
    ensures settled { OnOk result (IfSome (D.view disk.old).seen (OnlyImage (D.images disk.new))) }
    ensures only { IfErr result (λ fault. fault ≡ DiskFault) }
{
    disk.sync(0)?;
    disk.sync(1)?;
    Ok(())
}
