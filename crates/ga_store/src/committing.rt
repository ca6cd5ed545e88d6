ghost use Rattle.std.specs.Prelude.{◌+◌, ◌<◌, ◌≤◌, ◌^◌, length, IsTrue};
ghost use Rattle.ga_disk.specs.Disk.{Reaches, max_size};
ghost use Rattle.ga_store.specs.Commits.{Commits, IsReady};
ghost use Rattle.ga_store.specs.Steps.Committing.{Closes, Ends, Fills, LooksAt, Sets};

use crate::side_parts::OPEN;
use crate::{Prepared, StoreFault};
use ga_disk::Disk;

/// The byte by which the store closes a gate.
const CLOSED: u8 = 0;

/// Writes prepared work. It takes no memory.
///
/// Where a gate stands that reads open or isn't there, it is closed first. Then the part is written with a closed gate
/// after it, and is synced before the gate in front of it is opened by a write of its own.
pub fn commit<D: Disk>(disk: &mut D, work: Prepared) -> Result<(), StoreFault>
    requires open { IsTrue (D.view disk.old).is_open }
    requires ready { IsReady work (D.view disk.old) (D.images disk.old) }
    ensures { Commits work (D.view disk.old) (D.view disk.new) (D.images disk.old) (D.images disk.new) result }
{
    close_gate(disk, work.side(), work.gate())?;
    fill(disk, &work)?;
    set_gate(disk, work.side(), work.gate(), OPEN)
}

/// Closes a gate that reads open or isn't there.
fn close_gate<D: Disk>(disk: &mut D, side: u32, gate: u64) -> Result<(), StoreFault>
    requires open { IsTrue (D.view disk.old).is_open }
    requires side { side < 2 }
    requires within { Reaches side gate (D.view disk.old).seen }
    requires fits { gate < 2 ^ 63 }
    ensures { Closes side gate (D.view disk.old) (D.view disk.new) (D.images disk.old) (D.images disk.new) result }
{
    if !must_close(disk, side, gate)? {
        return Ok(());
    }
    set_gate(disk, side, gate, CLOSED)
}

/// Whether no byte is at a gate's place, or that of an open gate.
fn must_close<D: Disk>(disk: &mut D, side: u32, gate: u64) -> Result<bool, StoreFault>
    requires open { IsTrue (D.view disk.old).is_open }
    requires side { side < 2 }
    ensures { LooksAt side gate (D.view disk.old) (D.view disk.new) (D.images disk.old) (D.images disk.new) result }
{
    let size = disk.size(side)?;
    if size <= gate {
        return Ok(true);
    }
    let mut byte = [CLOSED];
    disk.read_at(side, gate, &mut byte)?;
    Ok(byte[0] == OPEN)
}

/// Writes the byte of a gate, and syncs it.
fn set_gate<D: Disk>(disk: &mut D, side: u32, gate: u64, byte: u8) -> Result<(), StoreFault>
    requires open { IsTrue (D.view disk.old).is_open }
    requires side { side < 2 }
    requires within { Reaches side gate (D.view disk.old).seen }
    ensures { Sets side gate byte (D.view disk.old) (D.view disk.new) (D.images disk.old) (D.images disk.new) result }
{
    disk.write_at(side, gate, &[byte])?;
    disk.sync(side)?;
    Ok(())
}

/// Writes the part and the next gate after a closed one, and syncs them.
fn fill<D: Disk>(disk: &mut D, work: &Prepared) -> Result<(), StoreFault>
    requires open { IsTrue (D.view disk.old).is_open }
    requires side { work.now.side < 2 }
    requires within { Reaches work.now.side (work.now.gate + 1) (D.view disk.old).seen }
    requires fits { work.now.gate < 2 ^ 63 }
    ensures { Fills work.now (D.view disk.old) (D.view disk.new) (D.images disk.old) (D.images disk.new) result }
{
    let start = work.gate() + 1;
    let tail = work.tail();
    disk.write_at(work.side(), start, tail)?;
    end_side(disk, work.side(), start + tail.len() as u64, work.is_new())?;
    disk.sync(work.side())?;
    Ok(())
}

/// Cuts a side to a length, or leaves it.
fn end_side<D: Disk>(disk: &mut D, side: u32, len: u64, cuts: bool) -> Result<(), StoreFault>
    requires open { IsTrue (D.view disk.old).is_open }
    requires side { side < 2 }
    ensures { Ends side len cuts (D.view disk.old) (D.view disk.new) (D.images disk.old) (D.images disk.new) result }
{
    if !cuts {
        return Ok(());
    }
    disk.cut(side, len)?;
    Ok(())
}
