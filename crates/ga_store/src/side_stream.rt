ghost use Rattle.std.specs.Prelude.{◌≡◌, ◌+◌, ◌*◌, ◌-◌, ◌<◌, ◌≤◌, ◌++◌, ℕ, [], length, take, drop, min, IfOk, IfErr, IfSome, IsTrue};
ghost use Rattle.ga_disk.specs.Sides.{of_side};
ghost use Rattle.ga_store.specs.Steps.Recovery.{InPieces, IsOutside};
ghost use Rattle.ga_store.specs.Steps.Stream.{Begins, IsOf, Streams, asked, left, place};
ghost use Rattle.ga_store.specs.Steps.Slice.{ReadsSlice};
ghost use Rattle.ga_store.specs.Store.{Looks, is_disk_fault, most_read};

use crate::StoreFault;
use ga_disk::Disk;
use std::alloc::Global;
use std::marker::Model;

/// The most bytes that one call reads.
const SLICE: u64 = 1 << 20;

/// A side that is read once, from its start to its end, slice by slice.
#[derive(Debug, Drop)]
pub(crate) struct SideStream {
    side: u32,
    size: u64,
    /// How many slices were read.
    reads: u64,
    /// Bytes that were read, of which those before `taken` were taken.
    buffer: Vec<u8>,
    taken: usize,
}

impl Model for SideStream {
    ghost use Rattle.std.specs.Prelude.{◌+◌, ◌*◌, ◌<◌, ◌≤◌, drop, length};
    ghost use Rattle.ga_disk.specs.Disk.{max_size};
    ghost use Rattle.ga_store.specs.Store.{most_read};
    ghost use Rattle.ga_store.specs.Steps.Stream.{StreamView};

    ghost Value = { StreamView };

    ghost view = { λ s. record { side = s.side; size = s.size; reads = s.reads; window = drop s.taken s.buffer.items } };

    ghost invariant = { λ s. (s.side < 2) × (s.size ≤ max_size) × (s.reads * most_read < s.size + most_read) × (s.taken ≤ length s.buffer.items) };
}

impl SideStream {
    /// At the start of a side, of which nothing is read but the size.
    pub(crate) fn open<D: Disk>(
        alloc: Global,
        disk: &mut D,
        side: u32,
    ) -> Result<SideStream, StoreFault>
        requires open { IsTrue (D.view disk.old).is_open }
        requires side { side < 2 }
        ensures looks { Looks (is_disk_fault result) (D.view disk.old) (D.view disk.new) (D.images disk.old) (D.images disk.new) }
        ensures begins { IfOk result (Begins side (D.view disk.old) (D.view disk.new)) }
        ensures outside { IfErr result IsOutside }
    {
        let size = disk.size(side)?;
        Ok(SideStream {
            side,
            size,
            reads: 0,
            buffer: Vec::new(alloc),
            taken: 0,
        })
    }

    /// The bytes that were read and not yet taken.
    pub(crate) fn window(&self) -> &[u8]
        ensures { result.now ≡ self.now.window }
    {
        &self.buffer[self.taken..]
    }

    /// How many bytes weren't taken.
    pub(crate) fn left(&self) -> u64
        ensures { result ≡ left self.now }
    {
        (self.buffer.len() - self.taken) as u64 + (self.size - self.asked())
    }

    /// The place of the first byte that wasn't taken.
    pub(crate) fn place(&self) -> u64
        ensures { result ≡ place self.now }
    {
        self.size.saturating_sub(self.left())
    }

    /// Takes bytes that were read.
    pub(crate) fn take(&mut self, count: usize)
        requires { count ≤ length self.old.window }
        ensures { self.new ≡ record self.old { window = drop count self.old.window } }
    {
        self.taken += count;
    }

    /// Reads until this many bytes are in the window, or all that are left.
    pub(crate) fn load<D: Disk>(&mut self, disk: &mut D, want: usize) -> Result<(), StoreFault>
        requires open { IsTrue (D.view disk.old).is_open }
        requires told { IsOf self.old (D.view disk.old).seen }
        ensures { Streams (D.view disk.old) (D.view disk.new) (D.images disk.old) (D.images disk.new) self.old self.new
            (λ unit taken. (taken ≡ []) × (min want (left self.new) ≤ length self.new.window)) result }
    {
        while self.window().len() < want && self.asked() < self.size {
            self.load_slice(disk)?;
        }
        Ok(())
    }

    /// Takes all bytes that are left.
    pub(crate) fn drain<D: Disk>(&mut self, disk: &mut D) -> Result<(), StoreFault>
        requires open { IsTrue (D.view disk.old).is_open }
        requires told { IsOf self.old (D.view disk.old).seen }
        ensures { Streams (D.view disk.old) (D.view disk.new) (D.images disk.old) (D.images disk.new) self.old self.new
            (λ unit taken. (left self.new ≡ 0) × InPieces self.new.size self.new.reads) result }
    {
        self.take(self.window().len());
        while self.asked() < self.size {
            self.load_slice(disk)?;
            self.take(self.window().len());
        }
        Ok(())
    }

    /// How many bytes were read.
    fn asked(&self) -> u64
        ensures { result ≡ asked self.now }
    {
        self.size.min(self.reads * SLICE)
    }

    /// Reads the next slice.
    fn load_slice<D: Disk>(&mut self, disk: &mut D) -> Result<(), StoreFault>
        requires open { IsTrue (D.view disk.old).is_open }
        requires told { IsOf self.old (D.view disk.old).seen }
        requires more { asked self.old < self.old.size }
        ensures { Streams (D.view disk.old) (D.view disk.new) (D.images disk.old) (D.images disk.new) self.old self.new
            (λ unit taken. (taken ≡ []) × (self.new.reads ≡ self.old.reads + 1)) result }
    {
        let from = self.asked();
        let count = SLICE.min(self.size - from) as usize;
        remove_front(&mut self.buffer, self.taken);
        self.taken = 0;
        read_slice(disk, self.side, from, &mut self.buffer, count)?;
        self.reads += 1;
        Ok(())
    }
}

/// Removes bytes at the front.
fn remove_front(buffer: &mut Vec<u8>, count: usize)
    requires { count ≤ length buffer.old.items }
    ensures { buffer.new.items ≡ drop count buffer.old.items }
{
    let len = buffer.len();
    buffer.copy_within(count..len, 0);
    buffer.truncate(len - count);
}

/// Reads bytes of a side to the end of a buffer.
fn read_slice<D: Disk>(
    disk: &mut D,
    side: u32,
    from: u64,
    buffer: &mut Vec<u8>,
    count: usize,
) -> Result<(), StoreFault>
    requires open { IsTrue (D.view disk.old).is_open }
    requires side { side < 2 }
    requires few { count ≤ most_read }
    requires within { IfSome (D.view disk.old).seen (λ seen. from + count ≤ length (of_side side seen)) }
    ensures looks { Looks (is_disk_fault result) (D.view disk.old) (D.view disk.new) (D.images disk.old) (D.images disk.new) }
    ensures reads { ReadsSlice side from count (D.view disk.old) (D.view disk.new) buffer.old.items buffer.new.items result }
    ensures outside { IfErr result IsOutside }
{
    let len = buffer.len();
    let Some(end) = len.checked_add(count) else {
        return Err(StoreFault::NoMemory);
    };
    buffer.resize(end, 0)?;
    disk.read_at(side, from, &mut buffer[len..])?;
    Ok(())
}
