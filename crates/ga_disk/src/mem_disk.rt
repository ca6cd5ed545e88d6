ghost use Rattle.std.specs.Prelude.{◌≡◌, ◌+◌, ◌≤◌, ◌<◌, length, OnOk, OnErr, IsTrue, true, option_map};
ghost use Rattle.ga_counters.specs.Counts.{raised};
ghost use Rattle.ga_disk.specs.Sides.{of_side};
ghost use Rattle.ga_disk.specs.Disk.{CutAt, Cuts, Opens, Reads, Sizes, Syncs, TornAt, Writes, max_size, must_fail};
ghost use Rattle.ga_disk.specs.Images.{LeavesSame, LeavesSteps, LeavesSynced};
ghost use Rattle.ga_disk.specs.MemDisk.{KeepsSides, after_change, after_listing, bytes_of, disk_images, disk_view, new_disk, states};
ghost use Rattle.ga_disk.specs.Pick.{after_bound, after_crash};
ghost use Rattle.ga_disk.specs.Laws.{reads-as-image, counts-now, only-now};
ghost use Rattle.ga_disk.specs.declared.change.Change.TheVariants.{Write, Cut, Sync};

use crate::sides::Sides;
use crate::{Change, Disk, DiskCounts, MAX_SIZE};
use ga_base::{Bytes, NoMemory, Text};
use ga_counters::{Failed, is_due};
use std::alloc::Global;
use std::marker::Model;

/// A disk in memory, whose bytes are told, with a list of the calls that are to fail.
///
/// It is steady. It keeps its calls that change or sync a side since it was made or last crashed, by which contracts
/// see what a crash may have left at each moment since then.
#[derive(Debug, Drop)]
pub struct MemDisk {
    alloc: Global,
    sides: Sides,
    changes: Vec<Change>,
    is_open: bool,
    path: Option<Text>,
    failing: Vec<u64>,
    /// The number of calls after which every one fails.
    bound: Option<u64>,
    counts: DiskCounts,
}

impl Model for MemDisk {
    ghost use Rattle.std.specs.Prelude.{◌≡◌};
    ghost use Rattle.ga_disk.specs.MemDisk.{DiskState, all_synced, replay};

    ghost Value = { DiskState };

    ghost view = { λ d. record {
      start = d.sides.start;
      changes = d.changes.items;
      is_open = d.is_open;
      path = d.path;
      listed = d.failing.items;
      bound = d.bound;
      counts = d.counts;
    } };

    ghost invariant = { λ d. replay (all_synced d.sides.start) d.changes.items ≡ d.sides.state };
}

impl MemDisk {
    /// A disk with empty sides that isn't open, none of whose calls is to fail.
    pub fn new(alloc: Global) -> MemDisk
        ensures { result ≡ new_disk }
    {
        MemDisk {
            alloc,
            sides: Sides::new(alloc),
            changes: Vec::new(alloc),
            is_open: false,
            path: None,
            failing: Vec::new(alloc),
            bound: None,
            counts: DiskCounts::ZERO,
        }
    }

    /// Lists a call that is to fail, counted from 1 over all calls of `Disk` since the form was made.
    /// After an `Err` the list is as it was.
    pub fn fail_at(&mut self, call: u64) -> Result<(), NoMemory>
        ensures ok { OnOk result (self.new ≡ after_listing call self.old) }
        ensures err { OnErr result (self.new ≡ self.old) }
    {
        self.failing.push(call)?;
        Ok(())
    }

    /// Lets every call fail that comes after this many more, until the next crash.
    pub fn fail_after(&mut self, calls: u64)
        ensures { self.new ≡ after_bound calls self.old }
    {
        self.bound = Some(self.counts.calls.saturating_add(calls));
    }

    /// Leaves one of the images that a crash may leave, by a pick.
    ///
    /// The length of a side becomes the greatest since its last sync where the pick is empty or its first byte is odd, else
    /// the least. Each unsure byte is replaced by the next of the pick, taken round and round, on side 0 and then on side 1;
    /// without a pick it stays, or is 0 past the end. Then all bytes count as synced, and calls no longer fail for a bound.
    pub fn crash(&mut self, pick: &[u8])
        ensures { self.new ≡ after_crash pick.now self.old }
    {
        self.sides.crash(pick);
        self.changes.clear();
        self.bound = None;
    }

    /// The bytes of a side.
    pub fn side(&self, side: u32) -> &[u8]
        requires { side < 2 }
        ensures { result.now ≡ of_side side (bytes_of (states self.now)) }
    {
        self.sides.bytes(side)
    }

    /// The number of calls that failed for lack of memory.
    pub fn starved(&self) -> u64
        ensures { result ≡ self.now.counts.starved }
    {
        self.counts.starved
    }

    /// The path opened last, that of the last `open` that answered Ok.
    pub fn last_opened(&self) -> Option<&Text>
        ensures { option_map (λ t. t.now) result ≡ self.now.path }
    {
        self.path.as_ref()
    }

    /// Whether the next call is listed to fail, or is past the bound.
    fn is_due(&self) -> bool
        ensures { result ≡ must_fail self.now.listed self.now.bound self.now.counts.calls }
    {
        let calls = self.counts.calls;
        let is_past = match self.bound {
            None => false,
            Some(bound) => bound <= calls,
        };
        is_due(&self.failing, calls) || is_past
    }

    /// Writes to a side and keeps the call. There is no memory for more than the greatest size.
    /// After an `Err` the disk is as it was.
    fn write(&mut self, side: u32, at: u64, piece: &[u8]) -> Result<(), NoMemory>
        requires { at ≤ length (of_side side (bytes_of (states self.old))) }
        ensures ok { OnOk result (self.new ≡ after_change (Write side at piece.now) self.old) }
        ensures fits { OnOk result (at + length piece.now ≤ max_size) }
        ensures err { OnErr result (self.new ≡ self.old) }
    {
        if at.saturating_add(piece.len() as u64) > MAX_SIZE {
            return Err(NoMemory);
        }
        let kept = Bytes::of(self.alloc, piece)?;
        self.changes.reserve(1)?;
        self.sides.write(side, at, piece)?;
        self.changes
            .push(Change::Write {
                side,
                at,
                piece: kept,
            })
            .unwrap();
        Ok(())
    }

    /// Cuts a side and keeps the call. After an `Err` the disk is as it was.
    fn shorten(&mut self, side: u32, len: u64) -> Result<(), NoMemory>
        ensures ok { OnOk result (self.new ≡ after_change (Cut side len) self.old) }
        ensures err { OnErr result (self.new ≡ self.old) }
    {
        self.changes.reserve(1)?;
        self.sides.cut(side, len)?;
        self.changes.push(Change::Cut { side, len }).unwrap();
        Ok(())
    }

    /// Syncs a side and keeps the call. After an `Err` the disk is as it was.
    fn settle(&mut self, side: u32) -> Result<(), NoMemory>
        ensures ok { OnOk result (self.new ≡ after_change (Sync side) self.old) }
        ensures err { OnErr result (self.new ≡ self.old) }
    {
        self.changes.push(Change::Sync { side })?;
        self.sides.sync(side);
        Ok(())
    }
}

impl Disk for MemDisk {
    ghost view = { disk_view };

    ghost images = { disk_images };

    ghost reads_as_image = { reads-as-image };

    ghost counts_now = { counts-now };

    ghost only_now = { only-now };

    fn open(&mut self, path: &Text) -> Result<(), Failed>
        ensures opens { Opens path.now (disk_view self.old) (disk_view self.new) result }
        ensures leaves { LeavesSame (disk_images self.old) (disk_images self.new) }
        ensures kept { self.new ≡ record self.old { is_open = self.new.is_open; path = self.new.path; counts = self.new.counts } }
    {
        self.counts.ask();
        if self.is_due() {
            self.counts.fail();
            return Err(Failed);
        }
        let Ok(path) = path.clone() else {
            self.counts.starve();
            return Err(Failed);
        };
        self.counts.call();
        self.is_open = true;
        self.path = Some(path);
        Ok(())
    }

    fn size(&mut self, side: u32) -> Result<u64, Failed>
        requires open { IsTrue self.old.is_open }
        requires side { side < 2 }
        ensures sizes { Sizes side (disk_view self.old) (disk_view self.new) result }
        ensures leaves { LeavesSame (disk_images self.old) (disk_images self.new) }
        ensures kept { KeepsSides self.old self.new }
    {
        if self.is_due() {
            self.counts.fail();
            return Err(Failed);
        }
        self.counts.call();
        Ok(self.sides.bytes(side).len() as u64)
    }

    fn read_at(&mut self, side: u32, at: u64, into: &mut [u8]) -> Result<(), Failed>
        requires open { IsTrue self.old.is_open }
        requires side { side < 2 }
        requires within { at + length into.old ≤ length (of_side side (bytes_of (states self.old))) }
        ensures reads { Reads side at into.new (disk_view self.old) (disk_view self.new) result }
        ensures leaves { LeavesSame (disk_images self.old) (disk_images self.new) }
        ensures kept { KeepsSides self.old self.new }
    {
        if self.is_due() {
            self.counts.fail();
            return Err(Failed);
        }
        self.counts.call();
        let at = at as usize;
        let count = into.len();
        into.copy_from_slice(&self.sides.bytes(side)[at..at + count]);
        Ok(())
    }

    fn write_at(&mut self, side: u32, at: u64, piece: &[u8]) -> Result<(), Failed>
        requires open { IsTrue self.old.is_open }
        requires side { side < 2 }
        requires within { at ≤ length (of_side side (bytes_of (states self.old))) }
        ensures writes { Writes side at piece.now (disk_view self.old) (disk_view self.new) result }
        ensures leaves { LeavesSteps side (TornAt at (length piece.now)) true (disk_images self.old) (disk_images self.new) result }
        ensures kept { OnOk result (KeepsSides (after_change (Write side at piece.now) self.old) self.new) }
        ensures undone { OnErr result (KeepsSides self.old self.new) }
    {
        if self.is_due() {
            self.counts.fail();
            return Err(Failed);
        }
        match self.write(side, at, piece) {
            Ok(()) => {
                self.counts.call();
                Ok(())
            }
            Err(_) => {
                self.counts.starve();
                Err(Failed)
            }
        }
    }

    fn cut(&mut self, side: u32, len: u64) -> Result<(), Failed>
        requires open { IsTrue self.old.is_open }
        requires side { side < 2 }
        ensures cuts { Cuts side len (disk_view self.old) (disk_view self.new) result }
        ensures leaves { LeavesSteps side (CutAt len) true (disk_images self.old) (disk_images self.new) result }
        ensures kept { OnOk result (KeepsSides (after_change (Cut side len) self.old) self.new) }
        ensures undone { OnErr result (KeepsSides self.old self.new) }
    {
        if self.is_due() {
            self.counts.fail();
            return Err(Failed);
        }
        match self.shorten(side, len) {
            Ok(()) => {
                self.counts.call();
                Ok(())
            }
            Err(_) => {
                self.counts.starve();
                Err(Failed)
            }
        }
    }

    fn sync(&mut self, side: u32) -> Result<(), Failed>
        requires open { IsTrue self.old.is_open }
        requires side { side < 2 }
        ensures syncs { Syncs (disk_view self.old) (disk_view self.new) result }
        ensures leaves { LeavesSynced side (disk_view self.old).seen (disk_images self.old) (disk_images self.new) result }
        ensures kept { OnOk result (KeepsSides (after_change (Sync side) self.old) self.new) }
        ensures undone { OnErr result (KeepsSides self.old self.new) }
    {
        if self.is_due() {
            self.counts.fail();
            return Err(Failed);
        }
        match self.settle(side) {
            Ok(()) => {
                self.counts.call();
                Ok(())
            }
            Err(_) => {
                self.counts.starve();
                Err(Failed)
            }
        }
    }
}
