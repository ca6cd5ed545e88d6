ghost use Rattle.std.specs.Prelude.{◌≡◌, ◌+◌, ◌≤◌, [], length, OnOk, OnErr};
ghost use Rattle.ga_disk.specs.Sides.{of_side};
ghost use Rattle.ga_disk.specs.Disk.{max_size};
ghost use Rattle.ga_disk.specs.MemDisk.{apply, bytes_of, fresh_sides};
ghost use Rattle.ga_disk.specs.Pick.{crashed};
ghost use Rattle.ga_disk.specs.declared.change.Change.TheVariants.{Write, Cut, Sync};

use crate::side::Side;
use ga_base::NoMemory;
use std::alloc::Global;
use std::marker::Model;

/// Both sides of a disk in memory. Any number but 0 is side 1.
#[derive(Debug, Drop)]
pub struct Sides {
    side0: Side,
    side1: Side,
}

impl Model for Sides {
    ghost use Rattle.ga_disk.specs.MemDisk.{MemSides};

    ghost Value = { MemSides };

    ghost view = { λ s. record {
      start = record { side0 = s.side0.start; side1 = s.side1.start };
      state = record { side0 = s.side0.state; side1 = s.side1.state };
    } };
}

impl Sides {
    /// Sides that hold nothing.
    pub fn new(alloc: Global) -> Sides
        ensures { result ≡ fresh_sides (record { side0 = []; side1 = [] }) }
    {
        Sides {
            side0: Side::new(alloc),
            side1: Side::new(alloc),
        }
    }

    /// What a read of a side gives.
    pub fn bytes(&self, side: u32) -> &[u8]
        ensures value { result.now ≡ of_side side (bytes_of self.now.state) }
        ensures size { length result.now ≤ max_size }
    {
        match side {
            0 => self.side0.bytes(),
            _ => self.side1.bytes(),
        }
    }

    /// Writes over the bytes of a side. After an `Err` the sides are as they were.
    pub fn write(&mut self, side: u32, at: u64, piece: &[u8]) -> Result<(), NoMemory>
        requires within { at ≤ length (of_side side (bytes_of self.old.state)) }
        requires fits { at + length piece.now ≤ max_size }
        ensures ok { OnOk result (self.new ≡ record self.old { state = apply (Write side at piece.now) self.old.state }) }
        ensures err { OnErr result (self.new ≡ self.old) }
    {
        match side {
            0 => self.side0.write(at as usize, piece),
            _ => self.side1.write(at as usize, piece),
        }
    }

    /// Cuts a side to a length. After an `Err` the sides are as they were.
    pub fn cut(&mut self, side: u32, len: u64) -> Result<(), NoMemory>
        ensures ok { OnOk result (self.new ≡ record self.old { state = apply (Cut side len) self.old.state }) }
        ensures err { OnErr result (self.new ≡ self.old) }
    {
        match side {
            0 => self.side0.cut(len as usize),
            _ => self.side1.cut(len as usize),
        }
    }

    /// Takes all bytes of a side as synced.
    pub fn sync(&mut self, side: u32)
        ensures { self.new ≡ record self.old { state = apply (Sync side) self.old.state } }
    {
        match side {
            0 => self.side0.sync(),
            _ => self.side1.sync(),
        }
    }

    /// Leaves the image of a crash for a pick.
    pub fn crash(&mut self, pick: &[u8])
        ensures { self.new ≡ fresh_sides (crashed pick.now self.old.state) }
    {
        let used = self.side0.crash(pick, 0);
        self.side1.crash(pick, used);
    }
}
