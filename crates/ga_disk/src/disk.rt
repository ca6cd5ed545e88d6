ghost use Rattle.std.specs.Prelude.{ℕ, ◌+◌, ◌<◌, ◌≤◌, length, IfSome, IsTrue};
ghost use Rattle.ga_disk.specs.Sides.{Sides};
ghost use Rattle.ga_disk.specs.Disk.{DiskView, Opens, Sizes, Reaches, Reads, Writes, TornAt, Cuts, CutAt, Syncs};
ghost use Rattle.ga_disk.specs.Images.{Images, LeavesSame, LeavesSteps, LeavesSynced};

use ga_base::Text;
use ga_counters::Failed;

/// The greatest size of a side in bytes. A write that would pass it fails.
pub const MAX_SIZE: u64 = (1 << 63) - 1;

/// A disk of two sides, which are rows of bytes with the numbers 0 and 1.
///
/// A form may tell what stands on its sides, as one in memory does, or not, as the real one. Each call that fails raises
/// the count of faults by one, up to `2^64 - 1`.
///
/// Between two syncs of a side a crash may leave any bytes in the ranges that were written or cut off, and any length from
/// the least to the greatest that the side had; everything else stays. A call that fails may have done its work in part,
/// but not on a disk that tells to be steady.
pub trait Disk {
    ghost view: { Self → DiskView };

    ghost images: { Self → Images };

    /// What a read gives is one of the images.
    ghost reads_as_image: { (disk : Self) → IfSome (view disk).seen (images disk).now };

    /// This moment is one of those since an earlier one.
    ghost counts_now: { (disk : Self) (t : ℕ) (image : Sides)
        → t ≤ (images disk).moment → (images disk).now image → (images disk).since t image };

    /// Since this moment there is no other.
    ghost only_now: { (disk : Self) (image : Sides)
        → (images disk).since (images disk).moment image → (images disk).now image };

    /// Opens the sides in a folder, and makes those that aren't there, empty. A disk that is open stays so, also where
    /// the call fails.
    fn open(&mut self, path: &Text) -> Result<(), Failed>
        ensures opens { Opens path.now (view self.old) (view self.new) result }
        ensures leaves { LeavesSame (images self.old) (images self.new) };

    /// The size of a side in bytes.
    fn size(&mut self, side: u32) -> Result<u64, Failed>
        requires open { IsTrue (view self.old).is_open }
        requires side { side < 2 }
        ensures sizes { Sizes side (view self.old) (view self.new) result }
        ensures leaves { LeavesSame (images self.old) (images self.new) };

    /// Fills the whole slice with the bytes of a side from the place `at` on.
    fn read_at(&mut self, side: u32, at: u64, into: &mut [u8]) -> Result<(), Failed>
        requires open { IsTrue (view self.old).is_open }
        requires side { side < 2 }
        requires within { Reaches side (at + length into.old) (view self.old).seen }
        ensures reads { Reads side at into.new (view self.old) (view self.new) result }
        ensures leaves { LeavesSame (images self.old) (images self.new) };

    /// Writes over what stands on a side from the place `at` on, and past its end.
    fn write_at(&mut self, side: u32, at: u64, piece: &[u8]) -> Result<(), Failed>
        requires open { IsTrue (view self.old).is_open }
        requires side { side < 2 }
        requires within { Reaches side at (view self.old).seen }
        ensures writes { Writes side at piece.now (view self.old) (view self.new) result }
        ensures leaves { let step = TornAt at (length piece.now) in
            LeavesSteps side step (view self.old).steady (images self.old) (images self.new) result };

    /// Cuts a side to a length. A side that is no longer stays as it is.
    fn cut(&mut self, side: u32, len: u64) -> Result<(), Failed>
        requires open { IsTrue (view self.old).is_open }
        requires side { side < 2 }
        ensures cuts { Cuts side len (view self.old) (view self.new) result }
        ensures leaves { LeavesSteps side (CutAt len) (view self.old).steady (images self.old) (images self.new) result };

    /// Brings a side to the disk: after it a crash leaves of that side what a read gives.
    fn sync(&mut self, side: u32) -> Result<(), Failed>
        requires open { IsTrue (view self.old).is_open }
        requires side { side < 2 }
        ensures syncs { Syncs (view self.old) (view self.new) result }
        ensures leaves { LeavesSynced side (view self.old).seen (images self.old) (images self.new) result };
}
