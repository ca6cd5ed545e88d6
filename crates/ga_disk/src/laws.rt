//! What holds of all disks and all stretches of calls. Each function's contract is the law, and its body is empty.

ghost use Rattle.std.specs.Prelude.{◌≡◌, ℕ, List, Some};
ghost use Rattle.ga_disk.specs.Sides.{Sides};
ghost use Rattle.ga_disk.specs.Disk.{DiskView};
ghost use Rattle.ga_disk.specs.Images.{OnlyImage};
ghost use Rattle.ga_disk.specs.MemDisk.{AreImages, DiskState, disk_images, states};
ghost use Rattle.ga_disk.specs.Pick.{after_crash, crashed};
ghost use Rattle.ga_disk.specs.Trace.{DiskTrace, DiskStays, DiskFailsAsListed};

/// What a crash of a disk in memory leaves for a pick is one of its images, whatever the pick.
pub fn a_crash_leaves_an_image()
    ensures { (pick : List ℕ) (disk : DiskState) → AreImages (states disk) (crashed pick (states disk)) }
{}

/// After a crash a disk in memory has one image, that which was left.
pub fn a_crash_is_settled()
    ensures { (pick : List ℕ) (disk : DiskState)
        → OnlyImage (disk_images (after_crash pick disk)) (crashed pick (states disk)) }
{}

/// No call of a disk closes it or changes the list of calls and the bound, and no count falls.
pub fn a_disk_stays()
    ensures { (old new : DiskView) → DiskTrace old new → DiskStays old new }
{}

/// Where it is told which calls are listed, the count of faults of a disk rises exactly where one of them was made, a
/// call past the bound was made or one found no memory.
pub fn a_disk_fails_as_listed()
    ensures { (listed : List ℕ) (old new : DiskView) → old.listed ≡ Some listed → DiskTrace old new
        → DiskFailsAsListed listed old new }
{}
