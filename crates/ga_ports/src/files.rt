ghost use Rattle.std.specs.Prelude.{IsTrue};
ghost use Rattle.ga_ports.specs.Files.{FilesView, Opens, Sizes, Reads, OpenFailsIfListed, FailsIfListed, ReadsIfListed};

use ga_base::Text;
use ga_counters::Failed;

/// Files to read, one of which is open at a time.
///
/// A form may tell what is in its files, as one in memory does, or not, as the real ones.
/// Each call that fails raises the count of faults by one, up to `2^64 - 1`.
pub trait Files {
    ghost view: { Self → FilesView };

    /// Opens the file of this name, and lets the former go, also where the call fails.
    fn open(&mut self, name: &Text) -> Result<(), Failed>
        ensures opens { Opens name.now (view self.old) (view self.new) result }
        ensures exact { OpenFailsIfListed name.now (view self.old) result };

    /// The size of the open file in bytes.
    fn size(&mut self) -> Result<u64, Failed>
        requires { IsTrue (view self.old).is_open }
        ensures sizes { Sizes (view self.old) (view self.new) result }
        ensures exact { FailsIfListed (view self.old) result };

    /// Reads bytes of the open file from the place `at` on, and answers how many came.
    ///
    /// Where the content is told, at least one byte comes below its size, and all that fits where it is told which
    /// calls are listed to fail. A read that isn't of an empty slice, below the size last answered, and that gives
    /// nothing is a short read, which is counted with its place.
    fn read_at(&mut self, at: u64, into: &mut [u8]) -> Result<usize, Failed>
        requires { IsTrue (view self.old).is_open }
        ensures reads { Reads at into.new (view self.old) (view self.new) result }
        ensures exact { ReadsIfListed at into.new (view self.old) result };
}
