ghost use Rattle.ga_ports.specs.Outs.{OutsView, Creates, Writes, CanTake, CreatesIfListed, WritesIfListed};

use crate::Failed;
use ga_base::Text;

/// A target that takes bytes.
#[derive(Clone, Copy, Debug, PartialEq, Eq)]
pub enum To {
    /// Standard output.
    Stdout,
    /// Standard error.
    Stderr,
    /// The report's file.
    File,
}

/// Where a run writes: standard output, standard error and one file.
///
/// Each target has a count of faults, which a call that fails raises by one, up to `2^64 - 1`; a `create` that
/// fails counts for `To::File`.
pub trait Outs {
    ghost view: { Self → OutsView };

    /// Makes the report's file of this name, empty. Where it fails the bytes of the file are as they were.
    fn create(&mut self, name: &Text) -> Result<(), Failed>
        ensures creates { Creates name.now (view self.old) (view self.new) result }
        ensures exact { CreatesIfListed (view self.old) (view self.new) result };

    /// Writes a front of the piece, and answers how many bytes were taken: at least one of a piece that isn't empty.
    /// A write that fails takes nothing, and no call changes another target.
    fn write(&mut self, to: To, piece: &[u8]) -> Result<usize, Failed>
        requires { CanTake to (view self.old) }
        ensures writes { Writes to piece.now (view self.old) (view self.new) result }
        ensures exact { WritesIfListed to piece.now (view self.old) (view self.new) result };
}
