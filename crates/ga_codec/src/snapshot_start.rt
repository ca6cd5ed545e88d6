ghost use Rattle.std.specs.Prelude.{◌≡◌, ◌∷◌, [], Bool, MatchOption};
ghost use Rattle.ga_codec.specs.Steps.Grammar.{bytes_of_version, generation, keep_of, snapshot_start, snapshot_version, version};
ghost use Rattle.ga_codec.specs.Steps.Parts.{Reads};
ghost use Rattle.ga_codec.specs.Steps.Pieces.{start};

use crate::CodecFault;
use crate::cursor::Cursor;

/// The version of a run record, and of a snapshot that doesn't say how many days it keeps.
pub(crate) const VERSION: u8 = 1;

/// The version of a snapshot that says how many days it keeps.
pub(crate) const KEEP_VERSION: u8 = 2;

/// The greatest first byte of a generation, that of `LIMIT`.
const MOST_FIRST: u8 = 0x3F;

/// What a snapshot says before its summary. A run record says nothing there.
#[derive(Clone, Copy, Debug)]
pub(crate) struct Start {
    /// The number of a snapshot, 0 in a run record.
    pub(crate) generation: u64,
    /// How many of the last days a snapshot keeps, where it says so.
    pub(crate) keep: Option<u32>,
}

/// Whether a snapshot of this version says how many days it keeps.
fn has_keep(version: u8) -> Option<bool>
    ensures { MatchOption result ((has_keep : Bool) → bytes_of_version has_keep ≡ version ∷ [] → ⊥) (λ has_keep. bytes_of_version has_keep ≡ version ∷ []) }
{
    match version {
        VERSION => Some(false),
        KEEP_VERSION => Some(true),
        _ => None,
    }
}

impl<'a> Cursor<'a> {
    /// Reads what is before the summary of a snapshot or of a run record.
    pub(crate) fn read_start(&mut self, is_snapshot: bool) -> Result<Start, CodecFault>
        ensures { Reads (start is_snapshot) (λ s. s) self.old self.new result }
    {
        if is_snapshot {
            return self.read_snapshot_start();
        }
        self.read_version()?;
        Ok(Start {
            generation: 0,
            keep: None,
        })
    }

    /// Reads what is before the summary of a snapshot.
    pub(crate) fn read_snapshot_start(&mut self) -> Result<Start, CodecFault>
        ensures { Reads snapshot_start (λ s. s) self.old self.new result }
    {
        let has_keep = self.read_snapshot_version()?;
        let generation = self.read_generation()?;
        let keep = self.read_keep(has_keep)?;
        Ok(Start { generation, keep })
    }

    /// Reads the version of a run record.
    pub(crate) fn read_version(&mut self) -> Result<(), CodecFault>
        ensures { Reads version (λ v. v) self.old self.new result }
    {
        if self.peek()? != VERSION {
            return Err(self.fault(0));
        }
        self.skip(1);
        Ok(())
    }

    /// Reads the version of a snapshot, and answers whether it says how many days it keeps.
    fn read_snapshot_version(&mut self) -> Result<bool, CodecFault>
        ensures { Reads snapshot_version (λ has_keep. has_keep) self.old self.new result }
    {
        match has_keep(self.peek()?) {
            Some(has_keep) => {
                self.skip(1);
                Ok(has_keep)
            }
            None => Err(self.fault(0)),
        }
    }

    fn read_generation(&mut self) -> Result<u64, CodecFault>
        ensures { Reads generation (λ g. g) self.old self.new result }
    {
        if self.peek()? > MOST_FIRST {
            return Err(self.fault(0));
        }
        let generation = self.read_u64()?;
        if generation == 0 {
            let last = self.place() - 1;
            return Err(CodecFault::NotInGrammar { at: last });
        }
        Ok(generation)
    }

    /// Reads how many days a snapshot keeps, where it says so.
    fn read_keep(&mut self, has_keep: bool) -> Result<Option<u32>, CodecFault>
        ensures { Reads (keep_of has_keep) (λ keep. keep) self.old self.new result }
    {
        if !has_keep {
            return Ok(None);
        }
        let keep = self.read_u32()?;
        Ok(Some(keep))
    }
}
