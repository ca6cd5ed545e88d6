ghost use Rattle.std.specs.Prelude.{◌++◌, ℕ, List, [], OnOk};
ghost use Rattle.sha2.specs.Hashers.{Holds256};
ghost use Rattle.ga_store.specs.Steps.SideParts.{DigestsAll, HoldsBytes};

use ga_base::NoMemory;
use sha2::{Digest, Sha256};
use std::alloc::Global;

/// The digest of the bytes that were read of a body, of which the last wait for it.
#[derive(Debug, Drop)]
pub(crate) struct BodyDigest {
    /// The digest of those before them.
    pub(crate) hasher: Sha256,
    /// Bytes that were read and aren't digested yet, or that were digested last.
    pub(crate) waiting: Vec<u8>,
}

impl BodyDigest {
    /// The digest of no bytes.
    pub(crate) fn new(alloc: Global) -> BodyDigest
        ensures { HoldsBytes result [] }
    {
        BodyDigest {
            hasher: Sha256::new(),
            waiting: Vec::new(alloc),
        }
    }

    /// Digests the bytes that wait.
    pub(crate) fn digest_waiting(&mut self)
        ensures { DigestsAll self.old self.new }
    {
        self.hasher.update(self.waiting.as_slice());
    }

    /// Keeps bytes that wait, after all others were digested.
    pub(crate) fn keep(&mut self, bytes: &[u8]) -> Result<(), NoMemory>
        ensures { OnOk result ((before : List ℕ) → Holds256 self.old.hasher before → HoldsBytes self.new (before ++ bytes.now)) }
    {
        self.waiting.clear();
        self.waiting.extend_from_slice(bytes)?;
        Ok(())
    }

    /// The digest of all, and of the bytes that follow.
    pub(crate) fn finish(self, rest: &[u8]) -> Sha256
        ensures { (bytes : List ℕ) → HoldsBytes self bytes → Holds256 result (bytes ++ rest.now) }
    {
        let BodyDigest {
            mut hasher,
            waiting,
        } = self;
        hasher.update(waiting.as_slice());
        hasher.update(rest);
        hasher
    }
}
