ghost use Rattle.std.specs.Prelude.{◌≡◌};
ghost use Rattle.ga_store.specs.Steps.Starts.{answer_of, number_of};

use crate::body_reading::OpenBody;
use crate::found::FirstPart;
use crate::{Db, StoreFault};

/// The start of a side, of which a slice was read.
#[derive(Debug, Drop)]
pub(crate) enum Begun {
    /// Its gate is closed.
    Unused,
    /// No part with a snapshot is there.
    Damaged,
    /// A part was begun.
    Body(OpenBody),
}

impl Begun {
    /// The number of the snapshot, where it was read.
    pub(crate) fn number(&self) -> Option<u64>
        ensures { result ≡ number_of self.now }
    {
        match self {
            Begun::Body(body) => body.reader.generation(),
            _ => None,
        }
    }
}

/// What the start of a side says.
#[derive(Debug, Drop)]
pub(crate) enum Start {
    /// Its gate is closed.
    Unused,
    /// No part with a snapshot is there.
    Damaged,
    /// There is a snapshot, and the other side has a later one.
    Older,
    /// There is this snapshot.
    Snapshot(FirstPart),
}

/// What two sides say.
#[derive(Debug, Drop)]
pub(crate) enum Said {
    Database(Db),
    Damaged { side: u32, at: u64 },
}

impl Said {
    /// What recovery answers then.
    pub(crate) fn answer(self) -> Result<Db, StoreFault>
        ensures { result ≡ answer_of self }
    {
        match self {
            Said::Database(db) => Ok(db),
            Said::Damaged { side, at } => Err(StoreFault::Damaged { side, at }),
        }
    }
}
