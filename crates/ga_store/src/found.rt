ghost use Rattle.std.specs.Prelude.{◌≤◌};
ghost use Rattle.ga_base.specs.declared.counts.TheConstants.{LIMIT};

use ga_codec::{Delta, Snapshot};

/// The snapshot at the start of a side, and the place of the gate after it.
#[derive(Debug, Drop)]
pub(crate) struct FirstPart {
    pub(crate) snapshot: Snapshot,
    pub(crate) next: u64,
    ghost numbered: { snapshot.generation ≤ LIMIT },
}

/// A run record on a side, and the place of the gate after it.
#[derive(Debug, Drop)]
pub(crate) struct RecordPart {
    pub(crate) delta: Delta,
    pub(crate) next: u64,
}
