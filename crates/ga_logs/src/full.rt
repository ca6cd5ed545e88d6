ghost use Rattle.std.specs.Prelude.{◌≡◌};
ghost use Rattle.ga_logs.specs.declared.full.CountingFault.TheVariants.{NoMemory as WantOfMemory};

use ga_base::{Counter, NoMemory};

/// A counter that would pass its greatest value.
#[derive(Clone, Copy, Debug, PartialEq, Eq)]
pub(crate) struct Full {
    /// Which one.
    pub(crate) which: Counter,
    /// The value that it would have.
    pub(crate) total: u128,
}

/// Why there is no sum.
#[derive(Clone, Copy, Debug, PartialEq, Eq)]
pub(crate) enum CountingFault {
    /// The lines fill a counter.
    Full(Full),
    /// Out of memory.
    NoMemory,
}

impl From<NoMemory> for CountingFault {
    ghost from_gives = { λ _ fault. fault ≡ WantOfMemory };

    fn from(_: NoMemory) -> CountingFault {
        CountingFault::NoMemory
    }
}
