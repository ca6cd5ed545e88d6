ghost use Rattle.std.specs.Prelude.{◌≡◌};
ghost use Rattle.ga_tallies.specs.declared.fault.TallyFault.TheVariants.{NoMemory as WantOfMemory};

use ga_base::NoMemory;

/// Why a tally stopped counting. It is then of no use, and may only be dropped.
#[derive(Clone, Copy, Debug, PartialEq, Eq)]
pub enum TallyFault {
    /// A counter of this tally alone would pass `LIMIT`.
    Full,
    /// Out of memory.
    NoMemory,
}

impl From<NoMemory> for TallyFault {
    ghost from_gives = { λ _ fault. fault ≡ WantOfMemory };

    fn from(_: NoMemory) -> TallyFault {
        TallyFault::NoMemory
    }
}
