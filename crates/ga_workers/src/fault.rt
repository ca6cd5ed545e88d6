ghost use Rattle.std.specs.Prelude.{◌≡◌};
ghost use Rattle.ga_workers.specs.declared.fault.PoolFault.TheVariants.{NoMemory as WantOfMemory};

use ga_base::{Counter, NoMemory};

/// Why a batch isn't counted.
#[derive(Clone, Copy, Debug, PartialEq, Eq)]
pub enum PoolFault {
    /// The counter would pass `LIMIT` at one of the lines: it would have this value.
    CounterFull { which: Counter, total: u128 },
    /// Out of memory.
    NoMemory,
}

impl From<NoMemory> for PoolFault {
    ghost from_gives = { λ _ fault. fault ≡ WantOfMemory };

    fn from(_: NoMemory) -> PoolFault {
        PoolFault::NoMemory
    }
}
