ghost use Rattle.std.specs.Prelude.{◌≡◌};
ghost use Rattle.ga_store.specs.declared.fault.StoreFault.TheVariants.{DiskFault, NoMemory as StoreNoMemory};

use ga_base::{Counter, NoMemory};
use ga_ports::Failed;
use std::alloc::AllocError;
use thiserror::Error;

/// Why the store refuses.
#[derive(Clone, Copy, Debug, PartialEq, Eq, Error)]
pub enum StoreFault {
    /// A call of the disk failed.
    #[error("device failed")]
    DiskFault,
    /// What stands on a side from this place on is no part of a database.
    #[error("side {side} damaged at {at}")]
    Damaged { side: u32, at: u64 },
    /// A counter would pass its greatest value.
    #[error("counter full: {total}")]
    CounterFull { which: Counter, total: u128 },
    /// Memory ran out.
    #[error("no memory")]
    NoMemory,
}

impl From<Failed> for StoreFault {
    ghost from_gives = { λ _ fault. fault ≡ DiskFault };

    fn from(_: Failed) -> StoreFault {
        StoreFault::DiskFault
    }
}

impl From<NoMemory> for StoreFault {
    ghost from_gives = { λ _ fault. fault ≡ StoreNoMemory };

    fn from(_: NoMemory) -> StoreFault {
        StoreFault::NoMemory
    }
}

impl From<AllocError> for StoreFault {
    ghost from_gives = { λ _ fault. fault ≡ StoreNoMemory };

    fn from(_: AllocError) -> StoreFault {
        StoreFault::NoMemory
    }
}
