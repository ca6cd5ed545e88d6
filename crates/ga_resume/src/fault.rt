ghost use Rattle.std.specs.Prelude.{◌≡◌};
ghost use Rattle.ga_resume.specs.declared.fault.PlaceFault.TheVariants.{FileFault, NoMemory as WantsMemory};

use ga_base::NoMemory;
use ga_ports::Failed;
use std::alloc::{AllocError, AllocFailed};
use thiserror::Error;

/// Why a part of the open file couldn't be read.
#[derive(Clone, Copy, Debug, PartialEq, Eq, Error)]
pub enum PlaceFault {
    /// A call failed.
    #[error("a call failed")]
    FileFault,
    /// No byte came at this place, which is below the size.
    #[error("no byte at {at}")]
    FileShort { at: u64 },
    /// Out of memory.
    #[error("no memory")]
    NoMemory,
}

impl From<Failed> for PlaceFault {
    ghost from_gives = { λ _ e. e ≡ FileFault };

    fn from(_: Failed) -> PlaceFault {
        PlaceFault::FileFault
    }
}

impl From<NoMemory> for PlaceFault {
    ghost from_gives = { λ _ e. e ≡ WantsMemory };

    fn from(_: NoMemory) -> PlaceFault {
        PlaceFault::NoMemory
    }
}

impl From<AllocError> for PlaceFault {
    ghost from_gives = { λ _ e. e ≡ WantsMemory };

    fn from(_: AllocError) -> PlaceFault {
        PlaceFault::NoMemory
    }
}

impl<T: Drop> From<AllocFailed<T>> for PlaceFault {
    ghost from_gives = { λ _ e. e ≡ WantsMemory };

    fn from(_: AllocFailed<T>) -> PlaceFault {
        PlaceFault::NoMemory
    }
}
