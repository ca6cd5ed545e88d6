ghost use Rattle.std.specs.Prelude.{◌≡◌};
ghost use Rattle.ga_codec.specs.declared.fault.CodecFault.TheVariants.{NoMemory as CodecNoMemory};

use ga_base::NoMemory;
use std::alloc::{AllocError, AllocFailed};
use thiserror::Error;

/// Why bytes can't be read.
#[derive(Clone, Copy, Debug, PartialEq, Eq, Error)]
pub enum CodecFault {
    /// No value has these bytes. They begin one up to this place and no further; where all of them do, the place is their
    /// number.
    #[error("byte {at}: not in the grammar")]
    NotInGrammar { at: u64 },
    /// Out of memory.
    #[error("no memory")]
    NoMemory,
}

impl From<NoMemory> for CodecFault {
    ghost from_gives = { λ _ e. e ≡ CodecNoMemory };

    fn from(_: NoMemory) -> CodecFault {
        CodecFault::NoMemory
    }
}

impl From<AllocError> for CodecFault {
    ghost from_gives = { λ _ e. e ≡ CodecNoMemory };

    fn from(_: AllocError) -> CodecFault {
        CodecFault::NoMemory
    }
}

impl<T: Drop> From<AllocFailed<T>> for CodecFault {
    ghost from_gives = { λ _ e. e ≡ CodecNoMemory };

    fn from(_: AllocFailed<T>) -> CodecFault {
        CodecFault::NoMemory
    }
}
