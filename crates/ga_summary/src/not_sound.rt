ghost use Rattle.std.specs.Prelude.{◌≡◌, Some};
ghost use Rattle.ga_summary.specs.Faults.{not_sound_line};
ghost use Rattle.ga_summary.specs.declared.not_sound.NotSound.TheVariants.{NoMemory as NotSoundNoMemory};

use ga_base::NoMemory;
use std::alloc::{AllocError, AllocFailed};
use std::error::Error;
use std::fmt;

/// Why parts make no summary.
#[derive(Clone, Copy, Debug, PartialEq, Eq)]
pub enum NotSound {
    /// With the row at this place, from 0, the rows are no longer in order and sound; or this is the number of rows,
    /// which are, and the totals don't go with them.
    NotSound { at: u64 },
    /// Out of memory.
    NoMemory,
}

impl fmt::Display for NotSound {
    ghost output = { λ fault. Some (not_sound_line fault) };

    fn fmt<W: fmt::Write>(&self, f: &mut fmt::Formatter<W>) -> fmt::Result {
        match self {
            NotSound::NotSound { at } => write!(f, "not sound at row {at}"),
            NotSound::NoMemory => f.write_str("no memory"),
        }
    }
}

impl Error for NotSound {}

impl From<NoMemory> for NotSound {
    ghost from_gives = { λ _ e. e ≡ NotSoundNoMemory };

    fn from(_: NoMemory) -> NotSound {
        NotSound::NoMemory
    }
}

impl From<AllocError> for NotSound {
    ghost from_gives = { λ _ e. e ≡ NotSoundNoMemory };

    fn from(_: AllocError) -> NotSound {
        NotSound::NoMemory
    }
}

impl<T: Drop> From<AllocFailed<T>> for NotSound {
    ghost from_gives = { λ _ e. e ≡ NotSoundNoMemory };

    fn from(_: AllocFailed<T>) -> NotSound {
        NotSound::NoMemory
    }
}
