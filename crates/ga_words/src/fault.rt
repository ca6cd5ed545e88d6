ghost use Rattle.std.specs.Prelude.{◌≡◌};
ghost use Rattle.ga_words.specs.declared.fault.WordFault.TheVariants.{NoMemory as WordNoMemory};

use ga_base::NoMemory;
use std::alloc::{AllocError, AllocFailed};
use std::error::Error;
use std::fmt;

/// Why words give no settings. Places of words count from 0.
#[derive(Clone, Copy, Debug, PartialEq, Eq)]
pub enum WordFault {
    /// The word at this place begins with a dash and names no option.
    UnknownOption { at: u64 },
    /// The option at this place takes a value, and no word follows.
    MissingValue { at: u64 },
    /// The word at this place holds a value that its option doesn't take, or is a log without a name.
    BadValue { at: u64 },
    /// A log is named and no log format is given.
    NoFormat,
    /// No log is named, and neither the database nor the generator gives lines.
    NoInput,
    /// `--generate`, which stands last at this place, stands with a log, `--persist` or `--restore`.
    Conflict { at: u64 },
    /// Out of memory.
    NoMemory,
}

impl fmt::Display for WordFault {
    ghost use Rattle.std.specs.Prelude.{Some};
    ghost use Rattle.ga_words.specs.WordsOf.{fault_text};

    ghost output = { λ fault. Some (fault_text fault) };

    fn fmt<W: fmt::Write>(&self, f: &mut fmt::Formatter<W>) -> fmt::Result {
        match self {
            WordFault::UnknownOption { at } => write!(f, "word {at}: unknown option"),
            WordFault::MissingValue { at } => write!(f, "word {at}: value missing"),
            WordFault::BadValue { at } => write!(f, "word {at}: bad value"),
            WordFault::NoFormat => f.write_str("no log format"),
            WordFault::NoInput => f.write_str("no input"),
            WordFault::Conflict { at } => write!(f, "word {at}: conflict"),
            WordFault::NoMemory => f.write_str("no memory"),
        }
    }
}

impl Error for WordFault {}

impl From<NoMemory> for WordFault {
    ghost from_gives = { λ _ e. e ≡ WordNoMemory };

    fn from(_: NoMemory) -> WordFault {
        WordFault::NoMemory
    }
}

impl From<AllocError> for WordFault {
    ghost from_gives = { λ _ e. e ≡ WordNoMemory };

    fn from(_: AllocError) -> WordFault {
        WordFault::NoMemory
    }
}

impl<T: Drop> From<AllocFailed<T>> for WordFault {
    ghost from_gives = { λ _ e. e ≡ WordNoMemory };

    fn from(_: AllocFailed<T>) -> WordFault {
        WordFault::NoMemory
    }
}
