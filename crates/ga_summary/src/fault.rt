ghost use Rattle.std.specs.Prelude.{◌≡◌, Some};
ghost use Rattle.ga_summary.specs.Faults.{counter_name, fault_line};
ghost use Rattle.ga_summary.specs.declared.fault.MergeFault.TheVariants.{NoMemory as MergeNoMemory};

use ga_base::{Counter, NoMemory};
use std::alloc::{AllocError, AllocFailed};
use std::error::Error;
use std::fmt;

/// Why summaries aren't merged. The summary is as it was.
#[derive(Clone, Copy, Debug, PartialEq, Eq)]
pub enum MergeFault {
    /// The counter would pass `LIMIT`: it would have this value.
    CounterFull { which: Counter, total: u128 },
    /// Out of memory.
    NoMemory,
}

/// What a counter counts.
fn counter_name(which: Counter) -> &'static str
    ensures { result.now ≡ counter_name which }
{
    match which {
        Counter::Lines => "lines",
        Counter::Bytes => "bytes",
        Counter::Micros => "microseconds",
        Counter::Generations => "generations",
    }
}

impl fmt::Display for MergeFault {
    ghost output = { λ fault. Some (fault_line fault) };

    fn fmt<W: fmt::Write>(&self, f: &mut fmt::Formatter<W>) -> fmt::Result {
        match self {
            MergeFault::CounterFull { which, total } => {
                write!(f, "{} would be {}", counter_name(*which), total)
            }
            MergeFault::NoMemory => write!(f, "no memory"),
        }
    }
}

impl Error for MergeFault {}

impl From<NoMemory> for MergeFault {
    ghost from_gives = { λ _ e. e ≡ MergeNoMemory };

    fn from(_: NoMemory) -> MergeFault {
        MergeFault::NoMemory
    }
}

impl From<AllocError> for MergeFault {
    ghost from_gives = { λ _ e. e ≡ MergeNoMemory };

    fn from(_: AllocError) -> MergeFault {
        MergeFault::NoMemory
    }
}

impl<T: Drop> From<AllocFailed<T>> for MergeFault {
    ghost from_gives = { λ _ e. e ≡ MergeNoMemory };

    fn from(_: AllocFailed<T>) -> MergeFault {
        MergeFault::NoMemory
    }
}
