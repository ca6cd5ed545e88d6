ghost use Rattle.std.specs.Prelude.{◌≡◌};
ghost use Rattle.ga_logs.specs.Steps.Logs.{fault_of_counting, fault_of_full, fault_of_log};
ghost use Rattle.ga_logs.specs.declared.fault.CountFault.TheVariants.{NoMemory as WantsMemory};

use crate::full::{CountingFault, Full};
use ga_base::{Counter, NoMemory};
use ga_resume::PlaceFault;

/// Why logs weren't counted.
#[derive(Clone, Copy, Debug, PartialEq, Eq)]
pub enum CountFault {
    /// A call on the log at this place failed, from 0.
    Failed { place: u64 },
    /// The log at this place gave no byte at a place below its size.
    Short { place: u64, at: u64 },
    /// A counter would pass its greatest value: it would have this one.
    Full { which: Counter, total: u128 },
    /// Out of memory.
    NoMemory,
}

impl CountFault {
    /// The fault of the log at this place.
    pub(crate) fn of_log(place: u64, fault: PlaceFault) -> CountFault
        ensures { result ≡ fault_of_log place fault }
    {
        match fault {
            PlaceFault::FileFault => CountFault::Failed { place },
            PlaceFault::FileShort { at } => CountFault::Short { place, at },
            PlaceFault::NoMemory => CountFault::NoMemory,
        }
    }
}

impl From<Full> for CountFault {
    ghost from_gives = { λ full e. e ≡ fault_of_full full };

    fn from(full: Full) -> CountFault {
        let Full { which, total } = full;
        CountFault::Full { which, total }
    }
}

impl From<CountingFault> for CountFault {
    ghost from_gives = { λ fault e. e ≡ fault_of_counting fault };

    fn from(fault: CountingFault) -> CountFault {
        match fault {
            CountingFault::Full(full) => CountFault::from(full),
            CountingFault::NoMemory => CountFault::NoMemory,
        }
    }
}

impl From<NoMemory> for CountFault {
    ghost from_gives = { λ _ e. e ≡ WantsMemory };

    fn from(_: NoMemory) -> CountFault {
        CountFault::NoMemory
    }
}
