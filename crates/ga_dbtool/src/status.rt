ghost use Rattle.std.specs.Prelude.{◌≡◌};
ghost use Rattle.ga_dbtool.specs.Statuses.{code_of};
ghost use Rattle.ga_dbtool.specs.Steps.Parts.{status_of_merge, status_of_store};
ghost use Rattle.ga_dbtool.specs.declared.status.DbStatus.TheVariants.{NoMemory as WantsMemory};

use ga_base::{Counter, NoMemory};
use ga_ports::To;
use ga_store::StoreFault;
use ga_summary::MergeFault;

/// How a run of the tool ended.
#[derive(Clone, Copy, Debug, PartialEq, Eq)]
pub enum DbStatus {
    /// All bytes of the text were taken.
    Done,
    /// The words are none of the three forms: this is the first that no form has there, from 0.
    BadWords { at: u64 },
    /// A call on the disk of this database failed: 0 for DIR, 1 for OTHER.
    DiskFault { db: u32 },
    /// The target failed after it took this many bytes of the text.
    OutFault { to: To, at: u64 },
    /// A counter would pass its greatest value: it would have this one.
    CounterFull { which: Counter, total: u128 },
    /// What stands on a side of this database from this place on is no part of one.
    DbDamaged { db: u32, side: u32, at: u64 },
    /// Out of memory.
    NoMemory,
    /// DIR keeps the first number of days, and OTHER the second one.
    KeepDiffers { stored: u32, given: u32 },
    /// The entries at these places of DIR and of OTHER are of one log.
    SharedEntry { left: u64, right: u64 },
}

impl DbStatus {
    /// The exit status of the program (own profile).
    pub fn code(&self) -> u8
        ensures { result ≡ code_of self.now }
    {
        match self {
            DbStatus::Done => 0,
            DbStatus::BadWords { .. } => 1,
            DbStatus::DiskFault { .. } => 3,
            DbStatus::OutFault { .. } => 4,
            DbStatus::CounterFull { .. } => 5,
            DbStatus::DbDamaged { .. } => 6,
            DbStatus::NoMemory => 7,
            DbStatus::KeepDiffers { .. } => 8,
            DbStatus::SharedEntry { .. } => 9,
        }
    }

    /// The status of a run that ends for a fault of this one of its databases.
    pub(crate) fn of_store(db: u32, fault: StoreFault) -> DbStatus
        ensures { result ≡ status_of_store db fault }
    {
        match fault {
            StoreFault::DiskFault => DbStatus::DiskFault { db },
            StoreFault::Damaged { side, at } => DbStatus::DbDamaged { db, side, at },
            StoreFault::CounterFull { which, total } => DbStatus::CounterFull { which, total },
            StoreFault::NoMemory => DbStatus::NoMemory,
        }
    }
}

impl From<NoMemory> for DbStatus {
    ghost from_gives = { λ _ status. status ≡ WantsMemory };

    fn from(_: NoMemory) -> DbStatus {
        DbStatus::NoMemory
    }
}

impl From<MergeFault> for DbStatus {
    ghost from_gives = { λ fault status. status ≡ status_of_merge fault };

    fn from(fault: MergeFault) -> DbStatus {
        match fault {
            MergeFault::CounterFull { which, total } => DbStatus::CounterFull { which, total },
            MergeFault::NoMemory => DbStatus::NoMemory,
        }
    }
}
