ghost use Rattle.std.specs.Prelude.{◌≡◌};
ghost use Rattle.ga_one_run.specs.Statuses.{code_of};
ghost use Rattle.ga_one_run.specs.Steps.Conf.{status_of_conf};
ghost use Rattle.ga_one_run.specs.Steps.Run.{status_of_count, status_of_rules, status_of_store, status_of_words};
ghost use Rattle.ga_one_run.specs.declared.status.Status.TheVariants.{NoMemory as WantsMemory};

use crate::conf::ConfFileFault;
use crate::rules::RulesFault;
use ga_base::{Counter, FormatFault, NoMemory};
use ga_logs::CountFault;
use ga_ports::To;
use ga_resume::PlaceFault;
use ga_store::StoreFault;
use ga_words::WordFault;

/// A file that a run reads.
#[derive(Clone, Copy, Debug, PartialEq, Eq)]
pub enum Input {
    /// The configuration file.
    Conf,
    /// The browsers file.
    Rules,
    /// The log at this place in the list of logs, from 0.
    Log(u64),
}

/// One of the formats that the words say.
#[derive(Clone, Copy, Debug, PartialEq, Eq)]
pub enum Which {
    /// That of lines.
    Log,
    /// That of `%d`.
    Date,
    /// That of `%t`.
    Time,
}

/// How a run ended.
#[derive(Clone, Copy, Debug, PartialEq, Eq)]
pub enum Status {
    /// All logs were read to their sizes, the run was kept where it persists, and all bytes of the report were taken.
    Done,
    /// The words say no settings. The fault is never lack of memory.
    BadWords(WordFault),
    /// The line with this number, from 1, is the first of the configuration file that is no setting.
    BadConf { line: u64 },
    /// That format of the words is refused, and those before it are good. The fault is never lack of memory.
    BadFormat { which: Which, fault: FormatFault },
    /// The line with this number, from 1, is the first of the browsers file that is no rule.
    BadRules { line: u64 },
    /// A call on this file failed.
    FileFault { file: Input },
    /// This file gave no byte at a place below its size.
    FileShort { file: Input, at: u64 },
    /// A call on the disk failed, where the run uses the database.
    DiskFault,
    /// What stands on a side of the disk from this place on is no part of a database.
    DbDamaged { side: u32, at: u64 },
    /// The database keeps another number of days than the run, which restores it.
    KeepDiffers { stored: u32, given: u32 },
    /// The report's target failed after it took this many bytes of the report.
    OutFault { to: To, at: u64 },
    /// A counter would pass its greatest value: it would have this one.
    CounterFull { which: Counter, total: u128 },
    /// Out of memory.
    NoMemory,
}

impl Status {
    /// The exit status of the program (own profile).
    pub fn code(&self) -> u8
        ensures { result ≡ code_of self.now }
    {
        match self {
            Status::Done => 0,
            Status::BadWords(_)
            | Status::BadConf { .. }
            | Status::BadFormat { .. }
            | Status::BadRules { .. } => 1,
            Status::FileFault { .. } | Status::FileShort { .. } => 2,
            Status::DiskFault => 3,
            Status::OutFault { .. } => 4,
            Status::CounterFull { .. } => 5,
            Status::DbDamaged { .. } => 6,
            Status::NoMemory => 7,
            Status::KeepDiffers { .. } => 8,
        }
    }
}

impl From<WordFault> for Status {
    ghost from_gives = { λ fault status. status ≡ status_of_words fault };

    fn from(fault: WordFault) -> Status {
        match fault {
            WordFault::NoMemory => Status::NoMemory,
            _ => Status::BadWords(fault),
        }
    }
}

impl From<ConfFileFault> for Status {
    ghost from_gives = { λ fault status. status ≡ status_of_conf fault };

    fn from(fault: ConfFileFault) -> Status {
        let file = Input::Conf;
        match fault {
            ConfFileFault::Bad { line } => Status::BadConf { line },
            ConfFileFault::Unread(PlaceFault::FileFault) => Status::FileFault { file },
            ConfFileFault::Unread(PlaceFault::FileShort { at }) => Status::FileShort { file, at },
            ConfFileFault::Unread(PlaceFault::NoMemory) => Status::NoMemory,
        }
    }
}

impl From<RulesFault> for Status {
    ghost from_gives = { λ fault status. status ≡ status_of_rules fault };

    fn from(fault: RulesFault) -> Status {
        let file = Input::Rules;
        match fault {
            RulesFault::Bad { line } => Status::BadRules { line },
            RulesFault::Unread(PlaceFault::FileFault) => Status::FileFault { file },
            RulesFault::Unread(PlaceFault::FileShort { at }) => Status::FileShort { file, at },
            RulesFault::Unread(PlaceFault::NoMemory) => Status::NoMemory,
        }
    }
}

impl From<CountFault> for Status {
    ghost from_gives = { λ fault status. status ≡ status_of_count fault };

    fn from(fault: CountFault) -> Status {
        match fault {
            CountFault::Failed { place } => Status::FileFault {
                file: Input::Log(place),
            },
            CountFault::Short { place, at } => Status::FileShort {
                file: Input::Log(place),
                at,
            },
            CountFault::Full { which, total } => Status::CounterFull { which, total },
            CountFault::NoMemory => Status::NoMemory,
        }
    }
}

impl From<StoreFault> for Status {
    ghost from_gives = { λ fault status. status ≡ status_of_store fault };

    fn from(fault: StoreFault) -> Status {
        match fault {
            StoreFault::DiskFault => Status::DiskFault,
            StoreFault::Damaged { side, at } => Status::DbDamaged { side, at },
            StoreFault::CounterFull { which, total } => Status::CounterFull { which, total },
            StoreFault::NoMemory => Status::NoMemory,
        }
    }
}

impl From<NoMemory> for Status {
    ghost from_gives = { λ _ status. status ≡ WantsMemory };

    fn from(_: NoMemory) -> Status {
        Status::NoMemory
    }
}
