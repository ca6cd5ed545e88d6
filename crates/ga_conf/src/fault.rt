ghost use Rattle.std.specs.Prelude.{◌≡◌};
ghost use Rattle.ga_conf.specs.declared.fault.ConfFault.TheVariants.{NoMemory as ConfNoMemory};

use ga_base::NoMemory;
use std::error::Error;
use std::fmt;

/// Why a configuration file gives no words.
#[derive(Clone, Copy, Debug, PartialEq, Eq)]
pub enum ConfFault {
    /// The first line that is no setting, or is too long. Lines count from 1.
    BadConf { line: u64 },
    /// Out of memory.
    NoMemory,
}

impl fmt::Display for ConfFault {
    ghost use Rattle.std.specs.Prelude.{Some};
    ghost use Rattle.ga_conf.specs.ConfFile.{fault_text};

    ghost output = { λ fault. Some (fault_text fault) };

    fn fmt<W: fmt::Write>(&self, f: &mut fmt::Formatter<W>) -> fmt::Result {
        match self {
            ConfFault::BadConf { line } => write!(f, "line {line}: not a setting"),
            ConfFault::NoMemory => f.write_str("no memory"),
        }
    }
}

impl Error for ConfFault {}

impl From<NoMemory> for ConfFault {
    ghost from_gives = { λ _ e. e ≡ ConfNoMemory };

    fn from(_: NoMemory) -> ConfFault {
        ConfFault::NoMemory
    }
}
