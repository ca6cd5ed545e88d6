ghost use Rattle.std.specs.Prelude.{◌≡◌};
ghost use Rattle.ga_agents.specs.declared.fault.RuleFault.TheVariants.{NoMemory as RuleNoMemory};

use ga_base::NoMemory;
use std::error::Error;
use std::fmt;

/// Why a browsers file gives no rules.
#[derive(Clone, Copy, Debug, PartialEq, Eq)]
pub enum RuleFault {
    /// The first line that is no rule, no comment and not empty, or is too long. Lines count from 1.
    RuleFault { line: u64 },
    /// Out of memory.
    NoMemory,
}

impl fmt::Display for RuleFault {
    ghost use Rattle.std.specs.Prelude.{Some};
    ghost use Rattle.ga_agents.specs.RulesFile.{fault_text};

    ghost output = { λ fault. Some (fault_text fault) };

    fn fmt<W: fmt::Write>(&self, f: &mut fmt::Formatter<W>) -> fmt::Result {
        match self {
            RuleFault::RuleFault { line } => write!(f, "line {line}: not a rule"),
            RuleFault::NoMemory => f.write_str("no memory"),
        }
    }
}

impl Error for RuleFault {}

impl From<NoMemory> for RuleFault {
    ghost from_gives = { λ _ e. e ≡ RuleNoMemory };

    fn from(_: NoMemory) -> RuleFault {
        RuleFault::NoMemory
    }
}
