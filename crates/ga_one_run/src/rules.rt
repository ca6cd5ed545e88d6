ghost use Rattle.std.specs.Prelude.{◌≢◌, Some, IfOk, IfErr};
ghost use Rattle.ga_ports.specs.Trace.{FilesTrace};
ghost use Rattle.std.specs.Option.{option_copied};
ghost use Rattle.ga_logs.specs.Following.{CanServe, CanServeOne};
ghost use Rattle.ga_one_run.specs.Course.{HasRules};
ghost use Rattle.ga_one_run.specs.Inputs.{rules_file};
ghost use Rattle.ga_one_run.specs.Steps.Rules.{StopsNamed, StopsRules};
ghost use Rattle.ga_resume.specs.declared.fault.PlaceFault.TheVariants.{FileFault};
ghost use Rattle.ga_one_run.specs.declared.rules.RulesFault.TheVariants.{Unread};

use ga_agents::{RuleFault, Rules};
use ga_base::{Entries, Text};
use ga_logs::read_portion;
use ga_ports::Files;
use ga_resume::{Follow, PlaceFault};
use std::alloc::Global;

/// Why the rules of a browsers file weren't read.
#[derive(Clone, Copy, Debug, PartialEq, Eq)]
pub enum RulesFault {
    /// The file wasn't read whole, or there was no memory for its rules.
    Unread(PlaceFault),
    /// The line with this number, from 1, is the first that is no rule.
    Bad { line: u64 },
}

/// The rules of a browsers file, and the built-in ones alone where none is named.
pub fn rules_of<F: Files>(
    alloc: Global,
    name: Option<&Text>,
    files: &mut F,
) -> Result<Rules, RulesFault>
    ensures ok { IfOk result (HasRules (option_copied name.entry) (F.view files.old) (F.view files.new)) }
    ensures stops { IfErr result (StopsNamed (option_copied name.entry) (F.view files.old) (F.view files.new)) }
    ensures calls { FilesTrace (F.view files.old) (F.view files.new) }
    ensures sure { CanServe (rules_file (option_copied name.entry)) (F.view files.old) → IfErr result (λ fault. fault ≢ Unread FileFault) }
{
    match name {
        Some(name) => read_rules(alloc, name, files),
        None => Ok(Rules::builtin(alloc)),
    }
}

/// The rules of a browsers file.
fn read_rules<F: Files>(alloc: Global, name: &Text, files: &mut F) -> Result<Rules, RulesFault>
    ensures ok { IfOk result (λ rules. HasRules (Some name.now) (F.view files.old) (F.view files.new) rules) }
    ensures stops { IfErr result (StopsRules name.now (F.view files.old) (F.view files.new)) }
    ensures calls { FilesTrace (F.view files.old) (F.view files.new) }
    ensures sure { CanServeOne name.now (F.view files.old) → IfErr result (λ fault. fault ≢ Unread FileFault) }
{
    let none = Entries::new(alloc);
    let text = match read_portion(alloc, Follow::Whole, &none, name, files) {
        Ok(text) => text,
        Err(fault) => return Err(RulesFault::Unread(fault)),
    };
    match Rules::read(alloc, text.bytes.bytes()) {
        Ok(rules) => Ok(rules),
        Err(RuleFault::RuleFault { line }) => Err(RulesFault::Bad { line }),
        Err(RuleFault::NoMemory) => Err(RulesFault::Unread(PlaceFault::NoMemory)),
    }
}
