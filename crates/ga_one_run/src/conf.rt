ghost use Rattle.std.specs.Prelude.{◌≢◌, IfOk, IfErr};
ghost use Rattle.ga_logs.specs.Following.{CanServeOne};
ghost use Rattle.ga_ports.specs.Trace.{FilesTrace};
ghost use Rattle.ga_resume.specs.declared.fault.PlaceFault.TheVariants.{FileFault};
ghost use Rattle.ga_words.specs.Joined.{AreConfWords};
ghost use Rattle.ga_one_run.specs.Configured.{HasConf};
ghost use Rattle.ga_one_run.specs.Steps.Conf.{MissesConf};
ghost use Rattle.ga_one_run.specs.declared.conf.ConfFileFault.TheVariants.{Unread};

use ga_base::{Entries, Text, Texts};
use ga_conf::{ConfFault, read_conf};
use ga_logs::read_portion;
use ga_ports::Files;
use ga_resume::{Follow, PlaceFault};
use std::alloc::Global;

/// Why the words of a configuration file weren't read.
#[derive(Clone, Copy, Debug, PartialEq, Eq)]
pub enum ConfFileFault {
    /// The file wasn't read whole, or there was no memory for its words.
    Unread(PlaceFault),
    /// The line with this number, from 1, is the first that is no setting.
    Bad { line: u64 },
}

/// The words of a configuration file, which is read whole.
pub fn conf_of<F: Files>(alloc: Global, name: &Text, files: &mut F) -> Result<Texts, ConfFileFault>
    ensures ok { IfOk result (HasConf name.now (F.view files.old) (F.view files.new)) }
    ensures units { IfOk result AreConfWords }
    ensures stops { IfErr result (MissesConf name.now (F.view files.old) (F.view files.new)) }
    ensures calls { FilesTrace (F.view files.old) (F.view files.new) }
    ensures sure { CanServeOne name.now (F.view files.old) → IfErr result (λ fault. fault ≢ Unread FileFault) }
{
    let none = Entries::new(alloc);
    let text = match read_portion(alloc, Follow::Whole, &none, name, files) {
        Ok(text) => text,
        Err(fault) => return Err(ConfFileFault::Unread(fault)),
    };
    match read_conf(alloc, text.bytes.bytes()) {
        Ok(words) => Ok(words),
        Err(ConfFault::BadConf { line }) => Err(ConfFileFault::Bad { line }),
        Err(ConfFault::NoMemory) => Err(ConfFileFault::Unread(PlaceFault::NoMemory)),
    }
}
