ghost use Rattle.std.specs.Prelude.{◌≡◌, ◌⊎◌, ℕ, List, [], Option, Some};
ghost use Rattle.ga_ports.specs.Trace.{OutsTrace};
ghost use Rattle.ga_ports.specs.declared.outs.To.TheVariants.{Stderr};
ghost use Rattle.ga_words.specs.Joined.{AreConfWords, NamesConf};
ghost use Rattle.ga_one_run.specs.Configured.{EndsAtConf, IsRun, RunsAfterConf};
ghost use Rattle.ga_one_run.specs.Configured as spec;
ghost use Rattle.ga_one_run.specs.Outside.{outside_of};
ghost use Rattle.ga_targets.specs.Printing.{ChangesOnly, TakesOrStops};
ghost use Rattle.ga_one_run.specs.Run.{RunsWords};
ghost use Rattle.ga_one_run.specs.Statuses.{fault_line};

use crate::conf::conf_of;
use crate::faults::tell;
use crate::run::{RunContext, failed_name, run_settings};
use crate::{Status, laws};
use ga_base::{Text, Texts};
use ga_disk::Disk;
use ga_logs::laws::read_as_told;
use ga_ports::{Files, Gate, Outs};
use ga_words::laws::{joined_words, one_scan};
use ga_words::{join_words, scan_words};
use std::alloc::Global;
use std::thread::Threads;

/// What runs: threads, the gate that their workers pass, and memory.
#[derive(Drop)]
struct Worker<'a, R, G> {
    rt: &'a R,
    gate: &'a G,
    alloc: Global,
}

/// Runs goaccess over the words of a command line, without the program's name.
///
/// The configuration file is read first, where the words name one, and its words stand before these; a word that is at fault by
/// itself is refused before that, and what is wrong with all of them as a whole after it. Then the browsers file is read, where
/// one is named; then the database is recovered, where it is used, and the logs are counted in their order, each opened once.
/// With `--persist` the run is kept; then the report goes where `-o` says. With any status but `Done` a fault line goes to
/// standard error. Lines are counted by as many threads as `--jobs` says; nothing that the run does depends on how many they are,
/// on which of them takes which lines, or on the gate that they ask.
pub fn goaccess_run<R: Threads + Sync, F: Files, D: Disk, O: Outs, G: Gate>(
    rt: &R,
    alloc: Global,
    words: &[Text],
    files: &mut F,
    disk: &mut D,
    outs: &mut O,
    gate: &G,
) -> Status
    ensures { IsRun words.now
        (outside_of (F.view files.old) (D.view disk.old) (D.images disk.old) (O.view outs.old))
        (outside_of (F.view files.new) (D.view disk.new) (D.images disk.new) (O.view outs.new)) result }
{
    // What is known of words, formats and lines, for the proof alone: the calls do nothing.
    one_scan();
    joined_words();
    laws::one_outcome();
    read_as_told();
    let worker = Worker { rt, gate, alloc };
    match scan_words(alloc, words) {
        Ok(Some(name)) => run_configured(&worker, &name, words, files, disk, outs),
        Ok(None) => {
            let conf = Texts::new(alloc);
            run_joined(&worker, &conf, words, files, disk, outs)
        }
        Err(bad) => refuse(Status::from(bad), outs),
    }
}

/// Runs over words that name a configuration file, which is read first.
fn run_configured<R: Threads + Sync, F: Files, D: Disk, O: Outs, G: Gate>(
    worker: &Worker<'_, R, G>,
    name: &Text,
    words: &[Text],
    files: &mut F,
    disk: &mut D,
    outs: &mut O,
) -> Status
    requires { NamesConf words.now (Some name.now) }
    ensures { RunsAfterConf name.now words.now
        (outside_of (F.view files.old) (D.view disk.old) (D.images disk.old) (O.view outs.old))
        (outside_of (F.view files.new) (D.view disk.new) (D.images disk.new) (O.view outs.new)) result
        ⊎ EndsAtConf name.now
        (outside_of (F.view files.old) (D.view disk.old) (D.images disk.old) (O.view outs.old))
        (outside_of (F.view files.new) (D.view disk.new) (D.images disk.new) (O.view outs.new)) result }
{
    match conf_of(worker.alloc, name, files) {
        Ok(conf) => run_joined(worker, &conf, words, files, disk, outs),
        Err(fault) => {
            let status = Status::from(fault);
            tell(outs, conf_name(name, &status), &status);
            status
        }
    }
}

/// What the fault line of a status calls a configuration file that failed.
fn conf_name<'a>(name: &'a Text, status: &Status) -> &'a [u8]
    ensures { result.now ≡ spec.conf_name name.now status.now }
{
    match status {
        Status::FileFault { .. } | Status::FileShort { .. } => name.bytes(),
        _ => b"",
    }
}

/// Says why words are refused of which none was read as a setting.
fn refuse<O: Outs>(status: Status, outs: &mut O) -> Status
    ensures status { result ≡ status }
    ensures line { TakesOrStops (fault_line [] status) (O.view outs.old).stderr (O.view outs.new).stderr }
    ensures others { ChangesOnly Stderr (O.view outs.old) (O.view outs.new) }
    ensures calls { OutsTrace (O.view outs.old) (O.view outs.new) }
{
    tell(outs, b"", &status);
    status
}

/// Runs over the words of a configuration file, which may be none, and then those of the command line.
fn run_joined<R: Threads + Sync, F: Files, D: Disk, O: Outs, G: Gate>(
    worker: &Worker<'_, R, G>,
    conf: &Texts,
    words: &[Text],
    files: &mut F,
    disk: &mut D,
    outs: &mut O,
) -> Status
    requires conf { AreConfWords conf.now }
    requires words { (name : Option (List ℕ)) × NamesConf words.now name }
    ensures { RunsWords conf.now words.now
        (outside_of (F.view files.old) (D.view disk.old) (D.images disk.old) (O.view outs.old))
        (outside_of (F.view files.new) (D.view disk.new) (D.images disk.new) (O.view outs.new)) result }
{
    // What is known of words, formats and lines, for the proof alone: the calls do nothing.
    laws::one_outcome();
    read_as_told();
    joined_words();
    match join_words(worker.alloc, conf, words) {
        Err(fault) => refuse(Status::from(fault), outs),
        Ok(settings) => {
            let context = RunContext {
                rt: worker.rt,
                gate: worker.gate,
                alloc: worker.alloc,
                settings: &settings,
            };
            let status = run_settings(&context, files, disk, outs);
            tell(outs, failed_name(&settings, &status), &status);
            status
        }
    }
}
