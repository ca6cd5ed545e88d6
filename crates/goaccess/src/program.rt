ghost use Rattle.std.specs.Prelude.{◌≡◌, IfOk, IfErr};
ghost use Rattle.std.specs.Vec.Iter.{into_iter_items};
ghost use Rattle.std.specs.Process.{exit_status};
ghost use Rattle.goaccess.specs.Program.{EndsOver, EndsWith, Lacks, words_in};
ghost use Rattle.goaccess.specs.Words.{words_line, words_code};
ghost use Rattle.ga_ports.specs.declared.outs.To.TheVariants.{Stderr};
ghost use Rattle.ga_one_run.specs.Outside.{outside_of};
ghost use Rattle.ga_targets.specs.Printing.{ChangesOnly, TakesOrStops};

use crate::answers::{answer_to, show};
use crate::words::{WordsFault, words};
use ga_base::Texts;
use ga_disk::Disk;
use ga_ports::{Files, NoGate, Outs, To};
use ga_run::goaccess_run;
use ga_targets::print;
use std::alloc::Global;
use std::env::Args;
use std::io;
use std::process::ExitCode;
use std::thread::Threads;

/// The program over the arguments of its command line, if they can be had, and over these files, this disk and these
/// targets. The exit status is that of the answer or the run. A run's lines are counted by threads of `rt`.
pub fn program<R: Threads + Sync, F: Files, D: Disk, O: Outs>(
    rt: &R,
    alloc: Global,
    arguments: io::Result<Args>,
    files: &mut F,
    disk: &mut D,
    outs: &mut O,
) -> ExitCode
    ensures over { IfOk arguments (λ given. EndsWith (words_in (into_iter_items given))
        (outside_of (F.view files.old) (D.view disk.old) (D.images disk.old) (O.view outs.old))
        (outside_of (F.view files.new) (D.view disk.new) (D.images disk.new) (O.view outs.new)) (exit_status result)) }
    ensures lacking { IfErr arguments (λ error. Lacks error
        (outside_of (F.view files.old) (D.view disk.old) (D.images disk.old) (O.view outs.old))
        (outside_of (F.view files.new) (D.view disk.new) (D.images disk.new) (O.view outs.new)) (exit_status result)) }
{
    let code = match arguments {
        Ok(given) => match words(alloc, given) {
            Ok(words) => over_words(rt, alloc, &words, files, disk, outs),
            Err(_) => without_words(outs, WordsFault::NoMemory),
        },
        Err(error) => without_words(outs, WordsFault::from(error)),
    };
    ExitCode::from(code)
}

/// Answers of itself, or runs, as the words say.
fn over_words<R: Threads + Sync, F: Files, D: Disk, O: Outs>(
    rt: &R,
    alloc: Global,
    words: &Texts,
    files: &mut F,
    disk: &mut D,
    outs: &mut O,
) -> u8
    ensures { EndsOver words.now
        (outside_of (F.view files.old) (D.view disk.old) (D.images disk.old) (O.view outs.old))
        (outside_of (F.view files.new) (D.view disk.new) (D.images disk.new) (O.view outs.new)) result }
{
    match answer_to(words.items()) {
        Some(answer) => show(outs, answer),
        None => {
            let gate = NoGate::new();
            goaccess_run(rt, alloc, words.items(), files, disk, outs, &gate).code()
        }
    }
}

/// Says on standard error why there are no words.
fn without_words<O: Outs>(outs: &mut O, fault: WordsFault) -> u8
    ensures line { TakesOrStops (words_line fault) (O.view outs.old).stderr (O.view outs.new).stderr }
    ensures others { ChangesOnly Stderr (O.view outs.old) (O.view outs.new) }
    ensures code { result ≡ words_code fault }
{
    let _ = print(outs, To::Stderr, fault.line());
    fault.code()
}
