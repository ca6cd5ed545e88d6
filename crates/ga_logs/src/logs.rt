ghost use Rattle.std.specs.Prelude.{◌≡◌, ◌≢◌, ◌+◌, ◌≤◌, [], ℕ, List, IfOk, IfErr, OnOk};
ghost use Rattle.ga_ports.specs.Trace.{FilesTrace};
ghost use Rattle.ga_resume.specs.declared.fault.PlaceFault.TheVariants.{FileFault};
ghost use Rattle.ga_workers.specs.Workers.{AreWorkers};
ghost use Rattle.ga_base.specs.Totals.{LinesAdd, TotalsFit};
ghost use Rattle.ga_logs.specs.Counting.{HasCounted, IsCountedBy, begun_with};
ghost use Rattle.ga_logs.specs.Following.{CanServe, CanServeOne};
ghost use Rattle.ga_logs.specs.Logs.{CountsLogs, NoneFailed, StopsLogs};
ghost use Rattle.ga_logs.specs.Portions.{Begins, Follows, generated_lines};
ghost use Rattle.ga_base.specs.Lines.{AreEnded};
ghost use Rattle.ga_logs.specs.Steps.Logs.{CountsOneLog, HasCountedLogs, StopsOneLog};
ghost use Rattle.ga_logs.specs.Steps.Streaming.{Adds, HasCountedSome};

use crate::CountFault;
use crate::counting::Counting;
use crate::portion_reading::open_log;
use crate::streaming::{Part, count_part, count_text};
use ga_base::{Entries, NoMemory, Text};
use ga_generate::generate;
use ga_ports::laws::files_stay;
use ga_ports::{Files, Gate};
use ga_resume::{Follow, PlaceFault, Segment, Start, advance};
use ga_totals::Total;
use ga_workers::Crew;
use std::alloc::Global;
use std::thread::Threads;

/// The total of the generator's lines, where this many are asked for, and of the lines of these logs, which are read one after
/// the other, each from where the start says. The entries go with them; after an `Err` they may only be dropped.
/// Nothing that is answered depends on the workers or on the gate.
pub fn count_logs<R: Threads + Sync, G: Gate, F: Files>(
    crew: &Crew<'_, R, G>,
    start: Start,
    generated: Option<u32>,
    names: &[Text],
    entries: &mut Entries,
    files: &mut F,
) -> Result<Total, CountFault>
    requires workers { AreWorkers crew.now.workers }
    requires fit { TotalsFit start.totals }
    requires lines { LinesAdd start.totals }
    ensures ok { IfOk result (CountsLogs crew.now.setup.now start generated names.now entries.old entries.new (F.view files.old) (F.view files.new)) }
    ensures stops { IfErr result (StopsLogs crew.now.setup.now start generated names.now entries.old (F.view files.old) (F.view files.new)) }
    ensures calls { FilesTrace (F.view files.old) (F.view files.new) }
    ensures sure { CanServe names.now (F.view files.old) → IfErr result NoneFailed }
    // It is counted by the workers of the crew, a tally for each, and in batches of this many bytes at most.
    ensures counted_by { IfOk result (IsCountedBy crew.now.workers start.totals) }
{
    let mut counting = Counting::new(crew.alloc, start.totals, crew.workers);
    count_all(crew, start, generated, names, entries, files, &mut counting)?;
    let total = counting.into_total(crew)?;
    Ok(total)
}

/// Counts the generator's lines, where this many are asked for, and the lines of these logs, where nothing is counted yet.
fn count_all<R: Threads + Sync, G: Gate, F: Files>(
    crew: &Crew<'_, R, G>,
    start: Start,
    generated: Option<u32>,
    names: &[Text],
    entries: &mut Entries,
    files: &mut F,
    counting: &mut Counting,
) -> Result<(), CountFault>
    requires workers { AreWorkers crew.now.workers }
    requires begun { counting.old.start ≡ begun_with start.totals crew.now.workers }
    requires none { HasCounted crew.now.setup.now [] counting.old }
    ensures ok { OnOk result (HasCountedLogs crew.now.setup.now start generated names.now entries.old entries.new (F.view files.old) (F.view files.new) counting.new) }
    ensures begun { OnOk result (counting.new.start ≡ begun_with start.totals crew.now.workers) }
    ensures stops { IfErr result (StopsLogs crew.now.setup.now start generated names.now entries.old (F.view files.old) (F.view files.new)) }
    ensures calls { FilesTrace (F.view files.old) (F.view files.new) }
    ensures sure { CanServe names.now (F.view files.old) → IfErr result NoneFailed }
{
    files_stay();
    count_generated(crew, generated, counting)?;
    for (place, name) in names.iter().enumerate() {
        // No log is read once a counter is full.
        if let Some(full) = counting.full() {
            return Err(CountFault::from(full));
        }
        match count_one(crew, start.follow, name, entries, files, counting) {
            Ok(()) => {}
            Err(fault) => return Err(CountFault::of_log(place as u64, fault)),
        }
    }
    Ok(())
}

/// Counts the generator's lines, where this many are asked for.
fn count_generated<R: Threads + Sync, G: Gate>(
    crew: &Crew<'_, R, G>,
    generated: Option<u32>,
    counting: &mut Counting,
) -> Result<(), NoMemory>
    requires { AreWorkers crew.now.workers }
    ensures { OnOk result (Adds crew.now.setup.now (generated_lines generated) counting.old counting.new) }
{
    let Some(n) = generated else {
        return Ok(());
    };
    let log = generate(crew.alloc, n)?;
    count_text(crew, log.bytes(), counting)
}

/// Reads the part of a log that wasn't counted yet, counts its lines and moves the entries on.
fn count_one<R: Threads + Sync, G: Gate, F: Files>(
    crew: &Crew<'_, R, G>,
    follow: Follow,
    name: &Text,
    entries: &mut Entries,
    files: &mut F,
    counting: &mut Counting,
) -> Result<(), PlaceFault>
    requires workers { AreWorkers crew.now.workers }
    requires counted { HasCountedSome crew.now.setup.now counting.old }
    ensures ok { OnOk result (CountsOneLog crew.now.setup.now follow name.now entries.old entries.new (F.view files.old) (F.view files.new) counting.old counting.new) }
    ensures stops { IfErr result (StopsOneLog follow entries.old name.now (F.view files.old) (F.view files.new)) }
    ensures calls { FilesTrace (F.view files.old) (F.view files.new) }
    ensures sure { CanServeOne name.now (F.view files.old) → IfErr result (λ fault. fault ≢ FileFault) }
{
    // What is known of calls of the files, for the proof alone: the call does nothing.
    files_stay();
    let segment = open_log(crew.alloc, follow, entries, name, files)?;
    let part = Part {
        from: segment.from,
        to: segment.end,
    };
    let ended = count_part(crew, part, follow.keeps(), files, counting)?;
    follow_log(crew.alloc, follow, &segment, ended, entries)?;
    Ok(())
}

/// Moves the entries on, after what was counted of a log: of its bytes this many are those of ended lines.
fn follow_log(
    alloc: Global,
    follow: Follow,
    segment: &Segment,
    ended: u64,
    entries: &mut Entries,
) -> Result<(), NoMemory>
    requires begins { Begins follow entries.old segment.now }
    requires within { segment.now.from + ended ≤ segment.now.end }
    ensures ok { OnOk result ((bytes : List ℕ) → AreEnded bytes ended → Follows follow (record { segment = segment.now; bytes = bytes }) entries.old entries.new) }
{
    let end = segment.end;
    match follow {
        Follow::Whole => Ok(()),
        Follow::ToEnd => advance(alloc, entries, segment, end),
        Follow::ToLastLine => advance(alloc, entries, segment, segment.from + ended),
    }
}
