//! Logs that are known again, whole runs, and lists of runs.

ghost use Rattle.std.specs.Prelude.{◌≤◌, IsTrue};
ghost use Rattle.ga_resume.specs.Segment.{IsSegment};
ghost use Rattle.ga_run.specs.History.{IsBlank};

use ga_base::{Bytes, Counter, Entries, Entry, FormatFault, NoMemory, Text, Texts};
use ga_ports::{Disk, Files, Gate, MemDisk, MemFiles, MemOuts, Outs, To};
use ga_resume::{PlaceFault, Segment, advance, place};
use ga_run::{Input, Status, StatusList, Step, Which, World, goaccess_run, run_all, run_step};
use ga_words::WordFault;
use std::alloc::Global;
use std::thread::Threads;

/// Each status, with each format, each input and each target.
pub const STATUSES: [Status; 16] = [
    Status::Done,
    Status::BadWords(WordFault::NoInput),
    Status::BadFormat {
        which: Which::Log,
        fault: FormatFault::NoMemory,
    },
    Status::BadFormat {
        which: Which::Date,
        fault: FormatFault::NoMemory,
    },
    Status::BadFormat {
        which: Which::Time,
        fault: FormatFault::NoMemory,
    },
    Status::BadRules { line: 1 },
    Status::FileFault { file: Input::Rules },
    Status::FileShort {
        file: Input::Log(0),
        at: 0,
    },
    Status::DiskFault,
    Status::DbDamaged { side: 0, at: 1 },
    Status::KeepDiffers {
        stored: 2,
        given: 3,
    },
    Status::OutFault {
        to: To::Stdout,
        at: 0,
    },
    Status::OutFault {
        to: To::Stderr,
        at: 0,
    },
    Status::OutFault {
        to: To::File,
        at: 0,
    },
    Status::CounterFull {
        which: Counter::Lines,
        total: 0,
    },
    Status::NoMemory,
];

/// The exit status of one.
pub fn code(status: &Status) -> u8 {
    status.code()
}

/// Why a log has no place.
pub const PLACE_FAULTS: [PlaceFault; 3] = [
    PlaceFault::FileFault,
    PlaceFault::FileShort { at: 0 },
    PlaceFault::NoMemory,
];

/// Which part of a log isn't counted yet.
pub fn segment_of<F: Files>(
    alloc: Global,
    files: &mut F,
    entries: &Entries,
) -> Result<Segment, PlaceFault>
    requires { IsTrue (F.view files.old).is_open }
{
    place(alloc, files, entries)
}

/// The place of the entry of a segment, of which each field is named.
pub fn place_of(segment: &Segment) -> Option<u64> {
    let Segment {
        from: _,
        end: _,
        entry,
        front: _,
    } = segment;
    *entry
}

/// How far a log was counted that has this entry, of which each field is named.
pub fn offset_of(entry: &Entry) -> u64 {
    let Entry {
        lead: _,
        digest: _,
        offset,
        ..
    } = entry;
    *offset
}

/// Moves the entries on.
pub fn move_on(
    alloc: Global,
    entries: &mut Entries,
    segment: &Segment,
    offset: u64,
) -> Result<(), NoMemory>
    requires placed { IsSegment entries.old segment.now }
    requires from { segment.now.from ≤ offset }
    requires end { offset ≤ segment.now.end }
{
    advance(alloc, entries, segment, offset)
}

/// One run.
pub fn run<R: Threads + Sync, F: Files, D: Disk, O: Outs, G: Gate>(
    rt: &R,
    alloc: Global,
    words: &[Text],
    files: &mut F,
    disk: &mut D,
    outs: &mut O,
    gate: &G,
) -> Status {
    goaccess_run(rt, alloc, words, files, disk, outs, gate)
}

/// A log that grows.
pub fn grows(name: Text, bytes: Bytes) -> Step {
    Step::Grow { name, bytes }
}

/// A log with another name.
pub fn renamed(from: Text, to: Text) -> Step {
    Step::Rename { from, to }
}

/// A run as a step.
pub fn runs(words: Texts) -> Step {
    Step::Run { words }
}

/// A run that ends in a crash.
pub fn crashes(words: Texts, calls: u64, pick: Bytes) -> Step {
    Step::Crash { words, calls, pick }
}

/// The world of forms in memory.
pub fn world(files: MemFiles, disk: MemDisk, outs: MemOuts) -> World {
    World { files, disk, outs }
}

/// A world in which nothing is.
pub fn new_world(alloc: Global) -> World {
    World::new(alloc)
}

/// One step.
pub fn step<R: Threads + Sync>(
    rt: &R,
    alloc: Global,
    step: &Step,
    world: &mut World,
) -> Result<Option<Status>, NoMemory> {
    run_step(rt, alloc, step, world)
}

/// Steps from a world in which nothing is.
pub fn steps<R: Threads + Sync>(
    rt: &R,
    alloc: Global,
    steps: &[Step],
    world: &mut World,
) -> Result<StatusList, NoMemory>
    requires blank { IsBlank world.old }
{
    run_all(rt, alloc, steps, world)
}
