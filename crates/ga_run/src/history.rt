ghost use Rattle.std.specs.Prelude.{◌≡◌, ◌+◌, ◌<◌, ◌≤◌, OnErr, IfOk, vec_capacity, vec_len};
ghost use Rattle.ga_run.specs.Headline.{MeetsHeadline};
ghost use Rattle.ga_run.specs.History.{IsBlank, IsChange, Runs, Steps, StopsAtChange, then_status};

use crate::laws::headline;
use ga_base::{Bytes, Listing, NoMemory, Text, Texts};
use ga_disk::MemDisk;
use ga_one_run::{Status, goaccess_run};
use ga_ports::{MemFiles, MemOuts, NoGate};
use std::alloc::Global;
use std::thread::Threads;

/// The outside in memory, in which lists of steps are made.
#[derive(Debug, Drop)]
pub struct World {
    pub files: MemFiles,
    pub disk: MemDisk,
    pub outs: MemOuts,
}

impl World {
    /// A world in which nothing stands, none of whose calls is to fail.
    pub fn new(alloc: Global) -> World
        ensures { IsBlank result }
    {
        let files = MemFiles::new(alloc);
        let disk = MemDisk::new(alloc);
        let outs = MemOuts::new(alloc);
        World { files, disk, outs }
    }
}

/// What comes next in a world.
#[derive(Debug, Drop)]
pub enum Step {
    /// Bytes are appended to a log, which is made if it isn't there.
    Grow {
        name: Text,
        bytes: Bytes,
    },
    /// A log gets another name. Nothing is done where `from` isn't there or `to` is.
    Rename {
        from: Text,
        to: Text,
    },
    /// A run.
    Run {
        words: Texts,
    },
    /// A run in which every call of the disk fails that comes after this many. Then a crash leaves one of the images that it may
    /// leave, by the pick; it does so too where the run came to its end.
    Crash {
        words: Texts,
        calls: u64,
        pick: Bytes,
    },
}

/// The statuses of the runs of a list of steps.
pub type StatusList = Listing<Status>;

/// Makes one step. It answers a status exactly for a run or a crash; lack of memory there is that status. After an `Err`, which
/// comes where a log should have grown or got another name, the world is as it was.
pub fn run_step<R: Threads + Sync>(
    rt: &R,
    alloc: Global,
    step: &Step,
    world: &mut World,
) -> Result<Option<Status>, NoMemory>
    ensures ok { IfOk result (λ status. Steps step.now status world.old world.new) }
    ensures cause { OnErr result (IsChange step.now) }
    ensures err { OnErr result (world.new ≡ world.old) }
{
    match step {
        Step::Grow { name, bytes } => {
            world.files.grow(name, bytes.bytes())?;
            Ok(None)
        }
        Step::Rename { from, to } => {
            world.files.rename(from, to)?;
            Ok(None)
        }
        Step::Run { words } => Ok(Some(run_once(rt, alloc, words, world))),
        Step::Crash { words, calls, pick } => {
            world.disk.fail_after(*calls);
            let status = run_once(rt, alloc, words, world);
            world.disk.crash(pick.bytes());
            Ok(Some(status))
        }
    }
}

/// One run in a world.
fn run_once<R: Threads + Sync>(rt: &R, alloc: Global, words: &Texts, world: &mut World) -> Status
    ensures { Runs words.now result world.old world.new }
{
    let World { files, disk, outs } = world;
    goaccess_run(rt, alloc, words.items(), files, disk, outs, &NoGate::new())
}

/// Adds the status of a step, if it has one.
fn note_status(statuses: &mut Vec<Status>, status: Option<Status>)
    requires room { vec_len statuses.old < vec_capacity statuses.old }
    ensures items { statuses.new.items ≡ then_status statuses.old.items status }
    ensures len { vec_len statuses.new ≤ vec_len statuses.old + 1 }
    ensures capacity { vec_capacity statuses.old ≤ vec_capacity statuses.new }
{
    if let Some(status) = status {
        statuses.push(status).unwrap();
    }
}

/// Makes steps in their order, in a world that nothing stood in before, and answers the status of each run and crash. The memory
/// of the answer is taken before the first step. After an `Err` no step was made, or those before one that found no memory to let
/// a log grow or give it another name.
pub fn run_all<R: Threads + Sync>(
    rt: &R,
    alloc: Global,
    steps: &[Step],
    world: &mut World,
) -> Result<StatusList, NoMemory>
    requires blank { IsBlank world.old }
    ensures ok { IfOk result (λ statuses. MeetsHeadline steps.now statuses world.old world.new) }
    ensures err { OnErr result (StopsAtChange steps.now world.old world.new) }
{
    // What is promised of all lists, for the proof alone: the call does nothing.
    headline();
    let mut statuses = Vec::with_capacity(alloc, steps.len())?;
    for step in steps {
        let status = run_step(rt, alloc, step, world)?;
        note_status(&mut statuses, status);
    }
    Ok(StatusList::from(statuses))
}
