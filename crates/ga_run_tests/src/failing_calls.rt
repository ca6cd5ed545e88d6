//! A run over two logs and what is kept of one of them, in which one call fails.

use crate::world::World;
use ga_base::{NoMemory, Text};
use ga_disk::{Disk, MemDisk};
use ga_one_run::Status;
use ga_ports::{Failed, MemFiles, MemOuts, To};
use std::alloc::Global;
use std::test::Fail;
use std::thread::Threads;

/// The run, and one that shows what is kept.
const TRACKED: &str = "--log-format=COMMON|-o|csv|--restore|--persist|a.log|b.log";

const KEPT: &str = "-o|csv|--restore";

/// The lines of the logs: that of `a.log` which is kept, one that came after it, and one of `b.log`.
const FIRST: &[u8] = b"192.0.2.1 - - [01/Jan/2024:00:00:00 +0000] \"GET /a HTTP/1.1\" 200 10\n";

const NEXT: &[u8] = b"192.0.2.1 - - [01/Jan/2024:00:00:00 +0000] \"GET /b HTTP/1.1\" 200 10\n";

const OTHER: &[u8] = b"192.0.2.2 - - [01/Jan/2024:00:00:00 +0000] \"GET /c HTTP/1.1\" 200 10\n";

/// How a run begins that answers what was kept before, and all lines.
const OLD: &str = "\
0
id,parent_id,panel,hits,hits%,visitors,visitors%,bytes,bytes%,avgts,cumts,maxts,method,protocol,data
0,,general,1,,,,,,,,,,,total_requests
";

const NEW: &str = "\
0
id,parent_id,panel,hits,hits%,visitors,visitors%,bytes,bytes%,avgts,cumts,maxts,method,protocol,data
0,,general,3,,,,,,,,,,,total_requests
";

/// How long the exit status of an answer is.
const STATUS: usize = 2;

/// How many calls of the disk make a copy of its sides.
const COPYING: u64 = 3;

/// A disk with these sides.
fn disk_of(alloc: Global, path: &Text, sides: &MemDisk) -> Result<MemDisk, Failed> {
    let mut disk = MemDisk::new(alloc);
    disk.open(path)?;
    disk.write_at(0, 0, sides.side(0))?;
    disk.write_at(1, 0, sides.side(1))?;
    Ok(disk)
}

/// Both logs, of which no call was made, and what is kept of the first line.
fn world_before<R: Threads + Sync>(rt: &R, alloc: Global) -> Result<World, Fail> {
    let mut kept = World::new(alloc);
    kept.grow(alloc, "a.log", FIRST)?;
    kept.answer(rt, alloc, "--log-format=COMMON|--restore|--persist|a.log")?;
    let disk = disk_of(alloc, &Text::of(alloc, "/tmp")?, &kept.disk)?;
    let mut world = World {
        files: MemFiles::new(alloc),
        disk,
    };
    for (name, line) in [("a.log", FIRST), ("a.log", NEXT), ("b.log", OTHER)] {
        world.grow(alloc, name, line)?;
    }
    Ok(world)
}

/// The bytes of both sides.
fn sides_of(alloc: Global, disk: &MemDisk) -> Result<Vec<u8>, NoMemory> {
    let mut sides = Vec::new(alloc);
    sides.extend_from_slice(disk.side(0))?;
    sides.extend_from_slice(disk.side(1))?;
    Ok(sides)
}

/// Whether a run answers a text that begins so.
fn begins<R: Threads + Sync>(
    rt: &R,
    alloc: Global,
    world: &mut World,
    words: &str,
    front: &str,
) -> Result<bool, Fail> {
    Ok(
        world
            .answer(rt, alloc, words)?
            .starts_with(front.as_bytes()),
    )
}

/// Whether a run in this world is done, of whose files this call fails. Else it says that a log can't be read, and nothing is
/// changed.
fn is_done_with_files<R: Threads + Sync>(
    rt: &R,
    alloc: Global,
    call: u32,
    world: &mut World,
) -> Result<bool, Fail> {
    let before = sides_of(alloc, &world.disk)?;
    world.files.fail_at(u64::from(call))?;
    let answer = world.answer(rt, alloc, TRACKED)?;
    if answer.starts_with(NEW.as_bytes()) {
        return Ok(true);
    }
    let of_a = b"2\ngoaccess: a.log: read failed\n".as_slice();
    let of_b = b"2\ngoaccess: b.log: read failed\n".as_slice();
    let failed = answer.as_slice() == of_a || answer.as_slice() == of_b;
    if failed && sides_of(alloc, &world.disk)? == before {
        return Ok(false);
    }
    Err(Fail::new(format_args!("call {call} of the files")))
}

/// Whether a run in this world is done, of whose disk this call fails. Else it says so; what is kept is what was before, or all
/// lines; and the same run prints all lines once no call fails.
fn is_done_with_disk<R: Threads + Sync>(
    rt: &R,
    alloc: Global,
    call: u32,
    world: &mut World,
) -> Result<bool, Fail> {
    world.disk.fail_at(COPYING + u64::from(call))?;
    let answer = world.answer(rt, alloc, TRACKED)?;
    if answer.starts_with(NEW.as_bytes()) {
        return Ok(true);
    }
    let kept = world.answer(rt, alloc, KEPT)?;
    let is_either = kept.starts_with(OLD.as_bytes()) || kept.starts_with(NEW.as_bytes());
    let failed = answer.as_slice() == b"3\ngoaccess: database: device failed\n".as_slice();
    if failed && is_either && begins(rt, alloc, world, TRACKED, NEW)? {
        return Ok(false);
    }
    Err(Fail::new(format_args!("call {call} of the disk")))
}

/// The most calls that are let fail, one in each run.
const CALLS: u32 = 64;

#[test]
fn a_call_of_the_files_fails(rt: HostRuntime) -> Result<(), Fail> {
    for call in 1..CALLS {
        let mut world = world_before(&rt, rt.alloc())?;
        if is_done_with_files(&rt, rt.alloc(), call, &mut world)? {
            assert!(rt; call > 6, "{call}");
            return Ok(());
        }
    }
    Err(Fail::new("no run is done"))
}

#[test]
fn a_call_of_the_disk_fails(rt: HostRuntime) -> Result<(), Fail> {
    for call in 1..CALLS {
        let mut world = world_before(&rt, rt.alloc())?;
        if is_done_with_disk(&rt, rt.alloc(), call, &mut world)? {
            assert!(rt; call > 12, "{call}");
            return Ok(());
        }
    }
    Err(Fail::new("no run is done"))
}

/// Whether an output that takes this many bytes has them after a run in this world, and the run is kept.
fn is_kept_with_room<R: Threads + Sync>(
    rt: &R,
    alloc: Global,
    room: usize,
    world: &mut World,
    outs: &mut MemOuts,
) -> Result<bool, Fail> {
    outs.set_room(To::Stdout, room as u64);
    let status = world.run(rt, alloc, TRACKED, outs)?;
    let (to, at) = (To::Stdout, room as u64);
    let report = NEW.as_bytes().get(STATUS..).unwrap_or_default();
    let is_front = Some(outs.taken(To::Stdout)) == report.get(..room);
    Ok(status == Status::OutFault { to, at } && is_front && begins(rt, alloc, world, KEPT, NEW)?)
}

#[test]
fn an_output_takes_a_front(rt: HostRuntime) -> Result<(), Fail> {
    let alloc = rt.alloc();
    for room in [0, 1, 10, 100] {
        let (mut world, mut outs) = (world_before(&rt, alloc)?, MemOuts::new(alloc));
        let is_kept = is_kept_with_room(&rt, alloc, room, &mut world, &mut outs)?;
        assert!(rt; is_kept, "{room}");
    }
    Ok(())
}

/// Holds a run with bad words, whose first write fails, to what it leaves: nothing is taken, read or made.
fn hold_untold<R: Threads + Sync>(
    rt: &R,
    alloc: Global,
    world: &mut World,
    outs: &mut MemOuts,
) -> Result<(), Fail> {
    let before = sides_of(alloc, &world.disk)?;
    outs.fail_at(1)?;
    let status = world.run(rt, alloc, "--restore|--persist|--bogus", outs)?;
    for to in [To::Stdout, To::Stderr, To::File] {
        if !outs.taken(to).is_empty() {
            return Err(Fail::new("a target took something"));
        }
    }
    let counts = (status.code(), world.files.bytes_given(), outs.times_made());
    if counts == (1, 0, 0) && sides_of(alloc, &world.disk)? == before {
        return Ok(());
    }
    Err(Fail::new(format_args!("{counts:?}, or other sides")))
}

#[test]
fn bad_words_can_not_be_told(rt: HostRuntime) -> Result<(), Fail> {
    let alloc = rt.alloc();
    let (mut world, mut outs) = (world_before(&rt, alloc)?, MemOuts::new(alloc));
    hold_untold(&rt, alloc, &mut world, &mut outs)
}
