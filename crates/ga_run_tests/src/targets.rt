use crate::world::World;
use ga_base::Text;
use ga_disk::Disk;
use ga_one_run::Status;
use ga_ports::{MemOuts, To};
use std::alloc::Global;
use std::test::Fail;
use std::thread::Threads;

/// Holds a run whose report goes to a file to what its targets took.
fn hold_file<R: Threads + Sync>(
    rt: &R,
    alloc: Global,
    world: &mut World,
    outs: &mut MemOuts,
    name: &Text,
) -> Result<(), Fail> {
    world.grow(alloc, "a.log", b"")?;
    let status = world.run(rt, alloc, "--log-format=COMMON|-o|r.json|a.log", outs)?;
    let report = outs.taken(To::File);
    if (status, outs.times_made()) == (Status::Done, 1)
        && outs.last_made() == Some(name)
        && outs.taken(To::Stdout).is_empty()
        && report.starts_with(b"{\"browsers\":{\"data\":[]},")
    {
        return Ok(());
    }
    Err(Fail::new(format_args!("{status:?}, or another file")))
}

#[test]
fn the_reports_file_is_made_once(rt: HostRuntime) -> Result<(), Fail> {
    let alloc = rt.alloc();
    let name = Text::of(alloc, "r.json")?;
    let (mut world, mut outs) = (World::new(alloc), MemOuts::new(alloc));
    hold_file(&rt, alloc, &mut world, &mut outs, &name)
}

/// Holds a run whose output has room for ten bytes to what it took, and to what is kept.
fn hold_front<R: Threads + Sync>(
    rt: &R,
    alloc: Global,
    world: &mut World,
    outs: &mut MemOuts,
    path: &Text,
) -> Result<(), Fail> {
    world.grow(alloc, "a.log", b"")?;
    outs.set_room(To::Stdout, 10);
    let words = "--log-format=COMMON|--persist|--restore|--db-path=d|a.log";
    let status = world.run(rt, alloc, words, outs)?;
    let (to, at) = (To::Stdout, 10);
    let is_full = status == Status::OutFault { to, at };
    if is_full
        && outs.taken(To::Stdout) == b"{\"browsers".as_slice()
        && world.disk.side(0).len() == 119
        && world.disk.last_opened() == Some(path)
    {
        return Ok(());
    }
    Err(Fail::new(format_args!("{status:?}, or another side")))
}

#[test]
fn a_run_whose_output_fails_is_kept(rt: HostRuntime) -> Result<(), Fail> {
    let alloc = rt.alloc();
    let path = Text::of(alloc, "d")?;
    let (mut world, mut outs) = (World::new(alloc), MemOuts::new(alloc));
    hold_front(&rt, alloc, &mut world, &mut outs, &path)
}

/// The answer of a run over a side that is no database.
fn damaged_answer<R: Threads + Sync>(
    rt: &R,
    alloc: Global,
    world: &mut World,
    path: &Text,
) -> Result<Vec<u8>, Fail> {
    world.disk.open(path)?;
    world.disk.write_at(0, 0, b"O and no database")?;
    Ok(world.answer(rt, alloc, "--restore")?)
}

#[test]
fn a_damaged_side_is_told(rt: HostRuntime) -> Result<(), Fail> {
    let alloc = rt.alloc();
    let path = Text::of(alloc, "/tmp")?;
    let mut world = World::new(alloc);
    let answer = damaged_answer(&rt, alloc, &mut world, &path)?;
    assert_eq!(rt;
        (
            answer.as_slice(),
            world.disk.side(0).len(),
            world.disk.side(1).len()
        ),
        (
            b"6\ngoaccess: database: side 0 damaged at 1\n".as_slice(),
            17,
            0
        )
    );
    Ok(())
}
