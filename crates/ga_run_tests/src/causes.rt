//! Runs that end for a cause which a log alone doesn't bring about.

ghost use Rattle.std.specs.Prelude.{◌<◌, length};

use crate::world::{World, words_of};
use ga_base::{Bytes, Text, Texts};
use ga_disk::{Disk, MemDisk};
use ga_one_run::goaccess_run;
use ga_ports::{MemOuts, NoGate, ShortFiles, To};
use std::alloc::Global;
use std::test::Fail;
use std::thread::Threads;

/// A side of the last generation, of as many failed lines as there can be.
const LAST: &[u8] = b"\
    \x4f\x00\x00\x00\x00\x00\x00\x00\x49\x01\x3f\xff\xff\xff\xff\xff\xff\xff\x3f\xff\xff\xff\xff\xff\
    \xff\xff\x3f\xff\xff\xff\xff\xff\xff\xff\x00\x00\x00\x00\x00\x00\x00\x00\x00\x00\x00\x00\x00\x00\
    \x00\x00\x00\x00\x00\x00\x00\x00\x00\x00\x00\x00\x00\x00\x00\x00\x00\x00\x00\x00\x00\x00\x00\x00\
    \x00\x00\x00\x00\x00\x00\x00\x00\x00\x00\xc2\x1c\xc4\xde\xc7\xa8\xcf\x1a\x79\x79\x89\x9e\xeb\x5c\
    \xd6\xa6\x0d\x39\xc2\x78\xfe\xce\x7d\x64\x79\x74\x88\xab\x60\x57\xbf\xc4\x00\
";

/// The words of a run over that database and a log of one line, and its answer.
const COUNTERS: [(&str, &str); 2] = [
    (
        "--log-format=COMMON|--restore|--persist|a.log",
        "5\ngoaccess: counter full: lines 4611686018427387904\n",
    ),
    (
        "--log-format=COMMON|--persist|a.log",
        "5\ngoaccess: counter full: generations 4611686018427387904\n",
    ),
];

/// A line that is counted.
const LINE: &[u8] = b"192.0.2.1 - - [01/Jan/2024:00:00:00 +0000] \"GET /a HTTP/1.1\" 200 10\n";

#[test]
fn a_database_is_full(rt: HostRuntime) -> Result<(), Fail> {
    let alloc = rt.alloc();
    for (words, answer) in COUNTERS {
        let mut world = World::new(alloc);
        world.grow(alloc, "a.log", LINE)?;
        world.disk.open(&Text::of(alloc, "/tmp")?)?;
        world.disk.write_at(0, 0, LAST)?;
        let said = world.answer(&rt, alloc, words)?;
        assert_eq!(rt; str::from_utf8(&said), Ok(answer));
        assert!(rt; world.disk.side(0) == LAST && world.disk.side(1).is_empty());
    }
    Ok(())
}

/// What a run over a log of 100 bytes answers, of which these can be read: its exit status, and its line on standard error where
/// that is all that its targets took and nothing is kept.
fn short_run<'o, R: Threads + Sync>(
    rt: &R,
    alloc: Global,
    words: &Texts,
    line: Bytes,
    outs: &'o mut MemOuts,
) -> Option<(u8, &'o [u8])>
    requires { length line < 100 }
{
    let mut files = ShortFiles::new(100, line);
    let mut disk = MemDisk::new(alloc);
    let gate = NoGate::new();
    let status = goaccess_run(rt, alloc, words.items(), &mut files, &mut disk, outs, &gate);
    let is_kept = !(disk.side(0).is_empty() && disk.side(1).is_empty());
    if is_kept || !outs.taken(To::Stdout).is_empty() {
        return None;
    }
    Some((status.code(), outs.taken(To::Stderr)))
}

#[test]
fn a_log_is_shorter_than_its_size(rt: HostRuntime) -> Result<(), Fail> {
    let alloc = rt.alloc();
    for words in [
        "--log-format=COMMON|a.log",
        "--log-format=COMMON|--restore|--persist|a.log",
    ] {
        let (words, line) = (words_of(alloc, words)?, Bytes::of(alloc, LINE)?);
        let mut outs = MemOuts::new(alloc);
        assert_eq!(rt;
            short_run(&rt, alloc, &words, line, &mut outs),
            Some((2, b"goaccess: a.log: short at 68\n".as_slice()))
        );
    }
    Ok(())
}
