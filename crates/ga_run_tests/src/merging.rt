//! The tool for databases, over those that runs kept.

use crate::world::{World, words_of};
use ga_base::{Bytes, NoMemory};
use ga_dbtool::db_run;
use ga_disk::MemDisk;
use ga_ports::{MemOuts, To};
use std::alloc::Global;
use std::test::Fail;
use std::thread::Threads;

/// Two lines of one visitor, for different requests.
const TWO: &[u8] = b"\
192.0.2.1 - - [01/Jan/2024:00:00:00 +0000] \"GET /a HTTP/1.1\" 200 10
192.0.2.1 - - [01/Jan/2024:00:00:00 +0000] \"GET /b HTTP/1.1\" 200 10
";

/// A third one.
const THIRD: &[u8] = b"192.0.2.1 - - [01/Jan/2024:00:00:00 +0000] \"GET /c HTTP/1.1\" 200 10\n";

/// No lines.
const NOTHING: &[u8] = b"";

/// What a tracked run of a case keeps: the name of its log, with options before it, and the lines. Nothing is kept without a name.
type Kept = (&'static str, &'static [u8]);

/// The words of the tool, what is kept in DIR and in OTHER before, and the exit status with what both outputs take.
const CASES: [(&str, Kept, Kept, &str); 9] = [
    // Both are merged: a record of the same generation, one key each of the day, the host and the hour, two of the status, three of
    // requests.
    (
        "merge|d1|d2",
        ("a.log", TWO),
        ("b.log", THIRD),
        "0\ngeneration 1\nrecords 1\nlines 3\nfailed 0\nexcluded 0\nkeys 8\nentries 2\n",
    ),
    // The same log is in both.
    (
        "merge|d1|d2",
        ("a.log", TWO),
        ("a.log", TWO),
        "9\ngoaccess_db: entries 0 and 0 are one log\n",
    ),
    // Both say how many days they keep, and not the same.
    (
        "merge|d1|d2",
        ("--keep-last=1|a.log", TWO),
        ("b.log", THIRD),
        "8\ngoaccess_db: keep-last: stored 1, given 0\n",
    ),
    // Nothing is in DIR, so it gets its first generation, with the number of OTHER.
    (
        "merge|d1|d2",
        ("", NOTHING),
        ("--keep-last=1|b.log", THIRD),
        "0\ngeneration 1\nrecords 0\nlines 1\nfailed 0\nexcluded 0\nkeys 6\nentries 1\n",
    ),
    // Nothing is in OTHER.
    (
        "merge|d1|d2",
        ("--keep-last=1|a.log", TWO),
        ("", NOTHING),
        "0\ngeneration 1\nrecords 1\nlines 2\nfailed 0\nexcluded 0\nkeys 7\nentries 1\n",
    ),
    // Nothing is in either.
    (
        "merge|d1|d2",
        ("", NOTHING),
        ("", NOTHING),
        "0\ngeneration 1\nrecords 0\nlines 0\nfailed 0\nexcluded 0\nkeys 0\nentries 0\n",
    ),
    // A database is checked.
    (
        "check|d1",
        ("a.log", TWO),
        ("", NOTHING),
        "0\ngeneration 1\nrecords 0\nlines 2\nfailed 0\nexcluded 0\nkeys 7\nentries 1\n",
    ),
    // Its keys are shown.
    (
        "dump|d1",
        ("b.log", THIRD),
        ("", NOTHING),
        "0\npanel,date,parent,data,method,protocol,hits,bytes,micros,max_micros,visitors
visitors,20240101,,20240101,,,1,10,0,0,1
requests,20240101,,/c,GET,HTTP/1.1,1,10,0,0,1
hosts,20240101,,192.0.2.1,,,1,10,0,0,1
visit_times,20240101,,00,,,1,10,0,0,1
status_codes,20240101,2xx Success,,,,1,10,0,0,1
status_codes,20240101,2xx Success,200,,,1,10,0,0,1
",
    ),
    // Where nothing is stored there is the header alone.
    (
        "dump|d1",
        ("", NOTHING),
        ("", NOTHING),
        "0\npanel,date,parent,data,method,protocol,hits,bytes,micros,max_micros,visitors\n",
    ),
];

/// Words that are none of the forms, and the place where they stop being one.
const BAD_WORDS: [(&str, &str); 12] = [
    ("", "0"),
    ("--help", "0"),
    ("chec|d", "0"),
    ("check", "1"),
    ("dump|", "1"),
    ("check|d|e", "2"),
    ("merge", "1"),
    ("merge||e", "1"),
    ("merge|d", "2"),
    ("merge|d|", "2"),
    ("merge|d|d|e", "2"),
    ("merge|d|e|f", "3"),
];

/// The disk that a tracked run leaves.
fn kept<R: Threads + Sync>(rt: &R, alloc: Global, kept: Kept) -> Result<MemDisk, Fail> {
    let (words, lines) = kept;
    let mut world = World::new(alloc);
    if !words.is_empty() {
        let name = match words.rsplit_once('|') {
            Some((_, name)) => name,
            None => words,
        };
        world.grow(alloc, name, lines)?;
        let words = format!(in alloc; "--log-format=COMMON|--restore|--persist|{words}")?;
        world.answer(rt, alloc, &words)?;
    }
    let World { disk, .. } = world;
    Ok(disk)
}

/// The exit status of the tool, and what both outputs took.
fn answer(
    alloc: Global,
    words: &str,
    first: &mut MemDisk,
    second: &mut MemDisk,
) -> Result<Vec<u8>, NoMemory> {
    let words = words_of(alloc, words)?;
    let mut outs = MemOuts::new(alloc);
    let status = db_run(alloc, words.items(), first, second, &mut outs);
    let mut answer = Vec::new(alloc);
    answer.extend_from_slice(format!(in alloc; "{}\n", status.code())?.as_bytes())?;
    answer.extend_from_slice(outs.taken(To::Stdout))?;
    answer.extend_from_slice(outs.taken(To::Stderr))?;
    Ok(answer)
}

#[test]
fn databases_are_checked_shown_and_merged(rt: HostRuntime) -> Result<(), Fail> {
    let alloc = rt.alloc();
    for (words, left, right, said) in CASES {
        let mut first = kept(&rt, alloc, left)?;
        let mut second = kept(&rt, alloc, right)?;
        let before = Bytes::of(alloc, second.side(0))?;
        let got = answer(alloc, words, &mut first, &mut second)?;
        assert_eq!(rt; str::from_utf8(&got), Ok(said));
        assert!(rt; second.side(0) == before.bytes());
    }
    Ok(())
}

#[test]
fn words_that_are_no_form_stop_at_a_place(rt: HostRuntime) -> Result<(), Fail> {
    let alloc = rt.alloc();
    for (words, at) in BAD_WORDS {
        let (mut first, mut second) = (MemDisk::new(alloc), MemDisk::new(alloc));
        let line = format!(in alloc; "1\ngoaccess_db: word {at}: usage\n")?;
        let got = answer(alloc, words, &mut first, &mut second)?;
        assert!(rt; got.as_slice() == line.as_bytes());
    }
    Ok(())
}
