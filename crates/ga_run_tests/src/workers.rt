use crate::world::{World, words_of};
use ga_base::{NoMemory, Text};
use ga_disk::MemDisk;
use ga_one_run::{Status, goaccess_run};
use ga_ports::{Failed, Files, Gate, HoldGate, MemFiles, MemOuts, NoGate, To};
use std::alloc::Global;
use std::hint::spin_loop;
use std::sync::atomic::{AtomicBool, Ordering};
use std::test::Fail;
use std::thread::Threads;

/// How many jobs count, and how many lines each takes at once: as many as a run has where no word says it, and others.
const WORKERS: [&str; 9] = [
    "",
    "--chunk-size=1|",
    "--chunk-size=32768|",
    "--jobs=2|",
    "--jobs=2|--chunk-size=1|",
    "--jobs=2|--chunk-size=32768|",
    "--jobs=16|",
    "--jobs=16|--chunk-size=1|",
    "--jobs=16|--chunk-size=32768|",
];

/// How many times a worker that is held looks whether the other has passed, before it goes on.
const TURNS: u32 = 100_000_000;

/// A gate that holds worker 1 until worker 0 has passed.
#[derive(Drop)]
struct MirrorGate {
    /// Worker 0 has passed.
    passed: AtomicBool,
    /// Worker 1 saw that it had.
    met: AtomicBool,
}

impl MirrorGate {
    fn new() -> MirrorGate {
        MirrorGate {
            passed: AtomicBool::new(false),
            met: AtomicBool::new(false),
        }
    }

    fn met(&self) -> bool {
        self.met.load(Ordering::SeqCst)
    }

    fn hold(&self) {
        for _ in 0..TURNS {
            if self.passed.load(Ordering::SeqCst) {
                self.met.store(true, Ordering::SeqCst);
                return;
            }
            spin_loop();
        }
    }
}

impl Gate for MirrorGate {
    fn pass(&self, worker: u32) {
        match worker {
            0 => self.passed.store(true, Ordering::SeqCst),
            1 => self.hold(),
            _ => {}
        }
    }
}

/// A line that is counted, with its line feed.
const LINE: &[u8] = b"192.0.2.1 - - [01/Jan/2024:00:00:00 +0000] \"GET /a HTTP/1.1\" 200 10\n";

/// Two jobs count three lines, one at a time, with this gate, by words that begin so.
fn run_behind<R: Threads + Sync, G: Gate>(
    rt: &R,
    alloc: Global,
    front: &str,
    gate: &G,
) -> Result<Status, NoMemory> {
    let mut world = World::new(alloc);
    for _ in 0..3 {
        world.grow(alloc, "a.log", LINE)?;
    }
    let World { files, disk } = &mut world;
    let words = format!(in alloc; "{front}--log-format=COMMON|--jobs=2|--chunk-size=1|a.log")?;
    let (words, mut outs) = (words_of(alloc, &words)?, MemOuts::new(alloc));
    Ok(goaccess_run(rt, alloc, words.items(), files, disk, &mut outs, gate))
}

/// Each of two jobs passes the gate while the other is at work: a run on one thread, whichever job it served first, would hold
/// one of the two for good. So it is without a database, and where the run is kept.
#[test]
fn jobs_are_at_work_at_once(rt: HostRuntime) -> Result<(), Fail> {
    for front in ["", "--persist|", "--persist|--restore|"] {
        let (first, second) = (HoldGate::new(), MirrorGate::new());
        assert_eq!(rt; run_behind(&rt, rt.alloc(), front, &first)?, Status::Done);
        assert_eq!(rt; run_behind(&rt, rt.alloc(), front, &second)?, Status::Done);
        assert!(rt; first.met() && second.met(), "{front}");
    }
    Ok(())
}

/// Files that note how many bytes they are asked for at once, at most.
#[derive(Drop)]
struct WatchedFiles {
    files: MemFiles,
    greatest: usize,
}

impl Files for WatchedFiles {
    ghost use Rattle.ga_ports.specs.MemFiles.{files_view};

    ghost view = { λ watched. files_view watched.files };

    fn open(&mut self, name: &Text) -> Result<(), Failed> {
        self.files.open(name)
    }

    fn size(&mut self) -> Result<u64, Failed> {
        self.files.size()
    }

    fn read_at(&mut self, at: u64, into: &mut [u8]) -> Result<usize, Failed> {
        self.greatest = self.greatest.max(into.len());
        self.files.read_at(at, into)
    }
}

/// A log of lines that are 66 bytes longer than this many, and what the report says of it.
const LONG: [(&[usize], &str); 2] = [
    (
        &[65_469, 65_470],
        "{\"bandwidth\":10,\"excluded_hits\":0,\"failed_requests\":1,\"total_requests\":2,\"unique_visitors\":1,\"valid_requests\":1}",
    ),
    (
        &[1, 2_999_934, 1],
        "{\"bandwidth\":20,\"excluded_hits\":0,\"failed_requests\":1,\"total_requests\":3,\"unique_visitors\":1,\"valid_requests\":2}",
    ),
];

/// A line whose URL has this many bytes after its slash.
fn line_of(alloc: Global, length: usize) -> Result<Vec<u8>, NoMemory> {
    let mut line = Vec::new(alloc);
    line.extend_from_slice(b"192.0.2.1 - - [01/Jan/2024:00:00:00 +0000] \"GET /")?;
    for _ in 0..length {
        line.push(b'a')?;
    }
    line.extend_from_slice(b" HTTP/1.1\" 200 10\n")?;
    Ok(line)
}

/// The greatest slice that was asked for of a log in a run over it, where the run is done and its report says this.
fn slice_of<R: Threads + Sync>(
    rt: &R,
    alloc: Global,
    workers: &str,
    log: &[u8],
    general: &str,
) -> Result<usize, Fail> {
    let mut files = WatchedFiles {
        files: MemFiles::new(alloc),
        greatest: 0,
    };
    files.files.grow(&Text::of(alloc, "a.log")?, log)?;
    let words = words_of(
        alloc,
        &format!(in alloc; "{workers}--log-format=COMMON|a.log")?,
    )?;
    let (mut outs, mut disk) = (MemOuts::new(alloc), MemDisk::new(alloc));
    let gate = NoGate::new();
    let status = goaccess_run(
        rt,
        alloc,
        words.items(),
        &mut files,
        &mut disk,
        &mut outs,
        &gate,
    );
    let report = str::from_utf8(outs.taken(To::Stdout))?;
    if status == Status::Done && report.contains(general) {
        return Ok(files.greatest);
    }
    Err(Fail::new(format_args!("{workers}: not {general}")))
}

/// Holds a run over a log by each of these workers to what its report says, and to slices of at most a mebibyte.
fn hold_slices<R: Threads + Sync>(
    rt: &R,
    alloc: Global,
    all: &[&str],
    log: &[u8],
    general: &str,
) -> Result<(), Fail> {
    for workers in all {
        let greatest = slice_of(rt, alloc, workers, log, general)?;
        if greatest == 0 || greatest > 1_048_576 {
            return Err(Fail::new(format_args!("{workers}: a slice of {greatest} bytes")));
        }
    }
    Ok(())
}

#[test]
fn lines_are_as_long_as_they_come(rt: HostRuntime) -> Result<(), Fail> {
    let alloc = rt.alloc();
    for (lengths, general) in LONG {
        let mut log = Vec::new(alloc);
        for length in lengths {
            log.extend_from_slice(&line_of(alloc, *length)?)?;
        }
        hold_slices(&rt, alloc, &WORKERS, &log, general)?;
    }
    Ok(())
}

/// A line that is counted and ends in two bytes, a comment and an empty line, and what the report says of them.
const SHORT: (&[u8], &str) = (
    b"192.0.2.1 - - [01/Jan/2024:00:00:00 +0000] \"GET /a HTTP/1.1\" 200 10\r\n# note\n\n",
    "{\"bandwidth\":10,\"excluded_hits\":0,\"failed_requests\":0,\"total_requests\":1,\"unique_visitors\":1,\"valid_requests\":1}",
);

/// Lines that are wild, and what the report says of them: a byte that no text has, a host that is no address, a day that there
/// isn't, a status and a size past their limits, a size below 0, a zero byte in a URL, and a quote alone.
const WILD: (&[u8], &str) = (
    b"192.0.2.1 - - [01/Jan/2024:00:00:00 +0000] \"GET /a HTTP/1.1\" 200 10
\xff
256.1.1.1 - - [01/Jan/2024:00:00:00 +0000] \"GET /a HTTP/1.1\" 200 10
192.0.2.1 - - [31/Feb/2024:00:00:00 +0000] \"GET /a HTTP/1.1\" 200 10
192.0.2.1 - - [01/Jan/2024:00:00:00 +0000] \"GET /a HTTP/1.1\" 99 10
192.0.2.1 - - [01/Jan/2024:00:00:00 +0000] \"GET /a HTTP/1.1\" 200 1000000000000000001
192.0.2.1 - - [01/Jan/2024:00:00:00 +0000] \"GET /a HTTP/1.1\" 200 -5
192.0.2.1 - - [01/Jan/2024:00:00:00 +0000] \"GET /\0 HTTP/1.1\" 200 1
\"
",
    "{\"bandwidth\":11,\"excluded_hits\":0,\"failed_requests\":6,\"total_requests\":9,\"unique_visitors\":1,\"valid_requests\":3}",
);

#[test]
fn lines_are_as_wild_as_they_come(rt: HostRuntime) -> Result<(), Fail> {
    for (log, general) in [SHORT, WILD] {
        hold_slices(&rt, rt.alloc(), &WORKERS, log, general)?;
    }
    Ok(())
}

/// A log of this many lines, each from a host of its own.
fn many_hosts(alloc: Global, lines: u32) -> Result<Vec<u8>, NoMemory> {
    let mut log = Vec::new(alloc);
    for n in 0..lines {
        let host = format!(in alloc; "10.0.{}.{}", n / 256 % 256, n % 256)?;
        log.extend_from_slice(host.as_bytes())?;
        log.extend_from_slice(b" - - [01/Jan/2024:00:00:00 +0000] \"GET /a HTTP/1.1\" 200 10\n")?;
    }
    Ok(log)
}

/// This many keys are counted in parts, and this many rows are looked at in pieces, side by side.
#[test]
fn many_hosts_have_one_report(rt: HostRuntime) -> Result<(), Fail> {
    let alloc = rt.alloc();
    let log = many_hosts(alloc, 9000)?;
    let general =
        "{\"bandwidth\":90000,\"excluded_hits\":0,\"failed_requests\":0,\"total_requests\":9000,\"unique_visitors\":9000,\"valid_requests\":9000}";
    hold_slices(&rt, alloc, &["", "--jobs=4|"], &log, general)
}
