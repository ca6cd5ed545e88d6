use crate::crash_reports::{FIVE_LINES, FOUR_LINES, ONE_LINE, TWO_LINES};
use ga_base::{Bytes, NoMemory, Text, Texts};
use ga_ports::To;
use ga_run::{Step, World, run_all};
use std::alloc::Global;
use std::test::Fail;
use std::thread::Threads;

/// A tracked run over one log, and one over that log and what it was called before.
const ONE: &str = "--log-format=COMMON|-o|csv|--restore|--persist|a.log";

const BOTH: &str = "--log-format=COMMON|-o|csv|--restore|--persist|a.log.1|a.log";

/// The words between bars.
fn words_of(alloc: Global, row: &str) -> Result<Texts, NoMemory> {
    let mut words = Texts::new(alloc);
    for word in row.split('|') {
        words.push(Text::of(alloc, word)?)?;
    }
    Ok(words)
}

/// A log grows by a line that asks for this page.
fn grow(alloc: Global, page: &str) -> Result<Step, NoMemory> {
    let line = format!(in alloc;
        "192.0.2.1 - - [01/Jan/2024:00:00:00 +0000] \"GET {page} HTTP/1.1\" 200 10\n"
    )?;
    Ok(Step::Grow {
        name: Text::of(alloc, "a.log")?,
        bytes: Bytes::of(alloc, line.as_bytes())?,
    })
}

/// A run with these words, and a crash.
fn crash(alloc: Global, words: &str, calls: u64, pick: u8) -> Result<Step, NoMemory> {
    Ok(Step::Crash {
        words: words_of(alloc, words)?,
        calls,
        pick: Bytes::of(alloc, &[pick])?,
    })
}

/// The exit statuses of a list of steps, one digit each, and what standard output took.
fn outcome<R: Threads + Sync>(
    rt: &R,
    alloc: Global,
    steps: &[Step],
) -> Result<(String, Vec<u8>), NoMemory> {
    let mut world = World::new(alloc);
    let statuses = run_all(rt, alloc, steps, &mut world)?;
    let mut codes = String::new(alloc);
    for status in statuses.items() {
        codes.push_str(&format!(in alloc; "{}", status.code())?)?;
    }
    let mut taken = Vec::new(alloc);
    taken.extend_from_slice(world.outs.taken(To::Stdout))?;
    Ok((codes, taken))
}

/// A run between two that is cut after this many calls of the disk, and leaves an image by a pick: whether it was done. It is, or
/// the disk failed; and the run after it prints what it would have printed.
fn hold_cut<R: Threads + Sync>(rt: &R, alloc: Global, calls: u64, pick: u8) -> Result<bool, Fail> {
    let steps = vec![in alloc;
        grow(alloc, "/a")?,
        Step::Run {
            words: words_of(alloc, ONE)?
        },
        grow(alloc, "/b")?,
        crash(alloc, ONE, calls, pick)?,
        Step::Run {
            words: words_of(alloc, ONE)?
        },
    ]?;
    let (codes, taken) = outcome(rt, alloc, &steps)?;
    let done = codes.as_str() == "000";
    let middle = if done { TWO_LINES } else { "" };
    let wanted = format!(in alloc; "{ONE_LINE}{middle}{TWO_LINES}")?;
    if (done || codes.as_str() == "030") && taken.as_slice() == wanted.as_bytes() {
        return Ok(done);
    }
    Err(Fail::new(format_args!("{calls} calls, pick {pick}: {codes}")))
}

/// Lets the run between be cut after each number of calls, until it is done; answers that number.
fn hold_cuts<R: Threads + Sync>(rt: &R, alloc: Global, pick: u8) -> Result<u64, Fail> {
    for calls in 0..100 {
        if hold_cut(rt, alloc, calls, pick)? {
            return Ok(calls);
        }
    }
    Err(Fail::new(format_args!("no run is done")))
}

#[test]
fn a_run_that_is_cut_at_any_call_loses_nothing(rt: HostRuntime) -> Result<(), Fail> {
    let alloc = rt.alloc();
    for pick in [0, 255, 79] {
        // The third call is the sync of side 1.
        if hold_cuts(&rt, alloc, pick)? < 3 {
            return Err(Fail::new(format_args!("pick {pick}: done too early")));
        }
    }
    Ok(())
}

#[test]
fn crashes_after_runs_change_no_report(rt: HostRuntime) -> Result<(), Fail> {
    let alloc = rt.alloc();
    let rotated = Step::Rename {
        from: Text::of(alloc, "a.log")?,
        to: Text::of(alloc, "a.log.1")?,
    };
    let steps = vec![in alloc;
        grow(alloc, "/a")?,
        grow(alloc, "/b")?,
        crash(alloc, ONE, 10000, 255)?,
        grow(alloc, "/c")?,
        rotated,
        grow(alloc, "/d")?,
        crash(alloc, BOTH, 10000, 255)?,
        grow(alloc, "/e")?,
        crash(alloc, BOTH, 10000, 255)?,
    ]?;
    let (codes, taken) = outcome(&rt, alloc, &steps)?;
    let wanted = format!(in alloc; "{TWO_LINES}{FOUR_LINES}{FIVE_LINES}")?;
    if codes.as_str() == "000" && taken.as_slice() == wanted.as_bytes() {
        return Ok(());
    }
    Err(Fail::new(format_args!("{codes}")))
}
