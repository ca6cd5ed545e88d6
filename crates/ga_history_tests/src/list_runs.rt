use crate::list_steps::{steps_of, world_of};
use crate::lists::LISTS;
use ga_base::NoMemory;
use ga_cases::hold;
use ga_ports::To;
use ga_run::run_all;
use std::alloc::Global;
use std::str::from_utf8;
use std::test::Fail;
use std::thread::Threads;

/// More calls than a list makes.
const ALL_CALLS: u64 = 1_000_000;

/// With each number below this one in place of a star, a run fails.
const LEAST: u64 = 6;

/// A star is tried with numbers below this one.
const MOST: u64 = 200;

/// What begins a report in an answer.
const REPORT: &str = " | ";

/// Adds a row of a report: a number, or a page and its hits.
fn push_row(text: &mut String, row: &str) -> Result<(), NoMemory> {
    let mut fields = row.split(',').skip(2);
    let panel = fields.next().unwrap_or("");
    let hits = fields.next().unwrap_or("");
    if panel == "requests" {
        let (_, page) = row.rsplit_once(',').unwrap_or(("", row));
        text.push(' ')?;
        text.push_str(page)?;
        text.push('=')?;
        text.push_str(hits)?;
    }
    if panel == "general" {
        text.push(' ')?;
        text.push_str(hits)?;
    }
    Ok(())
}

/// Adds reports in CSV.
fn push_reports(text: &mut String, reports: &str) -> Result<(), NoMemory> {
    for row in reports.lines() {
        if row.starts_with("id,") {
            text.push_str(" |")?;
        }
        push_row(text, row)?;
    }
    Ok(())
}

/// What a list of steps answers, with this number in place of a star: the statuses, and the reports.
fn answer<R: Threads + Sync>(
    rt: &R,
    alloc: Global,
    given: &str,
    star: u64,
) -> Result<String, Fail> {
    let (setting, list) = given.split_once(": ").unwrap_or(("", given));
    let steps = steps_of(alloc, list, star)?;
    let mut world = world_of(alloc, setting, star)?;
    let statuses = run_all(rt, alloc, &steps, &mut world)?;
    let mut text = String::new(alloc);
    for status in statuses.items() {
        text.push_str(&format!(in alloc; "{}", status.code())?)?;
    }
    push_reports(
        &mut text,
        from_utf8(world.outs.taken(To::Stdout)).ok().unwrap_or(""),
    )?;
    Ok(text)
}

/// What a list answers one of whose runs fails: these statuses, and the reports of the others.
fn without_failed(alloc: Global, done: &str, statuses: &str) -> Result<String, NoMemory> {
    let mut text = String::from_str(alloc, statuses)?;
    for (report, status) in done.split(REPORT).skip(1).zip(statuses.bytes()) {
        if status == b'0' {
            text.push_str(REPORT)?;
            text.push_str(report)?;
        }
    }
    Ok(text)
}

/// Holds a list to what it answers where no run fails: one run fails, prints nothing, and changes no report of another.
fn hold_failed(alloc: Global, said: &str, done: &str) -> Result<(), Fail> {
    let (statuses, _) = said.split_once(REPORT).unwrap_or((said, ""));
    let mut failed = 0u32;
    for status in statuses.bytes() {
        if status != b'0' {
            failed = failed.saturating_add(1);
        }
    }
    if failed == 1 && said == without_failed(alloc, done, statuses)?.as_str() {
        return Ok(());
    }
    Err(Fail::new(format_args!("{said}, and not {done}")))
}

/// Tries a list with each number in place of its star, until no run fails.
fn hold_numbers<R: Threads + Sync>(
    rt: &R,
    alloc: Global,
    given: &str,
    done: &str,
) -> Result<(), Fail> {
    for star in 0..MOST {
        let said = answer(rt, alloc, given, star)?;
        if said.as_str() == done && star >= LEAST {
            return Ok(());
        }
        hold_failed(alloc, said.as_str(), done)?;
    }
    Err(Fail::new("a run always fails"))
}

/// What is said of a list: its answer where no run fails, if the other numbers in place of its star agree with it.
fn said<R: Threads + Sync>(rt: &R, alloc: Global, given: &str) -> Result<String, Fail> {
    let done = answer(rt, alloc, given, ALL_CALLS)?;
    if given.contains('*') {
        hold_numbers(rt, alloc, given, done.as_str())?;
    }
    Ok(done)
}

#[test]
fn lists_answer_as_worked_out(rt: HostRuntime) -> Result<(), Fail> {
    hold(rt.alloc(), LISTS, |alloc, given| said(&rt, alloc, given))
}
