use crate::faults::{FILE_FAULTS, WORD_FAULTS};
use crate::histories::HISTORIES;
use crate::kept_days::KEPT_DAYS;
use crate::reports::REPORTS;
use crate::world::World;
use ga_base::Text;
use std::alloc::Global;
use std::test::Fail;
use std::thread::Threads;

/// By these workers each run is tried: one, with pieces as long as no word says and with longer ones, and many.
const WORKERS: [&str; 3] = ["", "--chunk-size=32768|", "--jobs=16|--chunk-size=1|"];

/// The names of a run's files, in the order in which it has them.
const NAMES: [&str; 3] = ["a.log", "b.log", "agents.txt"];

/// What stands between the parts of a run.
const PART: &str = "\n-----\n";

/// The text before a mark, and the text after it.
fn cut<'a>(text: &'a str, mark: &str) -> Result<(&'a str, &'a str), Fail> {
    match text.split_once(mark) {
        Some(parts) => Ok(parts),
        None => Err(Fail::new(format_args!("lacks a part: {text}"))),
    }
}

/// Holds a run in a world to its answer.
fn hold_run<R: Threads + Sync>(
    rt: &R,
    alloc: Global,
    world: &mut World,
    name: &str,
    words: &str,
    answer: &str,
) -> Result<(), Fail> {
    if world.answer(rt, alloc, words)?.as_slice() == answer.as_bytes() {
        return Ok(());
    }
    Err(Fail::new(format_args!("{name}: {words} has another answer")))
}

/// Holds a run of a table to its answer, by these workers.
fn hold_case<R: Threads + Sync>(
    rt: &R,
    alloc: Global,
    workers: &str,
    case: &str,
) -> Result<(), Fail> {
    let (name, rest) = cut(case, PART)?;
    let (words, rest) = cut(rest, PART)?;
    let (contents, answer) = cut(rest, PART)?;
    let mut world = World::new(alloc);
    for (name, content) in NAMES.iter().zip(contents.split("\n+++++\n")) {
        world.grow(alloc, name, content.as_bytes())?;
    }
    let words = format!(in alloc; "{workers}{words}")?;
    hold_run(rt, alloc, &mut world, name, &words, answer)
}

/// Holds each run of a table to its answer, by these workers.
fn hold_all<R: Threads + Sync>(
    rt: &R,
    alloc: Global,
    workers: &str,
    table: &str,
) -> Result<(), Fail> {
    for case in table.split("\n=====\n") {
        hold_case(rt, alloc, workers, case)?;
    }
    Ok(())
}

#[test]
fn runs_answer_as_worked_out(rt: HostRuntime) -> Result<(), Fail> {
    let alloc = rt.alloc();
    hold_all(&rt, alloc, "", WORD_FAULTS)?;
    for workers in WORKERS {
        hold_all(&rt, alloc, workers, REPORTS)?;
        hold_all(&rt, alloc, workers, KEPT_DAYS)?;
        hold_all(&rt, alloc, workers, FILE_FAULTS)?;
    }
    Ok(())
}

/// Takes a step of a history, and holds it to its answer where it is a run.
fn hold_step<R: Threads + Sync>(
    rt: &R,
    alloc: Global,
    world: &mut World,
    workers: &str,
    name: &str,
    step: &str,
) -> Result<(), Fail> {
    let (head, rest) = cut(step, PART)?;
    if let Some(log) = head.strip_prefix('+') {
        world.grow(alloc, log, rest.as_bytes())?;
        return Ok(());
    }
    if let Some(names) = head.strip_prefix('>') {
        let (from, to) = cut(names, "|")?;
        world
            .files
            .rename(&Text::of(alloc, from)?, &Text::of(alloc, to)?)?;
        return Ok(());
    }
    let words = format!(in alloc; "{workers}{head}")?;
    hold_run(rt, alloc, world, name, &words, rest)
}

/// Holds the runs of a history to their answers, by these workers.
fn hold_history<R: Threads + Sync>(
    rt: &R,
    alloc: Global,
    workers: &str,
    history: &str,
) -> Result<(), Fail> {
    let mut world = World::new(alloc);
    let (name, steps) = cut(history, "\n~~~~~\n")?;
    for step in steps.split("\n~~~~~\n") {
        hold_step(rt, alloc, &mut world, workers, name, step)?;
    }
    Ok(())
}

#[test]
fn tracked_runs_answer_as_worked_out(rt: HostRuntime) -> Result<(), Fail> {
    let alloc = rt.alloc();
    for workers in WORKERS {
        for history in HISTORIES.split("\n=====\n") {
            hold_history(&rt, alloc, workers, history)?;
        }
    }
    Ok(())
}
