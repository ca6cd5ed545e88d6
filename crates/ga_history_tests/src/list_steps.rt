//! What the table of lists says, as steps and as a world in which they are made.

ghost use Rattle.std.specs.Prelude.{IfOk};
ghost use Rattle.ga_run.specs.History.{IsBlank};

use ga_base::{Bytes, NoMemory, Text, Texts};
use ga_ports::To;
use ga_run::{Step, World};
use std::alloc::Global;
use std::test::Fail;

/// The number in a text, where a star is this one.
fn number_of(text: &str, star: u64) -> Result<u64, Fail> {
    match text {
        "*" => Ok(star),
        _ => Ok(text.parse::<u64>()?),
    }
}

/// The options of a run, between bars.
fn options_of(mode: &str) -> &'static str {
    match mode {
        "track" => "--log-format=COMMON|-o|csv|--restore|--persist",
        "track2" => "--log-format=COMMON|-o|csv|--restore|--persist|--keep-last=2",
        "track3" => "--log-format=COMMON|-o|csv|--restore|--persist|--keep-last=3",
        "anew" => "--log-format=COMMON|-o|csv|--persist",
        "anew3" => "--log-format=COMMON|-o|csv|--persist|--keep-last=3",
        "show2" => "--log-format=COMMON|-o|csv|--restore|--keep-last=2",
        _ => "--log-format=COMMON|-o|csv|--restore",
    }
}

/// The words of a run over these logs.
fn words_of(alloc: Global, run: &str) -> Result<Texts, NoMemory> {
    let (mode, logs) = run.split_once(' ').unwrap_or((run, ""));
    let mut words = Texts::new(alloc);
    for option in options_of(mode).split('|') {
        words.push(Text::of(alloc, option)?)?;
    }
    for log in logs.split(' ') {
        if !log.is_empty() {
            words.push(Text::of(alloc, log)?)?;
        }
    }
    Ok(words)
}

/// The front of a line that asks for a page, on the first day or on the one that is named, and the rest of one.
fn push_front(lines: &mut String, page: &str) -> Result<(), NoMemory> {
    let (page, day) = page.split_once('@').unwrap_or((page, "1"));
    lines.push_str("192.0.2.1 - - [0")?;
    lines.push_str(day)?;
    lines.push_str("/Jan/2024:00:00:00 +0000] \"GET ")?;
    lines.push_str(page)?;
    Ok(())
}

const REST: &str = " HTTP/1.1\" 200 10\n";

/// Adds what a log grows by for a page: a line, the front of one, the rest of one, or a line that doesn't fit.
fn push_page(lines: &mut String, page: &str) -> Result<(), NoMemory> {
    if page == "!" {
        lines.push_str("broken\n")?;
        return Ok(());
    }
    if page == "~" {
        lines.push_str(REST)?;
        return Ok(());
    }
    match page.strip_suffix('~') {
        Some(begun) => push_front(lines, begun),
        None => {
            push_front(lines, page)?;
            lines.push_str(REST)?;
            Ok(())
        }
    }
}

/// A log grows by these pages.
fn growth_of(alloc: Global, text: &str) -> Result<Step, Fail> {
    let (log, pages) = text.split_once(' ').ok_or("a log and its pages")?;
    let mut lines = String::new(alloc);
    for page in pages.split(' ') {
        push_page(&mut lines, page)?;
    }
    Ok(Step::Grow {
        name: Text::of(alloc, log)?,
        bytes: Bytes::of(alloc, lines.as_bytes())?,
    })
}

/// A log gets another name.
fn renaming_of(alloc: Global, text: &str) -> Result<Step, Fail> {
    let (from, to) = text.split_once(' ').ok_or("two names")?;
    Ok(Step::Rename {
        from: Text::of(alloc, from)?,
        to: Text::of(alloc, to)?,
    })
}

/// The pick of one byte, or none.
fn pick_of(alloc: Global, text: &str) -> Result<Bytes, Fail> {
    if text == "-" {
        return Ok(Bytes::of(alloc, b"")?);
    }
    Ok(Bytes::of(alloc, &[text.parse::<u8>()?])?)
}

/// A run, and a crash.
fn crash_of(alloc: Global, text: &str, star: u64) -> Result<Step, Fail> {
    let (calls, rest) = text.split_once(' ').ok_or("calls")?;
    let (pick, run) = rest.split_once(' ').ok_or("a pick and a run")?;
    Ok(Step::Crash {
        words: words_of(alloc, run)?,
        calls: number_of(calls, star)?,
        pick: pick_of(alloc, pick)?,
    })
}

/// The step that a text says.
fn step_of(alloc: Global, text: &str, star: u64) -> Result<Step, Fail> {
    if let Some(growth) = text.strip_prefix("+ ") {
        return growth_of(alloc, growth);
    }
    if let Some(names) = text.strip_prefix("> ") {
        return renaming_of(alloc, names);
    }
    if let Some(crash) = text.strip_prefix("crash ") {
        return crash_of(alloc, crash, star);
    }
    Ok(Step::Run {
        words: words_of(alloc, text)?,
    })
}

/// The steps of a list.
pub fn steps_of(alloc: Global, list: &str, star: u64) -> Result<Vec<Step>, Fail> {
    let mut steps = Vec::new(alloc);
    for text in list.split("; ") {
        steps.push(step_of(alloc, text, star)?)?;
    }
    Ok(steps)
}

/// A world in which nothing is, where one call is to fail or standard output has a room. Calls are counted from 1.
pub fn world_of(alloc: Global, setting: &str, star: u64) -> Result<World, Fail>
    ensures { IfOk result (λ world. IsBlank world) }
{
    let mut world = World::new(alloc);
    let (what, number) = setting.split_once(' ').unwrap_or((setting, "0"));
    let number = number_of(number, star.saturating_add(1))?;
    match what {
        "disk" => world.disk.fail_at(number)?,
        "files" => world.files.fail_at(number)?,
        "outs" => world.outs.fail_at(number)?,
        "room" => world.outs.set_room(To::Stdout, number),
        _ => {}
    }
    Ok(world)
}
