//! A batch can be counted in two ways: as a run counts its logs, and into tables. Both have one summary.

ghost use Rattle.std.specs.Prelude.{◌≡◌, ◌≤◌, IfOk};
ghost use Rattle.ga_pool.specs.Stands.{StandsFor};
ghost use Rattle.ga_summary.specs.SummaryRows.{SummaryValue};
ghost use Rattle.ga_summary.specs.Sound.{IsSummary};
ghost use Rattle.ga_workers.specs.Workers.{AreWorkers};

use crate::setup::setup;
use ga_base::{DateSpec, Entries, FormatFault, HourSpec, Panel, Text, Texts, Totals};
use ga_cases::hold;
use ga_logs::{CountFault, count_logs};
use ga_pool::{Counted, PoolFault, Setup, count_batch};
use ga_ports::{MemFiles, NoGate};
use ga_resume::{Follow, Start};
use ga_summary::Summary;
use ga_workers::{Crew, Workers};
use std::alloc::Global;
use std::test::Fail;
use std::thread::Threads;

/// Lines of three visitors on two days, a comment, a line that fails, and one that isn't ended.
const LOG: &[u8] =
    b"192.0.2.1 - - [01/Jan/2024:00:00:00 +0000] \"GET /a HTTP/1.1\" 200 10 \"https://example.com/x\" \"Mozilla/5.0 (X11; Linux x86_64) Firefox/120.0\"
192.0.2.2 - jo [01/Jan/2024:05:00:00 +0000] \"GET /b.css HTTP/1.0\" 404 - \"-\" \"curl/8.0\"
# a comment
192.0.2.1 - - [02/Jan/2024:05:09:59 +0000] \"POST /a?x=1 HTTP/1.1\" 301 7 \"-\" \"Mozilla/5.0 (X11; Linux x86_64) Firefox/120.0\"
no line of this format
192.0.2.3 - - [02/Jan/2024:05:10:00 +0000] \"GET /a HTTP/1.1\" 200 10 \"-\" \"-\"";

/// How finely it is told when visitors came, a bar and how many workers count the log; and what is counted: lines, failed lines,
/// hits, bytes and keys, and the labels of days and of times of the day.
const CASES: &str = "\
## days and hours
hours|1 => 5 1 4 27 35 20240101 20240102 00 05 05
hours|4 => 5 1 4 27 35 20240101 20240102 00 05 05
## minutes of days, and tens of minutes of the day
minutes|1 => 5 1 4 27 40 20240101 202401010000 202401010500 20240102 202401020509 202401020510 00:00 05:00 05:00 05:10
minutes|4 => 5 1 4 27 40 20240101 202401010000 202401010500 20240102 202401020509 202401020510 00:00 05:00 05:00 05:10
";

/// How a case has lines counted.
fn setup_of(alloc: Global, fineness: &str) -> Result<Setup, FormatFault> {
    let mut setup = setup(alloc, "COMBINED")?;
    if fineness == "minutes" {
        setup.panels.date_spec = DateSpec::Minute;
        setup.panels.hour_spec = HourSpec::Tens;
    }
    Ok(setup)
}

/// One worker, who takes two lines at a time, or four, who take one.
fn workers_of(jobs: &str) -> Workers
    ensures { AreWorkers result }
{
    if jobs == "1" {
        Workers { jobs: 1, chunk: 2 }
    } else {
        Workers { jobs: 4, chunk: 1 }
    }
}

/// The summary of the log that a run counts.
fn summary_of_log<R: Threads + Sync>(
    rt: &R,
    alloc: Global,
    setup: &Setup,
    workers: Workers,
) -> Result<Summary, CountFault>
    requires { AreWorkers workers }
{
    let crew = Crew {
        rt,
        gate: &NoGate::new(),
        alloc,
        setup,
        workers,
    };
    let start = Start {
        follow: Follow::Whole,
        totals: Totals::ZERO,
    };
    let name = Text::of(alloc, "a.log")?;
    let mut files = MemFiles::new(alloc);
    files.grow(&name, LOG)?;
    let mut names = Texts::new(alloc);
    names.push(name)?;
    let mut entries = Entries::new(alloc);
    let total = count_logs(&crew, start, None, names.items(), &mut entries, &mut files)?;
    Ok(total.summary(alloc)?)
}

/// What is counted of the log as one batch, for which there is a summary.
fn counted<R: Threads + Sync>(
    rt: &R,
    alloc: Global,
    setup: &Setup,
    workers: Workers,
) -> Result<Counted, PoolFault>
    requires { AreWorkers workers }
    ensures { IfOk result (λ counted. (s : SummaryValue) × IsSummary s × StandsFor counted s) }
{
    let Workers { jobs, chunk } = workers;
    let gate = NoGate::new();
    count_batch(rt, alloc, setup, &Totals::ZERO, LOG, jobs, chunk, &gate)
}

/// Whether two summaries have the same totals and rows.
fn is_same(a: &Summary, b: &Summary) -> bool {
    if a.totals() != b.totals() || a.len() != b.len() {
        return false;
    }
    for at in 0..a.len() {
        let (one, other) = (a.row(at), b.row(at));
        if one.key != other.key
            || one.sums != other.sums
            || one.names.items() != other.names.items()
        {
            return false;
        }
    }
    true
}

/// What a summary has, as the cases write it.
fn shown(alloc: Global, sum: &Summary) -> Result<String, Fail> {
    let t = sum.totals();
    let mut text = format!(in alloc;
        "{} {} {} {} {}",
        t.lines,
        t.failed,
        t.hits,
        t.bytes,
        sum.len()
    )?;
    for at in 0..sum.len() {
        let key = sum.row(at).key;
        if matches!(key.panel, Panel::Visitors | Panel::VisitTimes) {
            text.push(' ')?;
            text.push_str(key.label.as_str())?;
        }
    }
    Ok(text)
}

/// What is counted of the log in both ways, as the cases write it.
fn said<R: Threads + Sync>(rt: &R, alloc: Global, case: &str) -> Result<String, Fail> {
    let (fineness, jobs) = case.split_once('|').unwrap_or((case, ""));
    let workers = workers_of(jobs);
    let setup = setup_of(alloc, fineness)?;
    let of_log = summary_of_log(rt, alloc, &setup, workers)?;
    let of_batch = counted(rt, alloc, &setup, workers)?.summary(alloc)?;
    if is_same(&of_log, &of_batch) {
        shown(alloc, &of_log)
    } else {
        Err(Fail::new("two summaries"))
    }
}

#[test]
fn both_ways_have_one_summary(rt: HostRuntime) -> Result<(), Fail> {
    hold(rt.alloc(), CASES, |alloc, case| said(&rt, alloc, case))
}
