ghost use Rattle.std.specs.Prelude.{◌≤◌, IfOk};
ghost use Rattle.ga_pool.specs.Stands.{StandsFor};
ghost use Rattle.ga_summary.specs.SummaryRows.{SummaryValue};
ghost use Rattle.ga_summary.specs.Sound.{IsSummary};

use crate::setup::setup;
use ga_base::{Panel, Totals};
use ga_pool::{Counted, PoolFault, Setup, count_batch};
use ga_ports::NoGate;
use std::alloc::Global;
use std::test::Fail;
use std::thread::Threads;

/// Two lines of one visitor, the same.
const BATCH: &[u8] = b"192.0.2.1 - - [01/Jan/2024:00:00:00 +0000] \"GET /a HTTP/1.1\" 200 10
192.0.2.1 - - [01/Jan/2024:00:00:00 +0000] \"GET /a HTTP/1.1\" 200 10
";

/// What this many workers count of them, in pieces of this many lines: tables for which there is a summary.
fn counted<R: Threads + Sync>(
    rt: &R,
    alloc: Global,
    setup: &Setup,
    jobs: u32,
    chunk: u32,
) -> Result<Counted, PoolFault>
    requires jobs { (1 ≤ jobs) × (jobs ≤ 16) }
    requires chunk { 1 ≤ chunk }
    ensures { IfOk result (λ counted. (s : SummaryValue) × IsSummary s × StandsFor counted s) }
{
    let gate = NoGate::new();
    count_batch(rt, alloc, setup, &Totals::ZERO, BATCH, jobs, chunk, &gate)
}

/// The three words of the key of a host: its hits, bytes and micros.
fn words_of_host(counted: &Counted) -> Option<[u64; 3]> {
    let Counted { keys, counts, .. } = counted;
    for number in 0..keys.len() {
        if keys.item(number).panel == Panel::Hosts && number < counts.words() / 3 {
            let word = 3 * number;
            return Some([counts.sum(word), counts.sum(word + 1), counts.sum(word + 2)]);
        }
    }
    None
}

/// What is counted of them.
#[derive(Clone, Copy, Debug, PartialEq, Eq)]
struct Numbers {
    keys: u32,
    visitors: u32,
    pairs: u64,
    host: Option<[u64; 3]>,
    /// How many keys, hits and bytes the summary has.
    summary: (u64, u64, u64),
}

/// What this many workers count, in pieces of this many lines.
fn numbers_by<R: Threads + Sync>(
    rt: &R,
    alloc: Global,
    jobs: u32,
    chunk: u32,
) -> Result<Numbers, Fail>
    requires jobs { (1 ≤ jobs) × (jobs ≤ 16) }
    requires chunk { 1 ≤ chunk }
{
    let counted = counted(rt, alloc, &setup(alloc, "COMMON")?, jobs, chunk)?;
    let summary = counted.summary(alloc)?;
    let totals = summary.totals();
    Ok(Numbers {
        keys: counted.keys.len(),
        visitors: counted.visitors.len(),
        pairs: counted.pairs.len(),
        host: words_of_host(&counted),
        summary: (summary.len(), totals.hits, totals.bytes),
    })
}

#[test]
fn workers_count_as_one(rt: HostRuntime) -> Result<(), Fail> {
    let alloc = rt.alloc();
    let wanted = Numbers {
        keys: 6,
        visitors: 1,
        pairs: 6,
        host: Some([2, 20, 0]),
        summary: (6, 2, 20),
    };
    assert_eq!(rt; numbers_by(&rt, alloc, 1, 1024)?, wanted);
    assert_eq!(rt; numbers_by(&rt, alloc, 2, 1)?, wanted);
    assert_eq!(rt; numbers_by(&rt, alloc, 16, 32768)?, wanted);
    Ok(())
}
