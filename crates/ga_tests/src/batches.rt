//! Batches, and what is counted of one.

ghost use Rattle.std.specs.Prelude.{◌≡◌, ◌+◌, ◌<◌, ◌≤◌, ◌^◌, false, length};
ghost use Rattle.ga_base.specs.Totals.{TotalsFit};
ghost use Rattle.ga_base.specs.declared.limits.TheConstants.{MAX_BATCH, MAX_JOBS};
ghost use Rattle.ga_batches.specs.declared.batcher.TheConstants.{LEAST_LIMIT};
ghost use Rattle.ga_pool.specs.Stands.{StandsFor};
ghost use Rattle.ga_summary.specs.SummaryRows.{SummaryValue};
ghost use Rattle.ga_summary.specs.Sound.{IsSummary};

use ga_base::{Counter, NoMemory, Totals};
use ga_line::LineSetup;
use ga_panels::PanelSetup;
use ga_pool::{Batcher, Counted, PoolFault, Setup, count_batch};
use ga_ports::Gate;
use ga_summary::Summary;
use std::alloc::Global;
use std::thread::Threads;

/// The faults of a batch.
pub const POOL_FAULTS: [PoolFault; 2] = [
    PoolFault::CounterFull {
        which: Counter::Lines,
        total: 0,
    },
    PoolFault::NoMemory,
];

/// How lines are read and counted.
pub fn setup(line: LineSetup, panels: PanelSetup) -> Setup {
    Setup { line, panels }
}

/// A batcher of no bytes.
pub fn batcher(alloc: Global, limit: u64) -> Result<Batcher, NoMemory>
    requires least { LEAST_LIMIT ≤ limit }
    requires most { limit ≤ MAX_BATCH }
{
    Batcher::new(alloc, limit)
}

/// Feeds bytes.
pub fn feed(batcher: &mut Batcher, piece: &[u8]) -> u64
    requires going { batcher.old.is_over ≡ false }
    requires countable { batcher.old.fed + length piece.now < 2 ^ 64 }
{
    batcher.feed(piece)
}

/// The whole lines that it holds.
pub fn batch(batcher: &Batcher) -> &[u8] {
    batcher.batch()
}

/// Drops them.
pub fn take(batcher: &mut Batcher) {
    batcher.take()
}

/// Ends the stream.
pub fn end(batcher: &mut Batcher, keep: bool) {
    batcher.end(keep)
}

/// How many bytes were fed up to the last line feed.
pub fn ended(batcher: &Batcher) -> u64 {
    batcher.ended()
}

/// Counts a batch.
pub fn count<R: Threads + Sync, G: Gate>(
    rt: &R,
    alloc: Global,
    setup: &Setup,
    before: &Totals,
    batch: &[u8],
    jobs: u32,
    gate: &G,
) -> Result<Counted, PoolFault>
    requires small { length batch.now ≤ MAX_BATCH }
    requires some { 1 ≤ jobs }
    requires most { jobs ≤ MAX_JOBS }
    requires before { TotalsFit before.now }
{
    count_batch(rt, alloc, setup, before, batch, jobs, 1, gate)
}

/// The totals of what was counted, of which each field is named.
pub fn totals_of(counted: &Counted) -> &Totals {
    let Counted {
        totals,
        keys: _,
        visitors: _,
        counts: _,
        pairs: _,
    } = counted;
    totals
}

/// The summary of it.
pub fn summary_of(alloc: Global, counted: &Counted) -> Result<Summary, NoMemory>
    requires { (s : SummaryValue) × IsSummary s × StandsFor counted.now s }
{
    counted.summary(alloc)
}
