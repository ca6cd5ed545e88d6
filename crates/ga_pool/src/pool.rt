ghost use Rattle.std.specs.Prelude.{◌≡◌, ◌≤◌, ◌<◌, ◌-◌, ◌^◌, ℕ, List, IfOk, IsErrOf, length, sum_by, true, vec_len};
ghost use Rattle.ga_base.specs.Totals.{TotalsFit};
ghost use Rattle.ga_base.specs.declared.counts.Counter.{Counter as TheCounter};
ghost use Rattle.ga_base.specs.declared.limits.TheConstants.{MAX_BATCH, MAX_JOBS};
ghost use Rattle.ga_line.specs.Lines.{lines};
ghost use Rattle.ga_outcomes.specs.LineOutcomes.{FillsAmong};
ghost use Rattle.ga_pool.specs.CountedBatch.{CountsBatch, StandsForSum};
ghost use Rattle.ga_shards.specs.Numbers.{IsNumbering};
ghost use Rattle.ga_summary.specs.Outcomes.{Outcome};
ghost use Rattle.ga_summary.specs.Sound.{AllCountable};
ghost use Rattle.ga_workers.specs.Together.{AreCounted, totals_in};

use crate::Counted;
use crate::filling::fill;
use crate::table_inputs::{TableInputs, can_number, table_inputs};
use ga_base::{NoMemory, Noted, Totals};
use ga_outcomes::Setup;
use ga_ports::Gate;
use ga_shards::{Dictionary, Keyed, Numbering, number_keyed};
use ga_tallies::Tally;
use ga_workers::{Crew, PoolFault, Workers, count_from, counters, keyed_by, new_tallies};
use std::alloc::Global;
use std::thread::Threads;

/// Counts the lines of a batch by this many workers, in pieces of at most `chunk` lines; what follows the last line feed is a
/// line. `before` is what the counters begin at. The answer doesn't depend on the workers, the pieces or the gate.
pub fn count_batch<R: Threads + Sync, G: Gate>(
    rt: &R,
    alloc: Global,
    setup: &Setup,
    before: &Totals,
    batch: &[u8],
    jobs: u32,
    chunk: u32,
    gate: &G,
) -> Result<Counted, PoolFault>
    requires small { length batch.now ≤ MAX_BATCH }
    requires some { 1 ≤ jobs }
    requires most { jobs ≤ MAX_JOBS }
    requires lines { 1 ≤ chunk }
    requires before { TotalsFit before.now }
    ensures ok { IfOk result (CountsBatch setup.now before.now (lines batch.now true)) }
    ensures full { (which : TheCounter) (total : ℕ) → IsErrOf result (PoolFault.CounterFull which total)
        → FillsAmong setup.now before.now (lines batch.now true) which total }
{
    let workers = Workers { jobs, chunk };
    let crew = Crew {
        rt,
        gate,
        alloc,
        setup,
        workers,
    };
    let keyed = keyed_by(batch, batch.len() as u64, before);
    let tallies = new_tallies(alloc, keyed, jobs)?;
    let (counted, ()) = count_from(&crew, before, before, tallies, batch, &mut || {});
    Ok(put_together(rt, alloc, keyed, counted?)?)
}

/// Puts what workers have counted into tables that they share.
fn put_together<R: Threads + Sync>(
    rt: &R,
    alloc: Global,
    keyed: Keyed,
    tallies: Vec<Tally>,
) -> Result<Counted, NoMemory>
    requires some { 1 ≤ vec_len tallies }
    requires most { vec_len tallies ≤ MAX_JOBS }
    requires tallies { (outcomes : List Outcome) × AreCounted outcomes tallies.items }
    requires fit { TotalsFit (totals_in tallies.items) }
    ensures { IfOk result (λ counted. (outcomes : List Outcome) → AreCounted outcomes tallies.items → AllCountable outcomes
        → StandsForSum outcomes counted) }
{
    let workers = tallies.len() as u32;
    let totals = counters(&Totals::ZERO, &tallies);
    let TableInputs {
        keys,
        visitors,
        rows,
    } = table_inputs(alloc, tallies)?;
    let keys = number_items(rt, alloc, keyed, keys, workers)?;
    let visitors = number_items(rt, alloc, keyed, visitors, workers)?;
    let (counts, pairs) = fill(rt, alloc, &keys, &visitors, rows, totals)?;
    Ok(Counted {
        totals,
        keys,
        visitors,
        counts,
        pairs,
    })
}

/// Gives each different item of these dictionaries one number, and drops them.
fn number_items<R: Threads + Sync, T: Noted + Drop>(
    rt: &R,
    alloc: Global,
    keyed: Keyed,
    dictionaries: Vec<Dictionary<T>>,
    shards: u32,
) -> Result<Numbering<T>, NoMemory>
    requires { 1 ≤ shards }
    ensures few { IfOk result (λ _. sum_by (λ items. length items) dictionaries.items < 2 ^ 32 - 1) }
    ensures numbering { IfOk result (IsNumbering T.eq dictionaries.items) }
{
    // More items than numbers of 32 bits take more memory than there is.
    if !can_number(&dictionaries) {
        return Err(NoMemory);
    }
    number_keyed(rt, alloc, keyed, &dictionaries, shards)
}
