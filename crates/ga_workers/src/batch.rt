ghost use Rattle.std.specs.Prelude.{◌≡◌, ◌≤◌, [], ℕ, Ok, Some, IfOk, IsErrOf, length, true, vec_len};
ghost use Rattle.ga_base.specs.Totals.{LinesAdd, TotalsFit, no_totals, totals_plus};
ghost use Rattle.ga_base.specs.declared.counts.Counter.{Counter as TheCounter};
ghost use Rattle.ga_base.specs.declared.limits.TheConstants.{MAX_BATCH, MAX_JOBS};
ghost use Rattle.ga_line.specs.Lines.{lines};
ghost use Rattle.ga_outcomes.specs.LineOutcomes.{FillsAmong};
ghost use Rattle.ga_workers.specs.Together.{AreCounted, CountsOn, HasTallyForEach, totals_in};

use crate::counter_limits::{counters, counters_within, full_counter};
use crate::drawing::count_pieces;
use crate::pieces::pieces_of;
use crate::{Crew, PoolFault};
use ga_base::{NoMemory, Totals};
use ga_outcomes::Setup;
use ga_ports::Gate;
use ga_shards::Keyed;
use ga_tallies::Tally;
use std::alloc::Global;
use std::thread::Threads;

/// Tallies of no lines, one for each worker. Their dictionaries hash by `keyed`.
pub fn new_tallies(alloc: Global, keyed: Keyed, jobs: u32) -> Result<Vec<Tally>, NoMemory>
    ensures len { IfOk result (λ tallies. vec_len tallies ≡ jobs) }
    ensures each { IfOk result (λ tallies. HasTallyForEach jobs tallies.items) }
    ensures none { IfOk result (λ tallies. AreCounted [] tallies.items) }
    ensures totals { IfOk result (λ tallies. totals_in tallies.items ≡ no_totals) }
{
    let mut tallies = Vec::with_capacity(alloc, jobs as usize)?;
    for _ in 0..jobs {
        tallies.push(Tally::new(alloc, keyed))?;
    }
    Ok(tallies)
}

/// Counts the lines of a batch by workers, one for each tally, which counts on into it; what follows the last line feed is a
/// line. `start` is what the counters began at, before the tallies. The last worker is this thread, which calls `meanwhile`
/// before it counts: once, whatever comes of the lines.
pub fn count_on<R: Threads + Sync, G: Gate, F: FnMut() -> X, X>(
    crew: &Crew<'_, R, G>,
    start: &Totals,
    tallies: Vec<Tally>,
    batch: &[u8],
    meanwhile: &mut F,
) -> (Result<Vec<Tally>, PoolFault>, X)
    requires lines { 1 ≤ crew.now.workers.chunk }
    requires small { length batch.now ≤ MAX_BATCH }
    requires some { 1 ≤ vec_len tallies }
    requires most { vec_len tallies ≤ MAX_JOBS }
    requires start { LinesAdd start.now }
    requires before { TotalsFit (totals_plus start.now (totals_in tallies.items)) }
    requires meanwhile { F.pre meanwhile.old }
    ensures ok { IfOk result.0 (λ more. CountsOn crew.now.setup.now (lines batch.now true) tallies.items more.items) }
    ensures fit { IfOk result.0 (λ more. TotalsFit (totals_plus start.now (totals_in more.items))) }
    ensures full { (which : TheCounter) (total : ℕ) → IsErrOf result.0 (PoolFault.CounterFull which total)
        → FillsAmong crew.now.setup.now (totals_plus start.now (totals_in tallies.items)) (lines batch.now true) which total }
    ensures meanwhile { F.step meanwhile.old result.1 meanwhile.new }
{
    let before = counters(start, &tallies);
    count_from(crew, start, &before, tallies, batch, meanwhile)
}

/// As `count_on`, where the counters are at `before`.
pub fn count_from<R: Threads + Sync, G: Gate, F: FnMut() -> X, X>(
    crew: &Crew<'_, R, G>,
    start: &Totals,
    before: &Totals,
    tallies: Vec<Tally>,
    batch: &[u8],
    meanwhile: &mut F,
) -> (Result<Vec<Tally>, PoolFault>, X)
    requires lines { 1 ≤ crew.now.workers.chunk }
    requires small { length batch.now ≤ MAX_BATCH }
    requires some { 1 ≤ vec_len tallies }
    requires most { vec_len tallies ≤ MAX_JOBS }
    requires start { TotalsFit start.now }
    requires before { TotalsFit before.now }
    requires meanwhile { F.pre meanwhile.old }
    ensures ok { IfOk result.0 (λ more. CountsOn crew.now.setup.now (lines batch.now true) tallies.items more.items) }
    ensures fit { IfOk result.0 (λ more. TotalsFit (totals_plus start.now (totals_in more.items))) }
    ensures full { (which : TheCounter) (total : ℕ) → IsErrOf result.0 (PoolFault.CounterFull which total)
        → FillsAmong crew.now.setup.now before.now (lines batch.now true) which total }
    ensures meanwhile { F.step meanwhile.old result.1 meanwhile.new }
{
    let pieces = match pieces_of(crew.alloc, batch, crew.workers) {
        Ok(pieces) => pieces,
        Err(fault) => return (Err(PoolFault::from(fault)), meanwhile()),
    };
    let (counted, given) = count_pieces(crew, tallies, &pieces, meanwhile);
    (
        check_limits(crew.alloc, crew.setup, start, before, batch, counted),
        given,
    )
}

/// The tallies that have counted a batch, where no counter is full.
fn check_limits(
    alloc: Global,
    setup: &Setup,
    start: &Totals,
    before: &Totals,
    batch: &[u8],
    counted: Result<Option<Vec<Tally>>, NoMemory>,
) -> Result<Vec<Tally>, PoolFault>
    requires start { TotalsFit start.now }
    requires before { TotalsFit before.now }
    ensures ok { IfOk result (λ more. counted ≡ Ok (Some more)) }
    ensures fit { IfOk result (λ more. TotalsFit (totals_plus start.now (totals_in more.items))) }
    ensures full { (which : TheCounter) (total : ℕ) → IsErrOf result (PoolFault.CounterFull which total)
        → FillsAmong setup.now before.now (lines batch.now true) which total }
{
    let Some(tallies) = counted? else {
        return Err(full_counter(alloc, setup, before, batch));
    };
    match counters_within(start, &tallies) {
        Some(_counters) => Ok(tallies),
        None => Err(full_counter(alloc, setup, before, batch)),
    }
}
