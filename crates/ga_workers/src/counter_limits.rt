ghost use Rattle.std.specs.Prelude.{◌≡◌, ◌+◌, ◌↔◌, ◌≤◌, ℕ, List, None, Some, IfOk, IfSome, IsTrue, OnOk, true};
ghost use Rattle.std.specs.Result.{IsErrOf};
ghost use Rattle.ga_base.specs.declared.counts.Counter.{Counter as TheCounter};
ghost use Rattle.ga_base.specs.declared.record.Line.TheVariants.{Good as SaysRecord};
ghost use Rattle.ga_line.specs.Bounds.{KeepsBounds, RecordBounds};
ghost use Rattle.ga_line.specs.Lines.{lines};
ghost use Rattle.ga_workers.specs.Steps.CounterLimits.{IsLight, WeighsLine, WeighsSaid, IsWithin, weight_plus, weighed, weight_in};
ghost use Rattle.ga_workers.specs.Together.{totals_in};
ghost use Rattle.ga_summary.specs.Limits.{passes};
ghost use Rattle.ga_base.specs.Totals.{LinesAdd, totals_plus, TotalsFit};
ghost use Rattle.ga_outcomes.specs.LineOutcomes.{FillsAmong};

use crate::PoolFault;
use ga_base::{Counter, LIMIT, Line, NoMemory, Record, Totals};
use ga_line::{Lines, read_line};
use ga_outcomes::Setup;
use ga_panels::{PanelSetup, is_excluded, keys_of};
use ga_tallies::Tally;
use std::alloc::Global;

/// What counts for a limit.
#[derive(Clone, Copy)]
struct Weight {
    /// Lines.
    lines: u64,
    /// Bytes of counted lines.
    bytes: u64,
    /// Microseconds of counted lines.
    micros: u64,
}

/// What the counters are at after what tallies have counted, where they began at `start`.
pub fn counters(start: &Totals, tallies: &[Tally]) -> Totals
    requires lines { LinesAdd start.now }
    requires fit { TotalsFit (totals_plus start.now (totals_in tallies.now)) }
    ensures { result ≡ totals_plus start.now (totals_in tallies.now) }
{
    let mut totals = *start;
    for tally in tallies {
        totals = totals.plus(&tally.totals());
    }
    totals
}

/// The same as `counters`, or None where they don't fit their limits.
pub(crate) fn counters_within(start: &Totals, tallies: &[Tally]) -> Option<Totals>
    requires { TotalsFit start.now }
    ensures { IfSome result (λ totals. (totals ≡ totals_plus start.now (totals_in tallies.now)) × TotalsFit totals) }
{
    let mut totals = *start;
    for tally in tallies {
        totals = checked_plus(totals, tally.totals())?;
    }
    Some(totals)
}

/// The sum of two totals, or None where it doesn't fit its limits.
fn checked_plus(a: Totals, b: Totals) -> Option<Totals>
    ensures { IfSome result (λ totals. (totals ≡ totals_plus a b) × TotalsFit totals) }
{
    let totals = Totals {
        lines: a.lines.checked_add(b.lines)?,
        failed: a.failed.checked_add(b.failed)?,
        excluded: a.excluded.checked_add(b.excluded)?,
        hits: a.hits.checked_add(b.hits)?,
        bytes: a.bytes.checked_add(b.bytes)?,
        micros: a.micros.checked_add(b.micros)?,
    };
    if totals.lines <= LIMIT && totals.bytes <= LIMIT && totals.micros <= LIMIT {
        Some(totals)
    } else {
        None
    }
}

/// The first counter that passes its limit along these lines, one line after the other. Lack of memory is answered where
/// none does.
pub(crate) fn full_counter(alloc: Global, setup: &Setup, before: &Totals, batch: &[u8]) -> PoolFault
    requires { TotalsFit before.now }
    ensures { (which : TheCounter) (total : ℕ) → result ≡ PoolFault.CounterFull which total → FillsAmong setup.now before.now (lines batch.now true) which total }
{
    let start = Weight {
        lines: before.lines,
        bytes: before.bytes,
        micros: before.micros,
    };
    match weigh_lines(alloc, setup, start, batch) {
        Ok(()) => PoolFault::NoMemory,
        Err(fault) => fault,
    }
}

/// Adds up what the lines weigh, until a counter passes its limit.
fn weigh_lines(alloc: Global, setup: &Setup, start: Weight, batch: &[u8]) -> Result<(), PoolFault>
    requires { IsWithin start }
    ensures { (before : _) (which : TheCounter) (total : ℕ) → start ≡ weight_in before → IsErrOf result (PoolFault.CounterFull which total)
        → FillsAmong setup.now before (lines batch.now true) which total }
{
    let mut weight = start;
    for line in Lines::of(batch, true) {
        if let Some(more) = weight_of_line(alloc, setup, line)? {
            weight = add_weight(weight, more)?;
        }
    }
    Ok(())
}

/// The sum of two weights, where no counter passes its limit; the first that does else.
fn add_weight(weight: Weight, more: Weight) -> Result<Weight, PoolFault>
    requires weight { IsWithin weight }
    requires more { IsLight more }
    ensures sum { IfOk result (λ sum. sum ≡ weight_plus weight more) }
    ensures fits { IfOk result IsWithin }
    ensures none { OnOk result (passes (weighed (weight_plus weight more)) ≡ None) }
    ensures full { (which : TheCounter) (total : ℕ) → IsErrOf result (PoolFault.CounterFull which total)
        → passes (weighed (weight_plus weight more)) ≡ Some (which, total) }
{
    let sum = Weight {
        lines: check_limit(Counter::Lines, weight.lines + more.lines)?,
        bytes: check_limit(Counter::Bytes, weight.bytes + more.bytes)?,
        micros: check_limit(Counter::Micros, weight.micros + more.micros)?,
    };
    Ok(sum)
}

/// The value of a counter, where it doesn't pass its limit.
fn check_limit(which: Counter, total: u64) -> Result<u64, PoolFault>
    ensures ok { IfOk result (λ value. (value ≡ total) × (total ≤ LIMIT)) }
    ensures full { (counter : TheCounter) (value : ℕ) → IsErrOf result (PoolFault.CounterFull counter value)
        → (counter ≡ which) × (value ≡ total) × (LIMIT + 1 ≤ total) }
{
    if total > LIMIT {
        return Err(PoolFault::CounterFull {
            which,
            total: u128::from(total),
        });
    }
    Ok(total)
}

/// What a line weighs, or None where it is passed over.
fn weight_of_line(alloc: Global, setup: &Setup, line: &[u8]) -> Result<Option<Weight>, NoMemory>
    ensures { IfOk result (WeighsLine setup.now line.now) }
{
    let said = read_line(alloc, &setup.line, line)?;
    weight_of_said(alloc, &setup.panels, &said)
}

/// The weight of what a line says, or None where it is passed over.
fn weight_of_said(
    alloc: Global,
    panels: &PanelSetup,
    said: &Line,
) -> Result<Option<Weight>, NoMemory>
    requires { KeepsBounds said.now }
    ensures { IfOk result (WeighsSaid panels.now said.now) }
{
    match said {
        Line::Skipped => Ok(None),
        Line::Failed => Ok(Some(Weight {
            lines: 1,
            bytes: 0,
            micros: 0,
        })),
        Line::Good(rec) => Ok(Some(weight_of_record(alloc, panels, rec)?)),
    }
}

/// What a record weighs: an excluded one is a line without bytes.
fn weight_of_record(alloc: Global, panels: &PanelSetup, rec: &Record) -> Result<Weight, NoMemory>
    requires { RecordBounds rec.now }
    ensures { IfOk result (λ weight. WeighsSaid panels.now (SaysRecord rec.now) (Some weight)) }
{
    if is_excluded(panels, rec) {
        return Ok(Weight {
            lines: 1,
            bytes: 0,
            micros: 0,
        });
    }
    // What is counted has keys, which are of no interest here.
    let _keys = keys_of(alloc, panels, rec)?;
    Ok(Weight {
        lines: 1,
        bytes: rec.bytes,
        micros: rec.micros.unwrap_or(0),
    })
}
