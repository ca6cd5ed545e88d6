ghost use Rattle.std.specs.Prelude.{IfOk, List};
ghost use Rattle.ga_base.specs.declared.counts.Totals.{Totals as TheTotals};
ghost use Rattle.ga_workers.specs.Together.{AreCounted};
ghost use Rattle.ga_logs.specs.Steps.Counting.{AreSome};
ghost use Rattle.ga_summary.specs.Outcomes.{Outcome};
ghost use Rattle.ga_base.specs.Totals.{TotalsFit};
ghost use Rattle.ga_tallies.specs.Tallies.{IsTallyOf};

use ga_base::NoMemory;
use ga_tallies::Tally;
use ga_totals::Total;
use std::alloc::Global;
use std::thread::Threads;

/// The total of what each worker has counted: the first takes in what the others have.
pub(crate) fn total_of<R: Threads + Sync>(
    rt: &R,
    alloc: Global,
    tallies: Vec<Tally>,
) -> Result<Total, NoMemory>
    requires some { (start : TheTotals) × TotalsFit start × AreSome start tallies.items }
    ensures { IfOk result (λ total. (outcomes : List Outcome) → AreCounted outcomes tallies.items → IsTallyOf outcomes total) }
{
    let mut others = tallies;
    if others.is_empty() {
        return Ok(Total::new(alloc));
    }
    let first = others.remove(0);
    Ok(Total::of(first.with(rt, alloc, others)?))
}
