ghost use Rattle.std.specs.Prelude.{◌≡◌, ◌+◌, ◌<◌, ◌≤◌, ◌^◌, ◌↔◌, ℕ, Some, None, IfOk, IsErrOf};
ghost use Rattle.ga_base.specs.declared.counts.Counter.{Counter as TheCounter};
ghost use Rattle.ga_base.specs.Totals.{totals_plus, TotalsFit, LinesAdd};
ghost use Rattle.ga_summary.specs.Limits.{passes};

use crate::MergeFault;
use ga_base::{Counter, LIMIT, Totals};

/// The first of lines, bytes and micros that is above the limit, with its value.
fn first_exceeded(totals: Totals) -> Option<(Counter, u64)>
    ensures { result ≡ passes totals }
{
    if totals.lines > LIMIT {
        Some((Counter::Lines, totals.lines))
    } else if totals.bytes > LIMIT {
        Some((Counter::Bytes, totals.bytes))
    } else if totals.micros > LIMIT {
        Some((Counter::Micros, totals.micros))
    } else {
        None
    }
}

/// Adds totals, of which no counter may pass the limit.
pub(crate) fn add_totals(a: Totals, b: Totals) -> Result<Totals, MergeFault>
    requires fit { TotalsFit a }
    requires fit_more { TotalsFit b }
    requires lines { LinesAdd a }
    requires lines_more { LinesAdd b }
    ensures ok { IfOk result (λ t. t ≡ totals_plus a b) }
    ensures fit { IfOk result TotalsFit }
    ensures full { (which : TheCounter) (total : ℕ) → IsErrOf result (MergeFault.CounterFull which total) ↔ (passes (totals_plus a b) ≡ Some (which, total)) }
{
    let totals = a.plus(&b);
    match first_exceeded(totals) {
        Some((which, total)) => Err(MergeFault::CounterFull {
            which,
            total: u128::from(total),
        }),
        None => Ok(totals),
    }
}
