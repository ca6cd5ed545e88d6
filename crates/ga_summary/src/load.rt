ghost use Rattle.std.specs.Prelude.{◌≡◌, ◌+◌, ◌<◌, ◌≤◌, MatchOption};
ghost use Rattle.ga_summary.specs.Steps.Loads.{LoadWithin, load_plus, sums_load, totals_load};

use ga_base::{Sums, Totals};

/// What rows sum to: their hits, bytes and microseconds.
#[derive(Clone, Copy, Debug, PartialEq, Eq)]
pub(crate) struct Load {
    pub(crate) hits: u64,
    pub(crate) bytes: u64,
    pub(crate) micros: u64,
}

/// The sum, or None where it is above the most that is allowed.
fn add_within(a: u64, b: u64, most: u64) -> Option<u64>
    ensures { MatchOption result (most < a + b) (λ sum. (sum ≡ a + b) × (sum ≤ most)) }
{
    match a.checked_add(b) {
        Some(sum) if sum <= most => Some(sum),
        _ => None,
    }
}

impl Load {
    /// What no rows sum to.
    pub(crate) const NONE: Load = Load {
        hits: 0,
        bytes: 0,
        micros: 0,
    };

    /// What one row sums to.
    pub(crate) fn of_sums(sums: Sums) -> Load
        ensures { result ≡ sums_load sums }
    {
        Load {
            hits: sums.hits,
            bytes: sums.bytes,
            micros: sums.micros,
        }
    }

    /// What all lines sum to.
    pub(crate) fn of_totals(totals: Totals) -> Load
        ensures { result ≡ totals_load totals }
    {
        Load {
            hits: totals.hits,
            bytes: totals.bytes,
            micros: totals.micros,
        }
    }

    /// Both together, or None where one of the three is above the most that is allowed.
    pub(crate) fn add(self, more: Load, most: Load) -> Option<Load>
        ensures { MatchOption result (¬ LoadWithin (load_plus self more) most)
            (λ load. (load ≡ load_plus self more) × LoadWithin load most) }
    {
        Some(Load {
            hits: add_within(self.hits, more.hits, most.hits)?,
            bytes: add_within(self.bytes, more.bytes, most.bytes)?,
            micros: add_within(self.micros, more.micros, most.micros)?,
        })
    }
}
