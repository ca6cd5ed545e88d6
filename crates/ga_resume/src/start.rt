use crate::Follow;
use ga_base::Totals;

/// From where on a run counts.
#[derive(Clone, Copy, Debug, PartialEq, Eq)]
pub struct Start {
    /// How it follows its logs.
    pub follow: Follow,
    /// The totals of what was counted before, which no counter may pass its limit beyond.
    pub totals: Totals,
}
