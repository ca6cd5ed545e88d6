use crate::VisitorRow;
use ga_base::{Sums, Totals};
use ga_numbers::{KeyNumbers, VisitorNumbers};

/// What a tally is made of.
#[derive(Drop)]
pub struct TallyParts {
    /// What was counted over all lines.
    pub totals: Totals,
    /// The keys, each at its number.
    pub keys: KeyNumbers,
    /// The visitors, each at its number.
    pub visitors: VisitorNumbers,
    /// The sums of each key, at its number.
    pub sums: Vec<Sums>,
    /// The visitors of each key, by their numbers, at the key's number. Keys after the last row have none, and a visitor may
    /// are in a row more than once.
    pub visits: Vec<VisitorRow>,
}
