//! What one worker counts of lines, in numbers of its own.
//!
//! Start with `Tally`. `specs/Tallies.antt` says what a tally of outcomes is: keys and visitors by numbers, sums by a key's
//! number, and the pairs of a key and a visitor of it, kept as a row of visitors for each key. `Agents` keeps what agents are
//! from one line to the next. A tally can take in what others have counted.
#![tactic(auto)]

mod absorbing;
mod agents;
mod count_line;
mod fault;
mod note_keys;
mod pairs;
mod place_table;
mod remapped_tally;
mod tally;
mod tally_columns;
mod tally_parts;
mod visiting;
mod weighing;

pub use agents::Agents;
pub use fault::TallyFault;
pub use pairs::{Pair, VisitorRow, pairs_of};
pub use tally::Tally;
pub use tally_parts::TallyParts;
pub use weighing::part_of;
