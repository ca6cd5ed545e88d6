//! Sums and maxima that threads add to side by side.
//!
//! A `CountTable` is shared by reference, and each thread adds and raises by a `CountSeat` of its own. A seat is split for
//! another thread and joined afterwards. The seat that has all shares closes the table: the sums and maxima of the
//! `CountClosed` are exactly what all seats together put in.
//! `specs/Counts.antt` has the state and its invariant, `specs/Events.antt` what can happen to it.
#![tactic(auto)]

mod count_closed;
pub mod laws;
mod rule;
mod table;
mod view;

pub use count_closed::CountClosed;
pub use table::{CountSeat, CountTable};
pub use view::{CountView, Opening};
