//! Pairs of numbers that threads claim side by side: each pair is won by one of those who ask for it.
//!
//! A `PairSet` is shared by reference, and each thread inserts by a `PairSeat` of its own. A seat is split for another thread
//! and joined afterwards. The seat that has all shares closes the set: the words of the `PairClosed` are those of the pairs
//! that all seats asked, each once.
//! `specs/Pairs.antt` has the state and its invariant, `specs/Events.antt` what can happen to it.
#![tactic(auto)]

mod home;
mod insert;
pub mod laws;
mod pair_closed;
mod rule;
mod set;
mod view;

pub use insert::Insert;
pub use pair_closed::PairClosed;
pub use set::{PairSeat, PairSet};
pub use view::{Claims, Opening, Pair, PairView, Probe};
