//! Numbers that threads draw, each once: 0, 1, 2 and so on, in whatever order the threads come.
//!
//! `Draws` is shared by reference, and each thread draws by a `DrawSeat` of its own. A seat is split for another thread and
//! joined afterwards. A seat that has all shares has drawn the numbers below the length of its list, each once.
//! `specs/Draws.antt` has the state and its invariant, `specs/Events.antt` what can happen to it.
//!
//! What all tables that threads share have in common is here too. A seat has a share of the right to know the whole, and an
//! allowance of what it may still do: whoever has all shares again knows all that was done. `specs/Views.antt` has the words,
//! and `Cut` and `Witness` name in proofs what a call is given.
#![tactic(auto)]

mod draws;
pub mod laws;
mod rule;
mod view;
mod witnesses;

pub use draws::{DrawSeat, Draws};
pub use view::{DrawView, Opening};
pub use witnesses::{Cut, Witness};
