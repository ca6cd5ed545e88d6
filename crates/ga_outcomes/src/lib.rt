//! The outcomes of the lines of logs, and their sum.
//!
//! `Setup` is how lines are read and counted; `specs/LineOutcomes.antt` says which outcomes lines have by it, and `laws` that
//! all lines have some.
#![tactic(auto)]

pub mod laws;
mod setup;

pub use setup::Setup;
