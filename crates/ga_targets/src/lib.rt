//! Bytes written to a target: all of them, or those before its first fault.
//!
//! Start with `print`, and for several pieces in a row `say`, which writes to standard error. `specs/Printing.antt` says what a
//! target took then.
#![tactic(auto)]

mod printing;
mod saying;

pub use printing::print;
pub use saying::say;
