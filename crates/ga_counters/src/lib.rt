//! What the forms of the outside have in common: a call that failed, counts that stop at their last value, and calls that are
//! listed to fail.
#![tactic(auto)]

mod failed;
mod listed;

pub use failed::Failed;
pub use listed::is_due;
