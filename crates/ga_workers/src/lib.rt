//! Batches of log lines counted on by many workers, with one answer whatever the schedule.
//!
//! Start with `count_on`: a batch is cut into pieces of whole lines, workers draw them one by one, and each counts those that it
//! drew into a tally of its own, in which it goes on from batch to batch. `Crew` is what stays the same for a whole run.
//! `specs/Together.antt` says what tallies have counted together, `specs/Workers.antt` which workers there can be.
#![tactic(auto)]

mod batch;
mod counter_limits;
mod crew;
mod drawing;
mod fault;
mod meanwhile;
mod pieces;
mod run_keyed;
mod workers;

pub use batch::{count_from, count_on, new_tallies};
pub use counter_limits::counters;
pub use crew::Crew;
pub use fault::PoolFault;
pub use run_keyed::keyed_by;
pub use workers::{JOB_BATCH, Workers};
