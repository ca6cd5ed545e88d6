//! Runs of goaccess: one run, which is `goaccess_run` of `ga_one_run`, and lists of runs.
//!
//! Start with `run_all`, which makes steps in a world in memory: logs that grow and change their names, runs, and crashes. What
//! a list of steps is is in `specs/History.antt`, and what is promised of it in `specs/Headline.antt`, term by term. `laws`
//! has the promise as a law over all lists.
#![tactic(auto)]

mod history;
pub mod laws;

pub use ga_one_run::{Input, Status, Which, goaccess_run};
pub use history::{StatusList, Step, World, run_all, run_step};
