//! Tests of lists of steps in memory: runs that are cut at each call of the disk, crashes after runs, and a table of lists.
//!
//! The table is in `lists`, which `tools/make_cases.py` writes; `list_steps` reads it, and `list_runs` holds the runs to it.
#![tactic(auto)]

#[cfg(test)]
mod crash_reports;
#[cfg(test)]
mod crashes;
#[cfg(test)]
mod list_runs;
#[cfg(test)]
mod list_steps;
#[cfg(test)]
mod lists;
