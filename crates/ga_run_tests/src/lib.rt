//! Tests of whole runs over forms in memory, by the call that the program makes.
//!
//! Tables of runs and of histories of runs are in files of their own, which `tools/make_cases.py` writes: their answers were
//! worked out by a program in another language. Each run is tried by several workers.
#![tactic(auto)]

#[cfg(test)]
mod causes;
#[cfg(test)]
mod configured;
#[cfg(test)]
mod failing_calls;
#[cfg(test)]
mod faults;
#[cfg(test)]
mod histories;
#[cfg(test)]
mod kept_days;
#[cfg(test)]
mod merging;
#[cfg(test)]
mod reports;
#[cfg(test)]
mod runs;
#[cfg(test)]
mod stored_days;
#[cfg(test)]
mod targets;
#[cfg(test)]
mod workers;
#[cfg(test)]
mod world;
