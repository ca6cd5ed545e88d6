//! Tests of the crates that count: tables that threads share, numbers of items, batches and logs.
//!
//! A crate with tests is proved twice, so those of many libraries are in one, over their public calls. They have what no
//! clause says: that threads come to their end, by which words maps hash, and that calls which take memory succeed.
#![tactic(auto)]

#[cfg(test)]
mod counts;
#[cfg(test)]
mod draws;
#[cfg(test)]
mod hold_gate;
#[cfg(test)]
mod maps;
#[cfg(test)]
mod numbers;
#[cfg(test)]
mod pairs;
#[cfg(test)]
mod pool;
#[cfg(test)]
mod setup;
#[cfg(test)]
mod two_ways;
