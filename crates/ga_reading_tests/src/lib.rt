//! Tests of the crates that read: texts, files, words, formats, lines, agents, and the keys of a record.
//!
//! A crate with tests is proved twice, so those of many libraries are in one, a file for each library, over its public
//! calls. They have what no clause says: examples from RFCs and real logs, printed texts, and that calls which take memory
//! succeed.
#![tactic(auto)]

#[cfg(test)]
mod agents;
#[cfg(test)]
mod base;
#[cfg(test)]
mod confs;
#[cfg(test)]
mod dates;
#[cfg(test)]
mod formats;
#[cfg(test)]
mod hosts;
#[cfg(test)]
mod json_formats;
#[cfg(test)]
mod lines;
#[cfg(test)]
mod panels;
#[cfg(test)]
mod ports;
#[cfg(test)]
mod requests;
#[cfg(test)]
mod words;
