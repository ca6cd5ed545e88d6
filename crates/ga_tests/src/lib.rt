//! Each public name, called at its crate with its arguments: where one changes, this crate is refused. No crate is above it.
//!
//! What the calls answer, their contracts say. A function here asks for what the call in it asks for, and no more. Each variant
//! and each field is named once.
#![tactic(auto)]

pub mod base;
pub mod batches;
pub mod databases;
pub mod json;
pub mod lines;
pub mod outside;
pub mod requests;
pub mod runs;
pub mod summaries;
pub mod tables;
pub mod tool;
pub mod words;
