//! Tables of cases, to which tests hold what a call answers.
//!
//! A table is one text, a case a line: what is given, an arrow and what is expected. A line with a heading says what the cases
//! below it show. So the proof of a test doesn't grow with its cases.
#![tactic(auto)]

mod table;

pub use table::hold;
