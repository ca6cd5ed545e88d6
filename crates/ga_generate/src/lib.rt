//! A log whose lines follow from their numbers, and the summary that a run over it prints.
//!
//! Start with `generate` and `summary`. `specs/Lines.antt` has the lines, `specs/Summary.antt` the summary's text.
#![tactic(auto)]

mod answer;
mod lines;
mod pieces;
mod summary_text;

pub use lines::generate;
pub use summary_text::summary;
