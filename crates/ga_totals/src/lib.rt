//! What a run has counted of its logs, in numbers; and the summary of it, or a source of rows for a report.
//!
//! Start with `Total`, which is made once all lines are counted. It is seen as a tally, of which
//! `ga_tallies/specs/Tallies.antt` says when it is that of outcomes.
#![tactic(auto)]

mod by_name;
mod key_panels;
mod numbered_key;
mod part_rows;
mod rank_names;
mod ranks;
mod total;
mod total_source;
mod visits;

pub use total::Total;
pub use total_source::TotalSource;
