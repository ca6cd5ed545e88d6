//! The counting core of goaccess: a `Summary` holds what was counted of the lines of a log, per key.
#![tactic(auto)]

mod entries;
mod entry;
mod fault;
mod first_bad;
mod joining;
pub mod laws;
mod layer_sums;
mod limits;
mod load;
mod names;
mod not_sound;
mod one_line;
mod one_pass;
mod order;
mod room;
mod row_tests;
mod row_view;
mod summary;
mod summary_parts;
mod totals_tests;
mod trim;

pub use fault::MergeFault;
pub use not_sound::NotSound;
pub use row_view::RowView;
pub use summary::Summary;
pub use summary_parts::{PartRow, PartRows, SummaryParts};
pub use totals_tests::totals_fit;
