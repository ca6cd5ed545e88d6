//! Log formats: what the user writes after `--log-format`, compiled to the list of items that a line has to fit.
//!
//! Start with `compile`. It answers what the definition `FormatOf` says: the items of the text, or its first fault.
//! `items_of` and `items_after` answer what `ItemsOf` says: items that needn't give all that a format needs.
//! `format_text` turns the name of a known format into its text. The specifiers and named formats are those of
//! GoAccess; what may stand together, and the faults with their places, are this program's own.
#![tactic(auto)]

mod compiling;
mod field_kinds;
mod format;
pub mod laws;
mod named;
mod units;

pub use compiling::{FormatItems, compile, items_after, items_of};
pub use field_kinds::first_missing;
pub use format::Format;
pub use named::{COMBINED, COMMON, VCOMBINED, VCOMMON, format_text};
