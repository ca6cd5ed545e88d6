//! A report as text: CSV and JSON; and the keys of a summary as CSV.
//!
//! Start with `csv` and `json`; `json_with` shares the work among threads. `specs/Csv.antt` and `specs/Json.antt` have the
//! layouts, and `specs/Keys.antt` that of `keys_csv`, over what the libraries of those names say of the texts that they write.
#![tactic(auto)]

mod csv_text;
mod json_text;
mod keys_text;
mod members;
mod panel_name;
mod percent;
mod trees;

pub use csv_text::csv;
pub use json_text::{json, json_with};
pub use keys_text::keys_csv;
