//! The words of the command line, read to the settings of a run.
//!
//! Start with `read_words`. It answers what the definition `WordsOf` says: the settings that the words mean, or the fault
//! for which they mean none. `specs/Options.antt` has the table of the options, `specs/Values.antt` says what their values
//! mean, `specs/Defaults.antt` what holds without them, and `specs/Units.antt` how words make a row of units. Words that name a
//! configuration file are read in two steps (`specs/Joined.antt`): `scan_words` finds the file, and `join_words` reads them
//! after the words that it gives, which are written by `form_of` and `takes_value`. `laws` says that each list of words has an
//! answer, and only one; `specs/Steps` has the words of inner steps alone.
#![tactic(auto)]

mod check_settings;
mod fault;
mod joined_words;
pub mod laws;
mod option_form;
mod options;
mod panel_names;
mod setting;
mod settings;
mod spec_names;
mod table_row;
mod values;
mod word;
mod words_reading;
mod words_scan;

pub use fault::WordFault;
pub use joined_words::join_words;
pub use option_form::{OptionForm, form_of, takes_value};
pub use settings::{Kind, Output, Settings};
pub use words_reading::read_words;
pub use words_scan::scan_words;
