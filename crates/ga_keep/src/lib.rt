//! The database of a run: what the run starts from, and what it leaves, as the settings say.
//!
//! `specs/RunDatabase.antt` has the definitions: which runs use a database, from what they count on, and what is stored after
//! them. `find` looks for it, and `differs` says whether it keeps as many days as the run. `base_of` and `start` say what a run
//! counts on from, `add_run` and `whole` what it shows, and `keep` stores it. What is restored is there once: a run is added to
//! it in place.
#![tactic(auto)]

mod base;
mod finding;
mod keeping;
mod starting;

pub use base::Base;
pub use finding::{differs, find, uses_database};
pub use keeping::keep;
pub use starting::{add_run, base_of, start, whole};
