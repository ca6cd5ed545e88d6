//! One run of goaccess: from the words of the command line, with the formats that they say, to the report.
//!
//! Start with `goaccess_run`, the call that the program makes. What it does is one record, `IsRun` of `specs/Configured.antt`,
//! over plain views of what the run is in (`specs/Outside.antt`): the files, the disk of its database and the targets. The words
//! may name a configuration file; once it is read, the run is by its words and these, `RunsWords` of `specs/Run.antt`. What each
//! status shows is in `specs/Ends.antt`, and in `specs/Told.antt` the one answer of a run over told files and sides. `laws`
//! says what holds of all runs, `one_run` first: words, told files and told sides fix what a run does.
#![tactic(auto)]

mod conf;
mod faults;
pub mod laws;
mod printing;
mod rules;
mod run;
mod run_words;
mod setups;
mod status;

pub use printing::deliver;
pub use run_words::goaccess_run;
pub use status::{Input, Status, Which};
