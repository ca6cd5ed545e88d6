//! A tool for databases: it checks them, shows what was counted under each of their keys, and merges one into another.
//!
//! Start with `db_run`, the call that the program `goaccess_db` makes. What it does is one record, `IsDbRun` of
//! `specs/DbRun.antt`, over plain views of the two disks and the targets. `specs/Words.antt` says what words it takes,
//! `specs/Merged.antt` what two databases merged are, and `specs/Ends.antt` what each status shows. `laws` says what holds of
//! all words and of all merged databases.
#![tactic(auto)]

mod facts;
pub mod laws;
mod merging;
mod opening;
mod run;
mod shared;
mod status;
mod telling;
mod words;

pub use run::db_run;
pub use status::DbStatus;
