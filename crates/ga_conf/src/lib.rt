//! The configuration file: its lines, read to words of the command line.
//!
//! Start with `read_conf`. `specs/ConfFile.antt` says what the lines of a file give: a name and a value are a word of the
//! command line, `--name=value`, which `ga_words` reads with the others. `laws` says that each file gives one list of words, or
//! has one first bad line; `specs/Steps.antt` has the words of inner steps alone.
#![tactic(auto)]

mod blanks;
mod conf_file;
mod conf_line;
mod fault;
pub mod laws;
mod setting;

pub use conf_file::read_conf;
pub use fault::ConfFault;
