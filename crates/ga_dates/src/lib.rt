//! Date and time formats of log lines. `compile_date` and `compile_time` make one of a text such as `%d/%b/%Y`; `read_date`,
//! `read_time` and `read_both` read what it spells, and take no memory.
//!
//! Start with `DateFormat`, which contracts see as the list of its items. `specs/Grammar.antt` says which items a format's
//! text represents and where its fault is, `specs/Spelling.antt` which texts the items spell, and `specs/Calendar.antt` which
//! days there are. `laws` says that a text is one format or has one fault, and spells one date and one time at most.
#![tactic(auto)]

mod calendar;
mod compile;
mod date_parts;
mod directive;
mod format;
mod item;
mod kind;
pub mod laws;
mod number;
mod read;

pub use date_parts::DateParts;
pub use format::{DEFAULT_DATE, DEFAULT_TIME, DateFormat, TimeFormat, compile_date, compile_time};
pub use item::{Item, Part};
pub use kind::Kind;
pub use read::{read_both, read_date, read_time};
