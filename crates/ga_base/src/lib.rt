//! The types that every crate of goaccess shares: texts and bytes, the one list type, log records,
//! the items of a log format, and the keys and counts of a summary.
//!
//! Start with `Text`, which contracts see as the list of its bytes, and `Record`, what a valid log line says.
#![tactic(auto)]

mod bytes;
mod counts;
mod date_spec;
mod entry;
mod formats;
mod hour_spec;
mod key;
pub mod laws;
mod limits;
mod listing;
mod name;
mod no_memory;
mod noted;
mod panel;
mod panel_set;
mod parts;
mod pieces;
mod record;
mod record_ref;
mod steps;
mod text;

pub use bytes::Bytes;
pub use counts::{Amounts, BIG, Counter, LIMIT, Sums, Totals};
pub use date_spec::DateSpec;
pub use entry::{Entries, Entry};
pub use formats::{FormatFault, FormatItem, LeafFault, Needed};
pub use hour_spec::HourSpec;
pub use key::{Key, Keys, Visitor};
pub use limits::{FRONT, LINE_FEED, MAX_BATCH, MAX_CHUNK, MAX_JOBS};
pub use listing::{Listing, Texts};
pub use name::{Name, Names};
pub use no_memory::NoMemory;
pub use noted::Noted;
pub use panel::Panel;
pub use panel_set::PanelSet;
pub use parts::change_parts;
pub use pieces::map_pieces;
pub use record::{Line, MAX_LINE, Record, Statuses};
pub use record_ref::RecordRef;
pub use steps::Steps;
pub use text::Text;
