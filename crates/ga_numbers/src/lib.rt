//! Numbers for the keys and the visitors that a worker meets, in the order in which they came.
//!
//! `KeyNumbers` and `VisitorNumbers` are seen as lists of different items. They keep what many items share once: a key's panel
//! and its texts but the label, a visitor's agent. An item is then a `ShardRow` of 24 bytes: the number of what it shares, a
//! day and a text. Rows are kept in shards by their days and texts (`specs/Steps/Kept.antt`), so that those of others are noted
//! side by side. `specs/Numbers.antt` says what a number is.
#![tactic(auto)]

mod assigning;
mod extended;
mod hints;
mod key_numbers;
mod key_prefix;
mod lists;
mod noting;
mod place;
mod prefixed_key;
mod shard_merge;
mod shard_row;
mod sharded_rows;
mod visitor_numbers;
mod visitor_ref;

pub use extended::Extended;
pub use key_numbers::KeyNumbers;
pub use prefixed_key::PrefixedKey;
pub use visitor_numbers::VisitorNumbers;
pub use visitor_ref::VisitorRef;
