//! Numbers for different items: each worker notes items in a `Dictionary` of its own, and a `Numbering` gives each different
//! item of several dictionaries one number.
//!
//! A dictionary is seen as the list of its items, of which no two are equal. `specs/Numbers.antt` says what a numbering is.
//! `text_hash` is a cheap hash beside the keyed one of dictionaries.
#![tactic(auto)]

mod cheap;
mod dictionary;
mod keyed;
mod numbering;
mod shards;

pub use cheap::text_hash;
pub use dictionary::Dictionary;
pub use keyed::Keyed;
pub use numbering::Numbering;
pub use shards::{number, number_keyed};
