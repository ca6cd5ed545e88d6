//! Client addresses and ranges of them, as numbers.
//!
//! Start with `address_of`, which reads the text of an address: it answers what the definition `Spells` says, dotted
//! IPv4 or the text form of IPv6 in RFC 4291, section 2.2. A `Range` is what the option `--exclude-ip` names, and
//! `Ranges` tells whether a client's address is in one of them. `laws` says that each text has one meaning, and
//! `specs/Steps.antt` has the words of inner steps alone.
#![tactic(auto)]

mod address;
pub mod laws;
mod range;
mod ranges;

pub use address::{Address, address_of, is_address};
pub use range::{BadRange, Range};
pub use ranges::Ranges;
