//! From a record to the keys that it is counted under, and to the visitor whose visit it is.
//!
//! Start with `keys_of`, which meets the table of `specs/Table.antt`; `RecordFacts` tells the same keys panel by panel, as
//! borrowed texts. `visitor_of` and `is_excluded` meet `specs/Visitors.antt`. `laws` says that a record has one list of
//! keys, and what holds of each; `specs/Steps.antt` has the words of inner steps alone.
#![tactic(auto)]

mod key_ref;
mod keys;
mod labels;
pub mod laws;
mod record_facts;
mod setup;
mod visitors;

pub use key_ref::KeyRef;
pub use keys::keys_of;
pub use record_facts::RecordFacts;
pub use setup::PanelSetup;
pub use visitors::{is_excluded, visitor_of};
