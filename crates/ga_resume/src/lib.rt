//! Where the counting of a log goes on: which entry of a database it continues, and what a run leaves there.
//!
//! Start with `place` and `advance`. `Follow` says how a run follows its logs, and `Start` from where on it counts.
//! `specs/Entries.antt` says which entry a log continues and what becomes of it,
//! `specs/Segment.antt` what `place` reads.
#![tactic(auto)]

mod choosing;
mod fault;
mod follow;
mod following;
pub mod laws;
mod part_reading;
mod placing;
mod segment;
mod start;

pub use fault::PlaceFault;
pub use follow::Follow;
pub use following::advance;
pub use part_reading::{read_part, read_slice, slice_buffer};
pub use placing::place;
pub use segment::Segment;
pub use start::Start;
