//! The bytes of a database: a `Snapshot` or a run record, a `Delta`, to bytes and back.
//!
//! Start with `write_snapshot` and `read_snapshot`, which meet `SpellSnapshot` of `specs/Shapes.antt`. Bytes that are no
//! snapshot are refused with the place up to which they begin one. `BodyReader` reads bytes that come in pieces.
#![tactic(auto)]

mod body_reader;
mod cursor;
mod entry_shape;
mod fault;
pub mod laws;
mod sizes;
mod snapshot;
mod snapshot_reading;
mod snapshot_start;
mod summary_reading;
mod text_reading;
mod utf8;
mod writing;

pub use body_reader::BodyReader;
pub use fault::CodecFault;
pub use sizes::{delta_size, snapshot_size};
pub use snapshot::{Delta, Snapshot};
pub use snapshot_reading::{read_delta, read_snapshot};
pub use writing::{push_delta, push_snapshot, write_delta, write_snapshot};
