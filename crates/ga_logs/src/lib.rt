//! The logs of a run: which part of each is read, by the entries that earlier runs left, and the sum of its lines.
//!
//! Start with `count_logs`. A log is read in slices and fed to a batcher, and its lines are counted batch by batch, by many
//! workers. `specs/Portions.antt` says which part of a log is counted and what becomes of the entries, and
//! `specs/Following.antt` what it is to read logs one after the other. `specs/Counting.antt` says what counted lines are, and
//! `specs/Streams.antt` what was counted of a stream.
#![tactic(auto)]

mod counting;
mod fault;
mod full;
pub mod laws;
mod logs;
mod portion;
mod portion_reading;
mod stream_total;
mod streaming;
mod streams;

pub use fault::CountFault;
pub use logs::count_logs;
pub use portion::Portion;
pub use portion_reading::read_portion;
