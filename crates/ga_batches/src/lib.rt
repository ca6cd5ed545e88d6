//! A stream of log bytes cut into batches of whole lines, in memory that is taken once.
//!
//! Start with `Batcher`: pieces of the stream are fed to it, and each batch is taken when it is full. A line is held up to
//! 65,537 bytes, since a longer one fails anyway, and its front fails too. `specs/Lines.antt` says what a text is with each
//! line as it is held, `specs/Batches.antt` what a batcher holds of its stream.
#![tactic(auto)]

mod batcher;
pub mod laws;

pub use batcher::{Batcher, LEAST_LIMIT, LINE_HELD};
