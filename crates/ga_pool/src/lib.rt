//! A batch of log lines counted by many workers into tables that they share, with one answer whatever the schedule.
//!
//! Start with `count_batch`: the batch is counted by workers as `ga_workers` does, each into a tally of its own, and then put
//! into the tables. What is in them is a `Counted`, of which `Counted::summary` makes the summary. `specs/Stands.antt` says
//! for which summary it stands, `specs/Batches.antt` of which lines.
#![tactic(auto)]

mod counted;
mod counted_rows;
mod filling;
mod key_names;
mod pool;
mod putting;
mod table_inputs;

pub use counted::Counted;
pub use ga_batches::Batcher;
pub use ga_draws::{DrawSeat, Draws};
pub use ga_outcomes::Setup;
pub use ga_workers::PoolFault;
pub use pool::count_batch;
