//! A database on the two sides of a disk: what they say, how a run is prepared, and a commit that survives a crash at any
//! moment.
//!
//! Start with `recover`, which answers the `Db` of the sides by `DbOf` of `specs/Database.antt`, or with `recover_with`, which
//! does so by two threads; `prepare` makes the work of a run from it, and `commit` writes that.
#![tactic(auto)]

mod body_digest;
mod body_reading;
mod committing;
mod db;
mod fault;
mod found;
mod growing;
mod hands;
pub mod laws;
mod mode;
mod position;
mod prepared;
mod record_reading;
mod recovery;
mod side_parts;
mod side_reading;
mod side_stream;
mod start_reading;
mod starts;

pub use committing::commit;
pub use db::Db;
pub use fault::StoreFault;
pub use mode::Mode;
pub use position::Position;
pub use prepared::{Prepared, prepare, prepare_at};
pub use recovery::{recover, recover_with};
