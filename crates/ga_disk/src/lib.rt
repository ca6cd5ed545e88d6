//! A disk of two sides, what a crash may leave of them, and a form of it in memory.
//!
//! Contracts see a disk as one plain record (`specs/Disk.antt`) and beside it what a crash may leave
//! (`specs/Images.antt`); each call says both anew. Start with `Disk`; `MemDisk` tells its bytes and which calls fail,
//! and can crash.
#![tactic(auto)]

mod change;
mod disk;
mod disk_counts;
pub mod laws;
mod mem_disk;
mod side;
mod sides;
mod span;

pub use change::Change;
pub use disk::{Disk, MAX_SIZE};
pub use disk_counts::DiskCounts;
pub use mem_disk::MemDisk;
pub use span::Span;
