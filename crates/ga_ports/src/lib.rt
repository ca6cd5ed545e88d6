//! The outside: traits by which a run reads files and writes its report, and forms of them in memory. The disk of its database
//! is `ga_disk`'s, and can be had here too.
//!
//! Contracts see a form as one plain record (`specs/Files.antt`, `specs/Outs.antt`), and each call says the whole
//! new record. Start with `Files` and `Outs`; `MemFiles` and `MemOuts` tell their contents and which
//! calls fail; over `SureFiles` and `SureOuts` no call fails. `ShortFiles` are
//! shorter than the size that they answer.
#![tactic(auto)]

mod contents;
mod file_counts;
mod files;
mod gate;
pub mod laws;
mod mem_files;
mod mem_outs;
mod outs;
mod short_files;
mod sink;
mod sure_files;
mod sure_outs;
mod target_counts;

pub use file_counts::{FileCounts, is_short};
pub use files::Files;
pub use ga_counters::Failed;
pub use ga_disk::{Disk, MemDisk};
pub use gate::{Gate, HoldGate, NoGate};
pub use mem_files::MemFiles;
pub use mem_outs::MemOuts;
pub use outs::{Outs, To};
pub use short_files::ShortFiles;
pub use sure_files::SureFiles;
pub use sure_outs::SureOuts;
pub use target_counts::TargetCounts;
