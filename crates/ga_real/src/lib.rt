//! The adapters: files, the disk of a database and targets of the system, behind the traits of the outside.
//!
//! They tell nothing of content, so what is in a real file, and what reaches a terminal or a disk, is claimed by no contract.
#![tactic(auto)]

#[cfg(test)]
mod disk_tests;
mod real_disk;
mod real_files;
mod real_outs;
#[cfg(test)]
mod tests;

pub use real_disk::RealDisk;
pub use real_files::RealFiles;
pub use real_outs::RealOuts;
