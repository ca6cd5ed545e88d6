//! Tests of the crates that sum up and store: summaries, the bytes of a database, the disk and the store, and what a log continues.
//!
//! A crate with tests is proved twice, so those of many libraries are in one, a file for each library, over its public
//! calls. They have what no clause says: bytes that are stored, digests from FIPS 180-4, and that calls which take memory
//! succeed.
#![tactic(auto)]

#[cfg(test)]
mod codec;
#[cfg(test)]
mod commits;
#[cfg(test)]
mod disk;
#[cfg(test)]
mod recovery;
#[cfg(test)]
mod report;
#[cfg(test)]
mod resume;
#[cfg(test)]
mod summary;
