/// Where a database stands on its sides: what it takes to store a run after it, without what was counted.
#[derive(Clone, Copy, Debug, PartialEq, Eq)]
pub struct Position {
    /// How many of the last days it keeps, 0 for all. None where nothing is stored, and after a snapshot of version 1, which doesn't say it.
    pub keep: Option<u32>,
    /// The number of its snapshot, at most `LIMIT`, and 0 where nothing is stored.
    pub generation: u64,
    /// The side that has it; None where nothing is stored.
    pub side: Option<u32>,
    /// The number of run records after the snapshot.
    pub records: u64,
    /// The place of the first closed gate after them.
    pub slot: u64,
}
