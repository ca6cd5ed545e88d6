use ga_base::Entries;
use ga_summary::Summary;

/// A whole database: what was counted, and how far each log was.
#[derive(Debug, Drop)]
pub struct Snapshot {
    /// The number of the snapshot, from 1 to `LIMIT`. A later one has a greater number.
    pub generation: u64,
    /// How many of the last days it keeps, 0 for all. None in a snapshot of version 1, which doesn't say it.
    pub keep: Option<u32>,
    /// What was counted.
    pub summary: Summary,
    /// How far each log was counted.
    pub entries: Entries,
}

/// A run record: what one run adds to a database.
#[derive(Debug, Drop)]
pub struct Delta {
    /// What the run counted.
    pub summary: Summary,
    /// How far each log was counted, after the run.
    pub entries: Entries,
}
