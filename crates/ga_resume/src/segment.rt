use ga_base::Bytes;

/// The part of a log that wasn't counted yet.
#[derive(Debug, Drop)]
pub struct Segment {
    /// The place from which on it goes: the offset of the entry that the log continues, or 0.
    pub from: u64,
    /// The log's size.
    pub end: u64,
    /// The place of that entry in the list.
    pub entry: Option<u64>,
    /// The log's first `FRONT` bytes, or all of a shorter one.
    pub front: Bytes,
}
