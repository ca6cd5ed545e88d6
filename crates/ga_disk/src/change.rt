use ga_base::Bytes;

/// A call of a disk in memory that changed or synced a side, as it keeps it.
#[derive(Debug, Drop)]
pub enum Change {
    /// A write of these bytes at a place.
    Write { side: u32, at: u64, piece: Bytes },
    /// A cut to a length.
    Cut { side: u32, len: u64 },
    /// A sync.
    Sync { side: u32 },
}
