ghost use Rattle.std.specs.Prelude.{◌≡◌, ◌≤◌, min};
ghost use Rattle.ga_base.specs.declared.limits.TheConstants.{FRONT as MOST_LEAD};

use crate::{FRONT, Listing};

/// How far a log was counted, and how it is known again when it comes under another name.
#[derive(Clone, Copy, Debug, PartialEq, Eq)]
pub struct Entry {
    /// How many of the log's first bytes the digest is of: `FRONT`, or the offset where that is less.
    pub lead: u16,
    /// The SHA-256 of those bytes.
    pub digest: [u8; 32],
    /// The place after the last byte that was counted, at least 1.
    pub offset: u64,
    ghost leads: { lead ≡ min offset MOST_LEAD },
    ghost counted: { 1 ≤ offset },
}

/// A list of entries, one for each log that was counted.
pub type Entries = Listing<Entry>;
