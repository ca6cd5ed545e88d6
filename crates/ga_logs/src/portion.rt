use ga_base::Bytes;
use ga_resume::Segment;

/// What was read of a log.
#[derive(Debug, Drop)]
pub struct Portion {
    /// Which part of the log it is, and which entry that continues.
    pub segment: Segment,
    /// The bytes of this part.
    pub bytes: Bytes,
}
