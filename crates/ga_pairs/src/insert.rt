/// What `insert` answers.
#[derive(Clone, Copy, Debug, PartialEq, Eq)]
pub enum Insert {
    /// The pair was not there, and is claimed by this call.
    Won,
    /// The pair is there.
    Present,
}
