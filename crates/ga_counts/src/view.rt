use std::collections::LinkedList;

/// What a seat knows. It is in contracts and proofs alone: no value of it is made.
pub struct CountView {
    /// Its share of the right to know the whole.
    pub share: u64,
    /// The most that it may have added at any one word.
    pub allowance: u64,
    /// What it and the seats that it took in have added at each word.
    pub tallies: LinkedList<u64>,
    /// The greatest number to which they raised each place.
    pub maxima: LinkedList<u64>,
}

/// What a table is opened with.
#[derive(Clone, Copy, Debug, PartialEq, Eq)]
pub struct Opening {
    /// The number of sums.
    pub words: u32,
    /// The number of maxima.
    pub maxima: u32,
    /// The number of all shares.
    pub shares: u32,
    /// The most that all seats together add at any one word.
    pub allowance: u64,
}
