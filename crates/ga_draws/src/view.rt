use std::collections::LinkedList;

/// What a seat knows. It is in contracts and proofs alone: no value of it is made.
pub struct DrawView {
    /// Its share of the right to know the whole.
    pub share: u64,
    /// How many numbers it may still draw.
    pub allowance: u64,
    /// What it and the seats that it took in have drawn, in order.
    pub drawn: LinkedList<u64>,
}

/// What draws are opened with.
#[derive(Clone, Copy, Debug, PartialEq, Eq)]
pub struct Opening {
    /// The number of all shares.
    pub shares: u32,
    /// How many numbers can be drawn in all.
    pub allowance: u64,
}
