use std::collections::LinkedList;

/// A key and a visitor, by their numbers.
#[derive(Clone, Copy, Debug, PartialEq, Eq)]
pub struct Pair {
    /// The key's number.
    pub key: u32,
    /// The visitor's number.
    pub visitor: u32,
}

/// What a seat asked and claimed. It is in contracts and proofs alone: no value of it is made.
pub struct Claims {
    /// Its share of the right to know the whole.
    pub share: u64,
    /// How often it may still ask.
    pub allowance: u64,
    /// The pairs that it and the seats that it took in have asked, in order.
    pub asked: LinkedList<Pair>,
    /// Those of them that were won.
    pub mine: LinkedList<Pair>,
}

/// How far a seat has come that looks for a pair. It is in proofs alone.
pub struct Probe {
    /// The pair that it looks for.
    pub pair: Pair,
    /// The cells that it has passed, from the pair's home on.
    pub passed: u64,
}

/// What a seat knows at each moment. It is in proofs alone.
pub struct PairView {
    /// What it asked and claimed.
    pub claims: Claims,
    /// What it looks for.
    pub probe: Option<Probe>,
}

/// What a set is opened with.
#[derive(Clone, Copy, Debug, PartialEq, Eq)]
pub struct Opening {
    /// The number of cells.
    pub cells: u32,
    /// How often all seats together may ask.
    pub allowance: u32,
    /// The number of all shares.
    pub shares: u32,
}
