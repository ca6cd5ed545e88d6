ghost use Rattle.std.specs.Prelude.{ℕ};

use std::marker::Brand;

/// How a seat is split: what the new seat gets. For the proof alone; each call picks it.
pub trait Cut {
    /// The share of the new seat.
    ghost share: { ℕ };
    /// Its allowance.
    ghost allowance: { ℕ };
}

impl Cut for Brand {
    ghost share = { 0 };

    ghost allowance = { 0 };
}

/// A number that the proof of a call needs, as the shares that a table was opened with. Each call picks it.
pub trait Witness {
    /// The number.
    ghost number: { ℕ };
}

impl Witness for Brand {
    ghost number = { 0 };
}
