//! The rule of the running table, and what its steps say. These types are for the proofs alone.

ghost use Rattle.std.specs.Prelude.{ℕ};
ghost use Rattle.ga_pairs.specs.declared.view.Pair.{Pair as ThePair};

use crate::view::{Opening, PairView};
use atomic_table::{Join, Play, Split, TableRule};
use ga_draws::Cut;
use std::marker::{Brand, PhantomData};

/// The pair that a call looks for, and the number of cells. Each call picks them.
pub trait Asked {
    /// The pair.
    ghost pair: { ThePair };
    /// The number of cells.
    ghost cells: { ℕ };
}

impl Asked for Brand {
    ghost pair = { record { key = 0; visitor = 0 } };

    ghost cells = { 0 };
}

/// The state that words and views are keeps its invariant.
pub struct ClaimRule;

impl TableRule<(), PairView, Opening> for ClaimRule {
    ghost use Rattle.ga_pairs.specs.Running.{Holds, first_view};

    ghost holds = { Holds };

    ghost first = { first_view };
}

/// A cell is tried.
pub struct Try<A> {
    of: PhantomData<A>,
}

impl<A: Asked> Play<(), PairView> for Try<A> {
    ghost use Rattle.ga_pairs.specs.Running.{Tries};

    ghost then = { λ step before found seat. Tries A.pair A.cells before found seat };
}

/// A share and an allowance are cut off.
pub struct CutOff<C> {
    of: PhantomData<C>,
}

impl<C: Cut> Split<PairView> for CutOff<C> {
    ghost use Rattle.ga_pairs.specs.Events.{resting};
    ghost use Rattle.ga_pairs.specs.Pairs.{given, left as left_of};

    ghost left = { λ v. resting (left_of v.claims C.share C.allowance) };

    ghost right = { λ v. resting (given C.share C.allowance) };
}

/// Two views become one.
pub struct Both;

impl Join<PairView> for Both {
    ghost use Rattle.ga_pairs.specs.Events.{nothing, resting};
    ghost use Rattle.ga_pairs.specs.Pairs.{joined};

    ghost both = { λ v w. resting (joined v.claims w.claims) };

    ghost spent = { nothing };
}
