//! The rule of the running table, and what its steps say. These types are for the proofs alone.

use crate::view::{CountView, Opening};
use atomic_table::{Join, Play, Split, TableRule};
use ga_draws::{Cut, Witness};
use std::marker::PhantomData;

/// The state that words and views represent keeps its invariant.
pub struct CountRule;

impl TableRule<(), CountView, Opening> for CountRule {
    ghost use Rattle.ga_counts.specs.Running.{Holds, first_view};

    ghost holds = { Holds };

    ghost first = { first_view };
}

/// A number is added at a word.
pub struct Add;

impl Play<(), CountView> for Add {
    ghost use Rattle.ga_counts.specs.Running.{Adds};

    ghost then = { Adds };
}

/// The place `P` is raised to a number.
pub struct Raise<P> {
    of: PhantomData<P>,
}

impl<P: Witness> Play<(), CountView> for Raise<P> {
    ghost use Rattle.ga_counts.specs.Running.{Raises};

    ghost then = { Raises P.number };
}

/// A share and an allowance are cut off.
pub struct CutOff<C> {
    of: PhantomData<C>,
}

impl<C: Cut> Split<CountView> for CutOff<C> {
    ghost use Rattle.ga_counts.specs.Counts.{given, left as left_of};

    ghost left = { λ v. left_of v C.share C.allowance };

    ghost right = { λ v. given v C.share C.allowance };
}

/// Two views become one.
pub struct Both;

impl Join<CountView> for Both {
    ghost use Rattle.ga_counts.specs.Counts.{joined, nothing};

    ghost both = { joined };

    ghost spent = { nothing };
}
