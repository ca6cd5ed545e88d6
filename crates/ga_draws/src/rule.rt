//! The rule of the running table, and what its steps say. These types are for the proofs alone.

use crate::view::{DrawView, Opening};
use crate::witnesses::{Cut, Witness};
use atomic_table::{Join, Play, Split, TableRule};
use std::marker::PhantomData;

/// The state that word and views represent keeps its invariant.
pub struct DrawRule;

impl TableRule<(), DrawView, Opening> for DrawRule {
    ghost use Rattle.ga_draws.specs.Running.{Holds, first_view};

    ghost holds = { Holds };

    ghost first = { first_view };
}

/// A number is drawn.
pub struct Draw<S> {
    of: PhantomData<S>,
}

impl<S: Witness> Play<(), DrawView> for Draw<S> {
    ghost use Rattle.ga_draws.specs.Running.{Draws};

    ghost then = { Draws S.number };
}

/// The counter is looked at.
pub struct Look<S> {
    of: PhantomData<S>,
}

impl<S: Witness> Play<(), DrawView> for Look<S> {
    ghost use Rattle.ga_draws.specs.Running.{Looks};

    ghost then = { Looks S.number };
}

/// A share and an allowance are cut off.
pub struct CutOff<C> {
    of: PhantomData<C>,
}

impl<C: Cut> Split<DrawView> for CutOff<C> {
    ghost use Rattle.ga_draws.specs.Draws.{given, left as left_of};

    ghost left = { λ v. left_of v C.share C.allowance };

    ghost right = { λ v. given C.share C.allowance };
}

/// Two views become one.
pub struct Both;

impl Join<DrawView> for Both {
    ghost use Rattle.ga_draws.specs.Draws.{joined, nothing};

    ghost both = { joined };

    ghost spent = { nothing };
}
