ghost use Rattle.std.specs.Prelude.{◌≡◌, [], true, OnOk, IsErrOf};
ghost use Rattle.ga_line.specs.Lines.{lines};
ghost use Rattle.ga_base.specs.Totals.{LinesAdd, TotalsFit};
ghost use Rattle.ga_tallies.specs.Agents.{AreAgents};
ghost use Rattle.ga_tallies.specs.Tallies.{IsTallyOf, Overfills, TakesIn, seen_in};

use crate::pairs::PairList;
use crate::{Agents, TallyFault, TallyParts};
use ga_base::{Sums, Totals};
use ga_line::Lines;
use ga_numbers::{KeyNumbers, VisitorNumbers};
use ga_outcomes::Setup;
use ga_shards::Keyed;
use std::alloc::Global;
use std::marker::Model;

/// What one worker has counted, in numbers of its own: each different key and each different visitor has one, in the order in
/// which they came. Contracts see the parts as lists.
#[derive(Drop)]
pub struct Tally {
    /// What was counted over all lines.
    pub(crate) totals: Totals,
    /// The keys, each at its number.
    pub(crate) keys: KeyNumbers,
    /// The visitors, each at its number.
    pub(crate) visitors: VisitorNumbers,
    /// The sums of each key, at its number.
    pub(crate) sums: Vec<Sums>,
    /// The keys' visitors.
    pub(crate) pairs: PairList,
}

impl Model for Tally {
    ghost use Rattle.ga_base.specs.Totals.{LinesAdd, TotalsFit};
    ghost use Rattle.ga_tallies.specs.Tallies.{TallySeen};

    ghost Value = { TallySeen };

    ghost view = { λ t. record { totals = t.totals; keys = t.keys; visitors = t.visitors; sums = t.sums.items; pairs = t.pairs } };

    ghost invariant = { λ t. TotalsFit t.totals × LinesAdd t.totals };
}

impl Tally {
    /// The tally of no lines, which takes no memory. Keys and visitors are hashed by `keyed`.
    pub fn new(alloc: Global, keyed: Keyed) -> Tally
        ensures { IsTallyOf [] result }
    {
        Tally {
            totals: Totals::ZERO,
            keys: KeyNumbers::new(alloc, keyed),
            visitors: VisitorNumbers::new(alloc, keyed),
            sums: Vec::new(alloc),
            pairs: PairList::new(alloc),
        }
    }

    /// Counts the lines of these bytes, the last also where no line feed ends it. What their agents are is taken from `agents`,
    /// which learns those that it doesn't know. After an `Err` the tally may only be dropped.
    pub fn count(
        &mut self,
        alloc: Global,
        setup: &Setup,
        agents: &mut Agents,
        bytes: &[u8],
    ) -> Result<(), TallyFault>
        requires known { AreAgents setup.now.panels.rules agents.old }
        ensures counted { OnOk result (TakesIn setup.now (lines bytes.now true) self.old self.new) }
        ensures full { IsErrOf result TallyFault.Full → Overfills setup.now (lines bytes.now true) self.old }
        ensures known { AreAgents setup.now.panels.rules agents.new }
    {
        for line in Lines::of(bytes, true) {
            self.count_line(alloc, setup, agents, line)?;
        }
        Ok(())
    }

    /// What was counted over all lines. No counter passes `LIMIT`.
    pub fn totals(&self) -> Totals
        ensures value { result ≡ self.now.totals }
        ensures fit { TotalsFit result }
        ensures lines { LinesAdd result }
    {
        self.totals
    }

    /// Gives the parts back.
    pub fn into_parts(self) -> TallyParts
        ensures { seen_in result ≡ self }
    {
        TallyParts {
            totals: self.totals,
            keys: self.keys,
            visitors: self.visitors,
            sums: self.sums,
            visits: self.pairs.into_rows(),
        }
    }
}
