ghost use Rattle.std.specs.Prelude.{◌≡◌, MatchOption};
ghost use Rattle.ga_agents.specs.Occurs.{Occurs};
ghost use Rattle.ga_agents.specs.Steps.{IsPlace};

use crate::pair_set::PairSet;
use std::marker::Model;

/// A user agent's text, of which it is noted once which pairs of neighbouring bytes it has. A token with a pair that the
/// text lacks is no substring of it, so it isn't searched for. Contracts see the text.
#[derive(Drop)]
pub(crate) struct AgentText<'a> {
    /// The text.
    text: &'a str,
    /// The pairs of neighbouring bytes that the text has.
    pairs: PairSet,
}

impl<'a> Model for AgentText<'a> {
    ghost use Rattle.std.specs.Prelude.{List, ℕ};
    ghost use Rattle.ga_agents.specs.Steps.{IsSetOf};

    ghost Value = { List ℕ };

    ghost view = { λ agent. agent.text.now };

    ghost invariant = { λ agent. IsSetOf agent.pairs agent.text.now };
}

impl<'a> AgentText<'a> {
    /// A user agent with its pairs noted.
    pub(crate) fn of(text: &'a str) -> AgentText<'a>
        ensures { result ≡ text.now }
    {
        AgentText {
            text,
            pairs: PairSet::of(text),
        }
    }

    /// The text.
    pub(crate) fn as_str(&self) -> &'a str
        ensures { result.now ≡ self.now }
    {
        self.text
    }

    /// The first place of a token in the text.
    pub(crate) fn find(&self, token: &str) -> Option<usize>
        ensures { MatchOption result (¬ Occurs token.now self.now) (IsPlace token.now self.now) }
    {
        if !self.pairs.has_all(token) {
            return None;
        }
        self.text.find(token)
    }
}
