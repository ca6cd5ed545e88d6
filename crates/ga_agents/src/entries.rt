ghost use Rattle.std.specs.Prelude.{◌≡◌, MatchOption};
ghost use Rattle.ga_agents.specs.Occurs.{NoneOccurs, IsFirstEntry};
ghost use Rattle.ga_agents.specs.Steps.{IsPlace};

use crate::agent_text::AgentText;

/// An entry of a list that is searched for the first whose token an agent has.
pub(crate) trait HasToken {
    ghost use Rattle.std.specs.Prelude.{List, ℕ};

    ghost token_of: { Self → List ℕ };

    /// The token.
    fn token(&self) -> &str
        ensures { result.now ≡ token_of self.now };
}

/// The first entry whose token is a substring of the agent, and the token's first place there.
pub(crate) fn first_entry<'a, E: HasToken>(
    entries: &'a [E],
    agent: &AgentText<'_>,
) -> Option<(&'a E, usize)>
    ensures { MatchOption result (NoneOccurs E.token_of entries.now agent.now) (λ found. IsFirstEntry E.token_of entries.now agent.now found.0.now × IsPlace (E.token_of found.0.now) agent.now found.1) }
{
    for entry in entries {
        if let Some(at) = agent.find(entry.token()) {
            return Some((entry, at));
        }
    }
    None
}
