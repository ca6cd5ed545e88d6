ghost use Rattle.std.specs.Prelude.{◌≡◌, ◌+◌, ◌++◌, MatchOption, length, drop, position};
ghost use Rattle.std.specs.List.{before_first};
ghost use Rattle.ga_agents.specs.declared.row.Rule.{Rule as RuleSpec};
ghost use Rattle.ga_agents.specs.Classes as class;
ghost use Rattle.ga_agents.specs.Classes.{HasBrowser, HasSystem};
ghost use Rattle.ga_agents.specs.Occurs.{NoneOccurs};
ghost use Rattle.ga_agents.specs.Steps.{IsFound, IsPlace};
ghost use Rattle.ga_agents.specs.Tables.{builtin_rules};

use crate::Rule;
use crate::agent_text::AgentText;
use crate::entries::first_entry;
use crate::tables::{browsers, system_entries};

/// What represents a browser, a category, a system or a group that no entry gives.
const UNKNOWN: &str = "Unknown";

/// The rule that counts for an agent.
#[derive(Clone, Copy)]
pub(crate) struct Found<'a> {
    pub(crate) token: &'a str,
    pub(crate) category: &'a str,
    /// The token's first place in the agent.
    pub(crate) at: usize,
}

/// A browser and its category.
#[derive(Clone, Copy)]
pub(crate) struct Browser<'a> {
    pub(crate) name: &'a str,
    pub(crate) category: &'a str,
}

/// A system and its group.
#[derive(Clone, Copy)]
pub(crate) struct System {
    pub(crate) name: &'static str,
    pub(crate) group: &'static str,
}

/// The browser of an agent, by these rules and then the built-in ones.
pub(crate) fn browser_in<'a>(rules: &'a [Rule], agent: &AgentText<'a>) -> Browser<'a>
    ensures { HasBrowser (rules.now ++ builtin_rules) agent.now result.name.now result.category.now }
{
    match found_in(rules, agent) {
        Some(found) => Browser {
            name: browser_text(agent.as_str(), found.token, found.at),
            category: found.category,
        },
        None => Browser {
            name: UNKNOWN,
            category: UNKNOWN,
        },
    }
}

/// The system of an agent.
pub(crate) fn system_in(agent: &AgentText<'_>) -> System
    ensures { HasSystem agent.now result.name.now result.group.now }
{
    match first_entry(system_entries(), agent) {
        Some((entry, _)) => System {
            name: entry.1,
            group: entry.2,
        },
        None => System {
            name: UNKNOWN,
            group: UNKNOWN,
        },
    }
}

/// The first of these rules, and then of the built-in ones, whose token the agent has.
pub(crate) fn found_in<'a>(rules: &'a [Rule], agent: &AgentText<'_>) -> Option<Found<'a>>
    ensures { MatchOption result (NoneOccurs (λ (r : RuleSpec). r.token) (rules.now ++ builtin_rules) agent.now) (IsFound (rules.now ++ builtin_rules) agent.now) }
{
    if let Some((rule, at)) = first_entry(rules, agent) {
        return Some(Found {
            token: rule.token.as_str(),
            category: rule.category.as_str(),
            at,
        });
    }
    let (entry, at) = first_entry(browsers(), agent)?;
    Some(Found {
        token: entry.0,
        category: entry.1,
        at,
    })
}

/// The browser's text, which begins with the token at its first place.
fn browser_text<'a>(agent: &'a str, token: &str, at: usize) -> &'a str
    requires { IsPlace token.now agent.now at }
    ensures { result.now ≡ token.now ++ before_first class.is_delimiter (drop (at + length token.now) agent.now) }
{
    let end = at + token.len();
    match first_delimiter(&agent.as_bytes()[end..]) {
        Some(more) => &agent[at..end + more],
        None => &agent[at..],
    }
}

/// The place of the first byte before which a browser's text ends.
fn first_delimiter(bytes: &[u8]) -> Option<usize>
    ensures { result ≡ position class.is_delimiter bytes.now }
{
    bytes.iter().position(|b| is_delimiter(*b))
}

/// Whether a browser's text ends before the byte: a space, `;`, `,`, `(` or `)`.
fn is_delimiter(b: u8) -> bool
    ensures { result ≡ class.is_delimiter b }
{
    b == b' ' || b == b';' || b == b',' || b == b'(' || b == b')'
}
