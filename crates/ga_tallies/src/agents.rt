ghost use Rattle.std.specs.Prelude.{◌≡◌, ◌<◌, List, IfSome};
ghost use Rattle.ga_agents.specs.Classes.{agent_of};
ghost use Rattle.ga_agents.specs.declared.row.Rule.{Rule};
ghost use Rattle.ga_tallies.specs.Agents.{AreAgents, IsTold};

use crate::place_table::{make_places, put_at};
use ga_agents::{Agent, Class, Rules};
use ga_base::{NoMemory, Text};
use ga_shards::text_hash;
use std::alloc::Global;
use std::marker::Model;
use std::mem;

/// There are this many places for agents, once the first came.
const PLACES: usize = 2048;

/// The agent of a line, with the hash of its text.
#[derive(Clone, Copy)]
pub(crate) struct AgentRef<'a> {
    /// The hash of its text.
    hash: u64,
    /// The agent as the line has it.
    text: &'a str,
}

impl<'a> AgentRef<'a> {
    /// The agent with this text.
    pub(crate) fn of(text: &'a str) -> AgentRef<'a>
        ensures { result.text.now ≡ text.now }
    {
        AgentRef {
            hash: text_hash(text.as_bytes()),
            text,
        }
    }
}

/// An agent that came, and what it is.
#[derive(Drop)]
struct KnownAgent {
    /// The hash of its text, which tells most others apart without a look at the text.
    hash: u64,
    /// The agent as the line has it.
    text: Text,
    /// What the rules say of it.
    agent: Agent,
}

/// What the agents that came lately are, so that the rules aren't asked for each line. An agent is kept once it came twice to the
/// place that its text names with no other between, and until another is kept there. So one that comes once takes no memory.
/// Contracts see the places.
#[derive(Drop)]
pub struct Agents {
    /// None before the first agent was kept, and then `PLACES`.
    places: Vec<Option<KnownAgent>>,
    /// The hash of the last agent that came to each place unknown. None before the first came, and then `PLACES`.
    came: Vec<u64>,
}

impl Model for Agents {
    ghost use Rattle.std.specs.Prelude.{◌≡◌, ◌⊎◌, List, Option, vec_len};
    ghost use Rattle.ga_tallies.specs.declared.agents.KnownAgent.{KnownAgent};

    ghost Value = { List (Option KnownAgent) };

    ghost view = { λ agents. agents.places.items };

    ghost invariant = { λ agents. (vec_len agents.came ≡ 0) ⊎ (vec_len agents.came ≡ 2048) };
}

impl Agents {
    /// No agents, which take no memory.
    pub fn new(alloc: Global) -> Agents
        ensures { (rules : List Rule) → AreAgents rules result }
    {
        Agents {
            places: Vec::new(alloc),
            came: Vec::new(alloc),
        }
    }

    /// Keeps what an agent is, where that isn't known and the agent was the last that came to its place.
    pub(crate) fn learn(
        &mut self,
        alloc: Global,
        rules: &Rules,
        came: AgentRef<'_>,
    ) -> Result<(), NoMemory>
        requires { AreAgents rules.now self.old }
        ensures { AreAgents rules.now self.new }
    {
        let hash = came.hash;
        if self.known_agent(came).is_some() || !self.came_last(hash)? {
            return Ok(());
        }
        let text = Text::of(alloc, came.text)?;
        let agent = rules.classify(&text)?;
        self.put(KnownAgent { hash, text, agent })
    }

    /// Whether the last agent that came to its place unknown had this hash. Now one has that has it.
    fn came_last(&mut self, hash: u64) -> Result<bool, NoMemory>
        ensures { self.new ≡ self.old }
    {
        if self.came.is_empty() {
            self.came = vec![in *self.came.allocator(); 0; PLACES]?;
        }
        match self.came.get_mut(place_of(hash)) {
            Some(last) => Ok(mem::replace(last, hash) == hash),
            None => Ok(false),
        }
    }

    /// What an agent is: as it is kept, else as the rules say.
    pub(crate) fn class_of<'a>(&'a self, rules: &'a Rules, agent: AgentRef<'a>) -> Class<'a>
        requires { AreAgents rules.now self.now }
        ensures { IsTold rules.now agent.entry.text.now (agent_of result) }
    {
        match self.known_agent(agent) {
            Some(known) => class_in(known),
            None => rules.class_of(agent.text),
        }
    }

    /// What is kept of an agent.
    pub(crate) fn known_agent(&self, agent: AgentRef<'_>) -> Option<&Agent>
        ensures { (rules : List Rule) → AreAgents rules self.now →
            IfSome result (λ known. IsTold rules agent.entry.text.now known.now) }
    {
        let place = place_of(agent.hash);
        if place < self.places.len() {
            agent_at(&self.places[place], agent)
        } else {
            None
        }
    }

    /// Puts an agent at its place.
    fn put(&mut self, known: KnownAgent) -> Result<(), NoMemory>
        ensures { (rules : List Rule) → IsTold rules known.text known.agent →
            AreAgents rules self.old → AreAgents rules self.new }
    {
        make_places(&mut self.places, PLACES)?;
        let place = place_of(known.hash);
        put_at(&mut self.places, place, known);
        Ok(())
    }
}

/// What the agent at a place is, where it is this one.
fn agent_at<'a>(place: &'a Option<KnownAgent>, agent: AgentRef<'_>) -> Option<&'a Agent>
    ensures { (rules : List Rule) → IfSome place.now (λ known. IsTold rules known.text known.agent) →
        IfSome result (λ kept. IsTold rules agent.entry.text.now kept.now) }
{
    match place {
        Some(known) if known.hash == agent.hash && known.text.as_str() == agent.text => {
            Some(&known.agent)
        }
        _ => None,
    }
}

/// The place of an agent whose text has this hash.
fn place_of(hash: u64) -> usize
    ensures within { result < PLACES }
{
    hash as usize % PLACES
}

/// The same answer, borrowed.
fn class_in(agent: &Agent) -> Class<'_>
    ensures { agent_of result ≡ agent.now }
{
    Class {
        browser: agent.browser.as_str(),
        category: agent.category.as_str(),
        system: agent.system.as_str(),
        system_group: agent.system_group.as_str(),
        crawler: agent.crawler,
    }
}
