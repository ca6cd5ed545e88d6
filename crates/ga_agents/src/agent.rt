ghost use Rattle.std.specs.Prelude.{◌≡◌, IfOk};
ghost use Rattle.ga_agents.specs.Classes.{agent_of};

use ga_base::{NoMemory, Text};
use std::alloc::Global;

/// What a user agent tells.
#[derive(Debug, PartialEq, Eq, Drop)]
pub struct Agent {
    /// The browser with its version, as `Firefox/122.0`, or `Unknown`.
    pub browser: Text,
    /// The browser's category, as `Firefox`, or `Unknown`.
    pub category: Text,
    /// The operating system, as `Windows 10`, or `Unknown`.
    pub system: Text,
    /// The system's group, as `Windows`, or `Unknown`.
    pub system_group: Text,
    /// Whether the category is `Crawlers`.
    pub crawler: bool,
}

/// What a user agent tells, as `Agent` does, borrowed from the agent and from the rules.
#[derive(Clone, Copy, Debug, PartialEq, Eq)]
pub struct Class<'a> {
    /// The browser with its version, a piece of the agent, or `Unknown`.
    pub browser: &'a str,
    /// The browser's category, as the rule has it, or `Unknown`.
    pub category: &'a str,
    /// The operating system, as `Windows 10`, or `Unknown`.
    pub system: &'a str,
    /// The system's group, as `Windows`, or `Unknown`.
    pub system_group: &'a str,
    /// Whether the category is `Crawlers`.
    pub crawler: bool,
}

impl<'a> Class<'a> {
    /// The same in texts of its own.
    pub(crate) fn to_agent(self, alloc: Global) -> Result<Agent, NoMemory>
        ensures { IfOk result (λ agent. agent ≡ agent_of self.entry) }
    {
        Ok(Agent {
            browser: Text::of(alloc, self.browser)?,
            category: Text::of(alloc, self.category)?,
            system: Text::of(alloc, self.system)?,
            system_group: Text::of(alloc, self.system_group)?,
            crawler: self.crawler,
        })
    }
}
