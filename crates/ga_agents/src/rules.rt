ghost use Rattle.std.specs.Prelude.{◌≡◌, ◌↔◌, ◌++◌, ℕ, [], List, IfOk, IfErr, OnOk, Ok, Err, IsTrue};
ghost use Rattle.ga_agents.specs.declared.agent.Agent.{Agent as AgentSpec};
ghost use Rattle.ga_agents.specs.declared.row.Rule.{Rule as RuleSpec};
ghost use Rattle.ga_agents.specs.Classes.{HasNames, IsAgent, IsCrawler, agent_of};
ghost use Rattle.ga_agents.specs.RulesFile.{FileGives, IsBadLine, IsFileFault, LineGives, UnlessNoMemory};
ghost use Rattle.ga_agents.specs.Steps.{IsLineFault};

use crate::agent_text::AgentText;
use crate::classes::{browser_in, found_in, system_in};
use crate::row::{RulesLine, row_of};
use crate::{Agent, Class, Rule, RuleFault};
use bstr::ByteSlice;
use ga_base::{Listing, NoMemory, Text};
use std::alloc::Global;
use std::marker::Model;

/// The category of crawlers.
const CRAWLERS: &str = "Crawlers";

/// The rules by which agents are told apart: those of a browsers file, which count first, and then the built-in ones.
/// Contracts see the list of the file's.
#[derive(Debug, Drop)]
pub struct Rules {
    alloc: Global,
    file: Listing<Rule>,
}

impl Model for Rules {
    ghost use Rattle.std.specs.Prelude.{List};
    ghost use Rattle.ga_agents.specs.declared.row.Rule.{Rule as TheRule};

    ghost Value = { List TheRule };

    ghost use Rattle.ga_agents.specs.Classes.{AreNamed};

    ghost view = { λ rules. rules.file };

    ghost invariant = { λ rules. AreNamed rules.file };
}

impl Rules {
    /// The built-in rules alone, which take no memory.
    pub fn builtin(alloc: Global) -> Rules
        ensures { result ≡ [] }
    {
        Rules {
            alloc,
            file: Listing::new(alloc),
        }
    }

    /// The rules of a browsers file. Each line is a token, one or more tabs and a category, both text with no tab and
    /// not empty; an empty line and one that begins with `#` are passed over. A line ends at a line feed, before which
    /// one carriage return is dropped, or at the file's end.
    ///
    /// `RuleFault` has the number of the first line, from 1, that is none of these, or is longer than 1,024 bytes
    /// without its end.
    pub fn read(alloc: Global, text: &[u8]) -> Result<Rules, RuleFault>
        // What is answered is what the file gives, or its first bad line, or lack of memory;
        ensures rules { IfOk result (FileGives text.now) }
        ensures fault { IfErr result (IsFileFault text.now) }

        // and what it gives and its first bad line are answered, unless memory runs out.
        ensures only_rules { (given : List RuleSpec) → FileGives text.now given → UnlessNoMemory result (Ok given) }
        ensures only_fault { (number : ℕ) → IsBadLine text.now number → UnlessNoMemory result (Err (RuleFault.RuleFault number)) }
    {
        Ok(Rules {
            alloc,
            file: read_rules(alloc, text)?,
        })
    }

    /// What an agent tells, borrowed from the agent and from these rules. This takes no memory. The first rule counts
    /// whose token is a substring of the agent, byte for byte. The browser is the text from the token's first place up
    /// to the first space, `;`, `,`, `(` or `)` at or after the token's end, or to the end. The first system counts in
    /// the same way. What no entry gives is `Unknown`, so none of these texts is empty.
    pub fn class_of<'a>(&'a self, agent: &'a str) -> Class<'a>
        ensures agent { IsAgent self.now agent.now (agent_of result) }
        ensures named { HasNames (agent_of result) }
    {
        let agent = AgentText::of(agent);
        let browser = browser_in(self.file.items(), &agent);
        let system = system_in(&agent);
        Class {
            browser: browser.name,
            category: browser.category,
            system: system.name,
            system_group: system.group,
            crawler: is_crawlers(browser.category),
        }
    }

    /// What an agent tells, as `class_of` does, in texts of its own.
    pub fn classify(&self, agent: &Text) -> Result<Agent, NoMemory>
        ensures agent { IfOk result (IsAgent self.now agent.now) }
        ensures named { IfOk result HasNames }
    {
        self.class_of(agent.as_str()).to_agent(self.alloc)
    }

    /// Whether the category of an agent is `Crawlers`. This takes no memory.
    pub fn is_crawler(&self, agent: &Text) -> bool
        ensures crawler { IsTrue result ↔ IsCrawler self.now agent.now }
        ensures agrees { (answer : AgentSpec) → IsAgent self.now agent.now answer → result ≡ answer.crawler }
    {
        match found_in(self.file.items(), &AgentText::of(agent.as_str())) {
            Some(found) => is_crawlers(found.category),
            None => false,
        }
    }
}

/// Whether a category is that of crawlers.
fn is_crawlers(category: &str) -> bool
    ensures { IsTrue result ↔ (category.now ≡ CRAWLERS.now) }
{
    category == CRAWLERS
}

/// The rules of a file's lines.
fn read_rules(alloc: Global, text: &[u8]) -> Result<Listing<Rule>, RuleFault>
    ensures rules { IfOk result (FileGives text.now) }
    ensures fault { IfErr result (IsFileFault text.now) }
{
    let mut rules = Listing::new(alloc);
    let mut number = 0;
    for line in text.lines() {
        number += 1;
        read_line(alloc, line, number, &mut rules)?;
    }
    Ok(rules)
}

/// Adds the rule of the line with this number, if it has one.
fn read_line(
    alloc: Global,
    line: &[u8],
    number: u64,
    rules: &mut Listing<Rule>,
) -> Result<(), RuleFault>
    ensures ok { OnOk result ((given : List RuleSpec) × LineGives line.now given × (rules.new ≡ rules.old ++ given)) }
    ensures fault { IfErr result (IsLineFault line.now number) }
{
    match row_of(line) {
        None => Err(RuleFault::RuleFault { line: number }),
        Some(RulesLine::PassedOver) => Ok(()),
        Some(RulesLine::Entry { token, category }) => {
            rules.push(Rule {
                token: Text::of(alloc, token)?,
                category: Text::of(alloc, category)?,
            })?;
            Ok(())
        }
    }
}
