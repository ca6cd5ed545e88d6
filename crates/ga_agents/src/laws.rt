//! Laws of the definitions: functions that do nothing, each for the law that its contract states.

ghost use Rattle.std.specs.Prelude.{◌≡◌, ℕ, List};
ghost use Rattle.ga_agents.specs.declared.agent.Agent.{Agent};
ghost use Rattle.ga_agents.specs.declared.row.Rule.{Rule};
ghost use Rattle.ga_agents.specs.Classes.{AreNamed, HasNames, IsAgent, IsOneThing, IsSomething, TellsCrawlers};
ghost use Rattle.ga_agents.specs.RulesFile.{FileGives, IsAnswered, IsBadLine};

/// By the rules of any file each agent is something, and one thing.
pub fn one_class()
    ensures some { (file : List Rule) (agent : List ℕ) → IsSomething file agent }
    ensures one { (file : List Rule) (agent : List ℕ) → IsOneThing file agent }
{}

/// What an agent is tells whether its browser is one of the crawlers.
pub fn crawlers_are_told()
    ensures { (file : List Rule) (agent : List ℕ) → TellsCrawlers file agent }
{}

/// The rules of a browsers file have tokens and categories that aren't empty, and by such rules nothing that an agent is
/// has an empty name.
pub fn names()
    ensures rules { (text : List ℕ) (given : List Rule) → FileGives text given → AreNamed given }
    ensures agents { (file : List Rule) (agent : List ℕ) (answer : Agent) → AreNamed file → IsAgent file agent answer → HasNames answer }
{}

/// Each browsers file gives one list of rules, or has one first bad line, and not both.
pub fn one_reading()
    ensures some { (text : List ℕ) → IsAnswered text }
    ensures rules { (text : List ℕ) (one two : List Rule) → FileGives text one → FileGives text two → one ≡ two }
    ensures fault { (text : List ℕ) (one two : ℕ) → IsBadLine text one → IsBadLine text two → one ≡ two }
    ensures either { (text : List ℕ) (given : List Rule) (number : ℕ) → FileGives text given → ¬ IsBadLine text number }
{}
