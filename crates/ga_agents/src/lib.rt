//! What a user agent tells: its browser, the browser's category, its system, and whether it is a crawler.
//!
//! Start with `Rules`, which a browsers file gives or which are the built-in ones alone, and `Rules::classify`, or
//! `Rules::class_of`, which borrows its answer and takes no memory, for a hot loop.
//! `specs/Occurs.antt` says which entry of a list counts for an agent, `specs/Tables.antt` has the built-in lists,
//! `specs/Classes.antt` says what an agent is, and `specs/RulesFile.antt` what a browsers file says. `laws` says that each
//! has one meaning; `specs/Steps.antt` has the words of inner steps alone.
#![tactic(auto)]

mod agent;
mod agent_text;
mod classes;
mod entries;
mod fault;
pub mod laws;
mod pair_set;
mod row;
mod rules;
mod tables;

pub use agent::{Agent, Class};
pub use fault::RuleFault;
pub use row::Rule;
pub use rules::Rules;
