ghost use Rattle.std.specs.Prelude.{◌≡◌, ◌↔◌, ℕ, List, MatchOption, IsTrue, position};
ghost use Rattle.ga_agents.specs.declared.row.Rule.{Rule as RuleSpec};
ghost use Rattle.ga_agents.specs.RulesFile.{IsPart, IsPassedOver, LineGives};
ghost use Rattle.ga_agents.specs.Steps.{IsCut, is_other, rules_of_row};

use crate::entries::HasToken;
use bstr::ByteSlice;
use ga_base::Text;

/// The longest line of a browsers file, in bytes without its end (own profile).
const MAX_RULE_LINE: usize = 1_024;

/// The byte that begins a comment.
const COMMENT: u8 = b'#';

/// The byte between a token and its category.
const TAB: u8 = b'\t';

/// A rule: an agent with the token has the category.
#[derive(Debug, PartialEq, Eq, Drop)]
pub struct Rule {
    /// What an agent has to have, byte for byte.
    pub token: Text,
    /// The category of its browser.
    pub category: Text,
}

impl HasToken for Rule {
    ghost token_of = { λ rule. rule.token };

    fn token(&self) -> &str {
        self.token.as_str()
    }
}

/// A line of a browsers file.
#[derive(Clone, Copy)]
pub(crate) enum RulesLine<'a> {
    /// An empty line or a comment.
    PassedOver,
    /// A rule.
    Entry { token: &'a str, category: &'a str },
}

/// What a line says, given without its end. `None` where it is no row, or too long.
pub(crate) fn row_of(line: &[u8]) -> Option<RulesLine<'_>>
    ensures { MatchOption result ((given : List RuleSpec) → ¬ LineGives line.now given) (λ row. LineGives line.now (rules_of_row row)) }
{
    if line.len() > MAX_RULE_LINE {
        return None;
    }
    if is_passed_over(line) {
        return Some(RulesLine::PassedOver);
    }
    let (token, category) = cut(line)?;
    Some(RulesLine::Entry {
        token: part(token)?,
        category: part(category)?,
    })
}

/// Whether a line is empty or a comment.
fn is_passed_over(line: &[u8]) -> bool
    ensures { IsTrue result ↔ IsPassedOver line.now }
{
    match line.first() {
        None => true,
        Some(b) => *b == COMMENT,
    }
}

/// What stands before the first tab of a line, and what follows the tabs there.
fn cut(line: &[u8]) -> Option<(&[u8], &[u8])>
    ensures { MatchOption result ((token : List ℕ) (category : List ℕ) → ¬ IsCut line.now token category) (λ parts. IsCut line.now parts.0.now parts.1.now) }
{
    let end = line.find_byte(TAB)?;
    let rest = &line[end + 1..];
    let tabs = first_other(rest)?;
    Some((&line[..end], &rest[tabs..]))
}

/// The place of the first byte that is no tab.
fn first_other(bytes: &[u8]) -> Option<usize>
    ensures { result ≡ position is_other bytes.now }
{
    bytes.iter().position(|b| *b != TAB)
}

/// A token or a category as text.
fn part(bytes: &[u8]) -> Option<&str>
    ensures { MatchOption result (¬ IsPart bytes.now) (λ text. (text.now ≡ bytes.now) × IsPart bytes.now) }
{
    if bytes.is_empty() || bytes.find_byte(TAB).is_some() {
        return None;
    }
    str::from_utf8(bytes).ok()
}
