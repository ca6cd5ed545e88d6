ghost use Rattle.std.specs.Prelude.{MatchOption};
ghost use Rattle.ga_words.specs.Steps.Words.{SaysOf, IsJoined, HasNoJoined, IsPlain, IsCut};

use crate::options::{Takes, option_named};

/// The byte with which an option begins.
const DASH: char = '-';

/// What stands between an option and its value in one word.
const EQUALS: char = '=';

/// The one option whose value never is in its word.
const SHORT: &str = "-o";

/// What a word says where it isn't a value.
#[derive(Clone, Copy)]
pub(crate) enum Word<'a> {
    /// It doesn't begin with a dash: the name of a log.
    Log,
    /// The name of an option.
    Alone(Takes),
    /// The name of an option, `=` and a value.
    Joined {
        name: &'a str,
        takes: Takes,
        value: &'a str,
    },
    /// It begins with a dash, and is none of these.
    Unknown,
}

/// What a word says, which isn't a value.
pub(crate) fn word_of(word: &str) -> Word<'_>
    ensures { SaysOf word.now result }
{
    if !word.starts_with(DASH) {
        return Word::Log;
    }
    if let Some(takes) = option_named(word) {
        return Word::Alone(takes);
    }
    match option_with_value(word) {
        Some((name, takes, value)) => Word::Joined { name, takes, value },
        None => Word::Unknown,
    }
}

/// The option, what it takes, and its value, where the word has all three.
fn option_with_value(word: &str) -> Option<(&str, Takes, &str)>
    ensures { MatchOption result (HasNoJoined word.now)
        (λ joined. IsJoined word.now joined.0.now joined.1 joined.2.now) }
{
    let (name, value) = cut_at_equals(word)?;
    if name == SHORT {
        return None;
    }
    Some((name, option_named(name)?, value))
}

/// What stands before the first `=` of a word, and what follows it.
fn cut_at_equals(word: &str) -> Option<(&str, &str)>
    ensures { MatchOption result (IsPlain word.now) (λ parts. IsCut word.now parts.0.now parts.1.now) }
{
    word.split_once(EQUALS)
}
