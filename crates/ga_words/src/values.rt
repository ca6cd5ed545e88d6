ghost use Rattle.std.specs.Prelude.{◌↔◌, ◌≡◌, ◌≢◌, ◌∷◌, [], ◌++◌, ◌<◌, ◌^◌, ℕ, List, IsTrue, MatchOption};
ghost use Rattle.ga_hosts.specs.Ranges.{SpellsRange};
ghost use Rattle.ga_hosts.specs.declared.range.Range.{Range as RangeSpec};
ghost use Rattle.ga_words.specs.Values.{IsNumber, NamesOutput};
ghost use Rattle.ga_words.specs.Steps.Settings.{output_in};
ghost use Rattle.ga_words.specs.declared.settings.Output.{Output as OutputSpec};

use crate::Kind;
use ga_hosts::Range;

/// The byte of a sign, which no number has.
const PLUS: u8 = b'+';

/// The number that `text` writes in this many decimal digits without a sign, where it is from `low` to `high`.
pub(crate) fn number_of(
    text: &str,
    shortest: usize,
    longest: usize,
    low: u32,
    high: u32,
) -> Option<u32>
    ensures { MatchOption result ((n : ℕ) → ¬ IsNumber shortest longest low high text.now n)
        (IsNumber shortest longest low high text.now) }
{
    let len = text.len();
    if len < shortest || longest < len || has_plus(text.as_bytes()) {
        return None;
    }
    let number = text.parse::<u32>().ok()?;
    (low <= number && number <= high).then_some(number)
}

/// Whether a plus stands first.
fn has_plus(text: &[u8]) -> bool
    ensures { IsTrue result ↔ ((rest : List ℕ) × (text.now ≡ PLUS ∷ rest)) }
{
    text.first() == Some(&PLUS)
}

/// The addresses that a text names.
pub(crate) fn range_of(text: &str) -> Option<Range>
    ensures { MatchOption result ((range : RangeSpec) → ¬ SpellsRange text.now range)
        (SpellsRange text.now) }
{
    match Range::read(text.as_bytes()) {
        Ok(range) => Some(range),
        Err(_) => None,
    }
}

/// Where the report goes by a value of `-o`: its kind, and the name of the file, which is empty for standard output.
pub(crate) fn target_of(text: &str) -> Option<(Kind, &str)>
    ensures { MatchOption result ((output : OutputSpec) → ¬ NamesOutput text.now output)
        (λ target. NamesOutput text.now (output_in target.0 target.1.now)) }
{
    match text {
        "json" => Some((Kind::Json, "")),
        "csv" => Some((Kind::Csv, "")),
        _ if is_longer(text, ".json") => Some((Kind::Json, text)),
        _ if is_longer(text, ".csv") => Some((Kind::Csv, text)),
        _ => None,
    }
}

/// Whether a text ends so, and has a byte before that.
fn is_longer(text: &str, ending: &str) -> bool
    ensures { IsTrue result ↔ ((front : List ℕ) × (front ≢ []) × (text.now ≡ front ++ ending.now)) }
{
    match text.strip_suffix(ending) {
        Some(front) => !front.is_empty(),
        None => false,
    }
}
