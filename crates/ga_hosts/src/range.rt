ghost use Rattle.std.specs.Prelude.{◌≡◌, ◌<◌, ◌↔◌, ℕ, Ok, IfOk, IsErrOf, IsTrue};
ghost use Rattle.std.specs.Option.{option_copied};
ghost use Rattle.ga_hosts.specs.Addresses.{IsAtMost};
ghost use Rattle.ga_hosts.specs.Ranges.{SpellsRange, LacksFirst, LacksSecond, IsWithin};
ghost use Rattle.ga_hosts.specs.Steps.{IsCut};
ghost use Rattle.ga_hosts.specs.declared.range.Range.{Range as RangeSpec};

use crate::{Address, address_of};
use std::error::Error;
use std::fmt;

/// What stands between the two addresses of a range. No address has one.
const DASH: u8 = b'-';

/// The place of the first address.
const START: u64 = 0;

/// The addresses from `low` to `high`, both among them. What `Range::read` gives is of one family, with `low` not above
/// `high`; other ranges have no address.
#[derive(Clone, Copy, Debug, PartialEq, Eq)]
pub struct Range {
    /// The first address.
    pub low: Address,
    /// The last address.
    pub high: Address,
}

/// The text spells no range.
#[derive(Clone, Copy, Debug, PartialEq, Eq)]
pub struct BadRange {
    /// The place of the byte from which on the address is missing: 0 for the first one, the place after the dash for the
    /// second.
    pub at: u64,
}

impl fmt::Display for BadRange {
    ghost use Rattle.std.specs.Prelude.{Some};
    ghost use Rattle.ga_hosts.specs.Ranges.{bad_range_text};

    ghost output = { λ bad. Some (bad_range_text bad) };

    fn fmt<W: fmt::Write>(&self, f: &mut fmt::Formatter<W>) -> fmt::Result {
        write!(f, "byte {}: bad range", self.at)
    }
}

impl Error for BadRange {}

impl Range {
    /// The range that a text spells: an address, or two addresses of one family with a dash between them, the first not
    /// above the second. The text is cut at its first dash.
    ///
    /// # Errors
    /// `BadRange` with `at` 0 where the first part is no address, and else with the place after the dash where the second
    /// part is none, is of the other family or is below the first.
    pub fn read(text: &[u8]) -> Result<Range, BadRange>
        ensures ok { (range : RangeSpec) → (result ≡ Ok range) ↔ SpellsRange text.now range }
        ensures ordered { IfOk result (λ range. IsAtMost range.low range.high) }
        ensures bad_first { IsErrOf result (record { at = 0 }) ↔ LacksFirst text.now }
        ensures bad_second { (at : ℕ) → 0 < at →
            (IsErrOf result (record { at = at }) ↔ LacksSecond text.now at) }
    {
        let (first, second) = cut_at_dash(text);
        let Some(low) = address_of(first) else {
            return Err(BadRange { at: START });
        };
        let Some(second) = second else {
            return Ok(Range { low, high: low });
        };
        match address_of(second) {
            Some(high) if low.is_at_most(high) => Ok(Range { low, high }),
            _ => Err(BadRange {
                at: first.len() as u64 + 1,
            }),
        }
    }

    /// Whether the address is in the range.
    pub(crate) fn has(&self, address: Address) -> bool
        ensures { IsTrue result ↔ IsWithin address self.now }
    {
        self.low.is_at_most(address) && address.is_at_most(self.high)
    }
}

/// The text up to its first dash, and what follows the dash; the whole text where it has none.
fn cut_at_dash(text: &[u8]) -> (&[u8], Option<&[u8]>)
    ensures { IsCut text.now result.0.now (option_copied result.1) }
{
    match text.iter().position(|byte| *byte == DASH) {
        Some(dash) => (&text[..dash], Some(&text[dash + 1..])),
        None => (text, None),
    }
}
