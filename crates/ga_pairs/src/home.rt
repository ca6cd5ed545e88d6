//! Where the search for a pair begins.

ghost use Rattle.std.specs.Prelude.{◌≡◌, ◌<◌, ◌^◌};
ghost use Rattle.ga_pairs.specs.Homes.{IsPair, home as home_of, word_of};

use crate::view::Pair;

/// Keys are a multiple of this apart in the words of pairs.
const KEY_STRIDE: u64 = 1 << 32;

/// `2^64` divided by the golden ratio, an odd number. A product with it takes neighbours far apart.
const SPREAD: u64 = 0x9e37_79b9_7f4a_7c15;

/// The word of a pair.
pub(crate) fn word(pair: Pair) -> u64
    requires { IsPair pair }
    ensures { result ≡ word_of pair }
{
    u64::from(pair.key) * KEY_STRIDE + u64::from(pair.visitor) + 1
}

/// The home place of a word in a row of this many cells.
#[tactic(auto, unfolding(crate::specs::Homes::home, crate::specs::Homes::spread))]
pub(crate) fn home(cells: u32, word: u64) -> u32
    requires { 0 < cells }
    ensures { result ≡ home_of cells word }
{
    let mixed = word.wrapping_mul(SPREAD);
    let spread = (mixed ^ (mixed >> 32)).wrapping_mul(SPREAD);
    (((spread >> 32) * u64::from(cells)) >> 32) as u32
}
