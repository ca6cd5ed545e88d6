ghost use Rattle.std.specs.Prelude.{◌≡◌, All, IfOk, Some, map, slice_get};
ghost use Rattle.std.specs.List.Sorted.{IsPermutation, IsSorted};
ghost use Rattle.ga_totals.specs.Steps.KeyRows.{AreByKey, number_cmp};

use ga_base::laws::key_order;
use ga_base::{Key, NoMemory};
use std::alloc::Global;
use std::cmp::Ordering;
use std::marker::Model;

/// A key with its number.
#[derive(Drop)]
pub(crate) struct NumberedKey<'a> {
    /// The number.
    number: usize,
    /// The key, which the total lends.
    key: &'a Key,
}

impl<'a> Model for NumberedKey<'a> {
    ghost use Rattle.ga_totals.specs.Steps.KeyRows.{NumberedKey};

    ghost Value = { NumberedKey };

    ghost view = { λ n. record { number = n.number; key = n.key.now } };
}

impl<'a> NumberedKey<'a> {
    /// The number.
    pub(crate) fn number(&self) -> usize
        ensures { result ≡ self.now.number }
    {
        self.number
    }

    /// The key.
    pub(crate) fn key(&self) -> &'a Key
        ensures { result.now ≡ self.now.key }
    {
        self.key
    }
}

/// The keys with their numbers, in the order of the keys.
pub(crate) fn by_key<'a>(alloc: Global, keys: &'a [Key]) -> Result<Vec<NumberedKey<'a>>, NoMemory>
    ensures { IfOk result (λ all. AreByKey keys.now all.items) }
{
    Ok(sort_by_key(number_keys(alloc, keys)?))
}

/// The keys with their numbers.
fn number_keys<'a>(alloc: Global, keys: &'a [Key]) -> Result<Vec<NumberedKey<'a>>, NoMemory>
    ensures keys { IfOk result (λ all. map (λ n. n.key) all.items ≡ keys.now) }
    ensures numbers { IfOk result (λ all. All (λ n. slice_get keys.now n.number ≡ Some n.key) all.items) }
{
    let mut all = Vec::with_capacity(alloc, keys.len())?;
    for (number, key) in keys.iter().enumerate() {
        all.push(NumberedKey { number, key })?;
    }
    Ok(all)
}

/// In the order of the keys.
fn sort_by_key(all: Vec<NumberedKey<'_>>) -> Vec<NumberedKey<'_>>
    ensures same { IsPermutation all.entry.items result.items }
    ensures sorted { IsSorted number_cmp result.items }
{
    let mut all = all;
    all.sort_unstable_by(|a, b| compare(a, b));
    all
}

/// Where two stand to each other.
fn compare(a: &NumberedKey<'_>, b: &NumberedKey<'_>) -> Ordering
    ensures { result ≡ number_cmp a.now b.now }
{
    key_order();
    a.key().cmp(b.key())
}
