ghost use Rattle.std.specs.Prelude.{◌≡◌, ◌<◌, ◌^◌, [], Some, length, map, slice_get, slice_index_or, vec_len};
ghost use Rattle.ga_shards.specs.Numbers.{item_of};

use std::marker::Model;

/// One number for each different item of several dictionaries. Contracts see the items by their numbers, and the numbers by
/// dictionary and place.
#[derive(Drop)]
pub struct Numbering<T> {
    /// The item of each number.
    items: Vec<T>,
    /// For each dictionary the numbers of its items.
    numbers: Vec<Vec<u32>>,
}

impl<T> Model for Numbering<T> {
    ghost use Rattle.std.specs.Prelude.{◌<◌, ◌^◌, map, vec_len};
    ghost use Rattle.ga_shards.specs.Numbers.{NumberingSeen};

    ghost Value = { NumberingSeen T };

    ghost view = { λ n. record { items = n.items.items; numbers = map (λ row. row.items) n.numbers.items } };

    ghost invariant = { λ n. vec_len n.items < 2 ^ 32 };
}

impl<T> Numbering<T> {
    /// The numbering of these items, with the numbers of each dictionary's.
    pub(crate) fn with(items: Vec<T>, numbers: Vec<Vec<u32>>) -> Numbering<T>
        requires { vec_len items < 2 ^ 32 }
        ensures { result ≡ record { items = items.items; numbers = map (λ row. row.items) numbers.items } }
    {
        Numbering { items, numbers }
    }

    /// How many numbers there are.
    pub fn len(&self) -> u32
        ensures { result ≡ length self.now.items }
    {
        self.items.len() as u32
    }

    /// Lends the items, in the order of their numbers.
    pub fn items(&self) -> &[T]
        ensures value { result.now ≡ self.now.items }
        ensures few { length self.now.items < 2 ^ 32 }
    {
        &self.items
    }

    /// Gives the items back, in the order of their numbers.
    pub fn into_items(self) -> Vec<T>
        ensures { result.items ≡ self.items }
    {
        self.items
    }

    /// The item of this number.
    pub fn item(&self, number: u32) -> &T
        requires { number < length self.now.items }
        ensures { slice_get self.now.items number ≡ Some result.now }
    {
        &self.items[number as usize]
    }

    /// The number of this dictionary's item at this place.
    pub fn of(&self, dictionary: u32, local: u32) -> u32
        requires dictionary { dictionary < length self.now.numbers }
        requires local { local < length (slice_index_or self.now.numbers dictionary []) }
        ensures { item_of self.now.numbers dictionary local ≡ Some result }
    {
        self.numbers[dictionary as usize][local as usize]
    }
}
