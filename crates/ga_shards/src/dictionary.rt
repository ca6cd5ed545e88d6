ghost use Rattle.std.specs.Prelude.{◌≡◌, ◌<◌, ◌+◌, ◌-◌, ◌^◌, [], Some, true, false, length, slice_get, IfOk, IfSome, IfNone, OnOk, OnErr};
ghost use Rattle.std.specs.List.{IsDistinct, list_any};
ghost use Rattle.ga_shards.specs.Numbers.{noted, place_of};

use crate::Keyed;
use ga_base::{NoMemory, Noted};
use indexmap::IndexSet;
use std::alloc::Global;
use std::marker::Model;

/// Different items, in the order in which they were first noted. Contracts see the list of them.
#[derive(Drop)]
pub struct Dictionary<T: Noted> {
    items: IndexSet<T, Keyed>,
}

impl<T: Noted> Model for Dictionary<T> {
    ghost use Rattle.std.specs.Prelude.{◌<◌, ◌^◌, ◌-◌, List, length};
    ghost use Rattle.std.specs.List.{IsDistinct};

    ghost Value = { List T };

    ghost view = { λ d. d.items.keys };

    ghost invariant = { λ d. (length d.items.keys < 2 ^ 32 - 1) × IsDistinct T.eq d.items.keys };
}

impl<T: Noted> Dictionary<T> {
    /// A dictionary without items, which takes no memory. Its map hashes by fixed words, so it isn't for items that an attacker
    /// may choose.
    pub fn new(alloc: Global) -> Dictionary<T>
        ensures { result ≡ [] }
    {
        Dictionary::keyed(alloc, Keyed::new(0, 0))
    }

    /// A dictionary without items, which takes no memory. It hashes by `keyed`, on which nothing depends but the time it takes.
    pub fn keyed(alloc: Global, keyed: Keyed) -> Dictionary<T>
        ensures { result ≡ [] }
    {
        Dictionary {
            items: IndexSet::with_hasher(alloc, keyed),
        }
    }

    /// Whether the items are hashed by `keyed`, as far as `begins_as` tells. No answer depends on it, so contracts, which see a
    /// dictionary as its items, don't speak of it: it is for tests.
    pub fn is_keyed_by(&self, keyed: &Keyed) -> bool {
        self.items.hasher().begins_as(keyed)
    }

    /// How many items there are.
    pub fn len(&self) -> u32
        ensures value { result ≡ length self.now }
        ensures distinct { IsDistinct T.eq self.now }
    {
        self.items.len() as u32
    }

    /// The item at this place.
    pub fn item(&self, local: u32) -> &T
        requires { local < length self.now }
        ensures { slice_get self.now local ≡ Some result.now }
    {
        &self.items.as_slice()[local as usize]
    }

    /// Lends the items, in their order.
    pub fn items(&self) -> &[T]
        ensures value { result.now ≡ self.now }
        ensures distinct { IsDistinct T.eq self.now }
    {
        self.items.as_slice()
    }

    /// The place of the item that is equal to this one, where there is one.
    pub fn find(&self, item: &T) -> Option<u32>
        ensures some { IfSome result (λ local. (place_of T.eq self.now item.now ≡ local) × (local < length self.now)) }
        ensures none { IfNone result (list_any (T.eq item.now) self.now ≡ false) }
        ensures distinct { IsDistinct T.eq self.now }
    {
        Some(self.items.get_index_of(item)? as u32)
    }
}

impl<T: Noted + Drop> Dictionary<T> {
    /// Gives the items back, in their order.
    pub fn into_items(self, alloc: Global) -> Result<Vec<T>, NoMemory>
        ensures { IfOk result (λ v. v.items ≡ self) }
    {
        Ok(self.items.into_iter().collect(alloc)?)
    }

    /// The item's place, at the end where no item is equal to it. After an `Err` the dictionary is as it was, and the item is
    /// dropped.
    pub fn note(&mut self, item: T) -> Result<u32, NoMemory>
        requires { length self.old < 2 ^ 32 - 2 }
        ensures value { IfOk result (λ local. local ≡ place_of T.eq self.old item) }
        ensures noted { OnOk result (self.new ≡ noted T.eq self.old item) }
        ensures known { IfOk result (λ local. (known : T) × (slice_get self.new local ≡ Some known) × (T.eq item known ≡ true)) }
        ensures distinct { IsDistinct T.eq self.new }
        ensures err { OnErr result (self.new ≡ self.old) }
    {
        let (local, _) = self.items.insert_full(item)?;
        Ok(local as u32)
    }
}
