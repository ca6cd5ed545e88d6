ghost use Rattle.std.specs.Prelude.{◌≡◌, ◌<◌, ◌≤◌, ◌+◌, ◌-◌, ◌^◌, [], ℕ, List, true, IfOk, OnOk, length, map, slice_index, slice_index_or, sum_by, vec_len};
ghost use Rattle.std.specs.List.{All, list_any};
ghost use Rattle.ga_shards.specs.Numbers.{IsNumbering};
ghost use Rattle.ga_shards.specs.Steps.{AreNumbered, AreParts, all_noted, all_of, around, number_of, shard_at, shifted, start_of, those_of};

use crate::{Dictionary, Keyed, Numbering};
use ga_base::{NoMemory, Noted};
use std::alloc::Global;
use std::hash::{FoldHasher, Hash, Hasher};
use std::thread::{self, Threads};

/// Gives each different item of these dictionaries one number, as `number_keyed` does. Its maps hash by fixed words.
pub fn number<R: Threads + Sync, T: Noted + Drop>(
    rt: &R,
    alloc: Global,
    dictionaries: &[Dictionary<T>],
    shards: u32,
) -> Result<Numbering<T>, NoMemory>
    requires some { 1 ≤ shards }
    requires fits { sum_by (λ items. length items) dictionaries.now < 2 ^ 32 - 1 }
    ensures { IfOk result (IsNumbering T.eq dictionaries.now) }
{
    number_keyed(rt, alloc, Keyed::new(0, 0), dictionaries, shards)
}

/// Gives each different item of these dictionaries one number. The items are parted into `shards` by a hash, and the shards are
/// numbered side by side; which shard an item is in shows nowhere, nor does `keyed`.
pub fn number_keyed<R: Threads + Sync, T: Noted + Drop>(
    rt: &R,
    alloc: Global,
    keyed: Keyed,
    dictionaries: &[Dictionary<T>],
    shards: u32,
) -> Result<Numbering<T>, NoMemory>
    requires some { 1 ≤ shards }
    requires fits { sum_by (λ items. length items) dictionaries.now < 2 ^ 32 - 1 }
    ensures { IfOk result (IsNumbering T.eq dictionaries.now) }
{
    // What is known of shards, for the proof alone: the call does nothing.
    shards_are_a_numbering::<T>();
    let parts = parts_of(rt, alloc, keyed, dictionaries, shards)?;
    let starts = starts_of(alloc, &parts)?;
    let numbers = all_numbers(rt, alloc, dictionaries, &parts, &starts)?;
    Ok(Numbering::with(concat_items(alloc, parts)?, numbers))
}

/// Shards that have the different items of lists, one after the other, are a numbering of these.
fn shards_are_a_numbering<T: Hash>()
    ensures known { (shards : ℕ) (lists parts : List (List T)) → AreParts T.eq (shard_at T.hash_input shards) shards lists parts
        → All (λ item. list_any (T.eq item) (around (shard_at T.hash_input shards) parts item) ≡ true) (all_of lists) }
    ensures numbered { (shards : ℕ) (lists parts : List (List T)) → AreParts T.eq (shard_at T.hash_input shards) shards lists parts
        → IsNumbering T.eq lists (shifted T.eq (shard_at T.hash_input shards) parts lists) }
{}

/// The different items of each shard. The shards are looked for side by side.
pub(crate) fn parts_of<R: Threads + Sync, T: Noted + Drop>(
    rt: &R,
    alloc: Global,
    keyed: Keyed,
    dictionaries: &[Dictionary<T>],
    shards: u32,
) -> Result<Vec<Dictionary<T>>, NoMemory>
    requires some { 1 ≤ shards }
    requires fits { sum_by (λ items. length items) dictionaries.now < 2 ^ 32 - 1 }
    ensures len { IfOk result (λ v. vec_len v ≡ shards) }
    ensures each { IfOk result (λ v. (s : ℕ) → s < shards
        → slice_index_or v.items s [] ≡ all_noted T.eq [] (those_of (shard_at T.hash_input shards) s (all_of dictionaries.now))) }
{
    let part = move |shard: usize| -> Result<Dictionary<T>, NoMemory>
        requires { (shard < shards) × (1 ≤ shards) × (sum_by (λ items. length items) dictionaries.now < 2 ^ 32 - 1) }
        ensures { IfOk result (λ known. known ≡ all_noted T.eq [] (those_of (shard_at T.hash_input shards) shard (all_of dictionaries.entry.now))) }
    { items_of_shard(alloc, keyed, dictionaries, shards, shard as u32) };
    collect_all(
        alloc,
        thread::map_indices(rt, alloc, shards as usize, &part)?,
    )
}

/// The numbers of the items of each dictionary. They are looked up side by side.
fn all_numbers<R: Threads + Sync, T: Noted>(
    rt: &R,
    alloc: Global,
    dictionaries: &[Dictionary<T>],
    parts: &[Dictionary<T>],
    starts: &[u32],
) -> Result<Vec<Vec<u32>>, NoMemory>
    requires { AreNumbered T.eq (shard_at T.hash_input (length parts.now)) parts.now starts.now dictionaries.now }
    ensures { IfOk result (λ v. map (λ row. row.items) v.items ≡ map (λ items. map (number_of T.eq (shard_at T.hash_input (length parts.now)) parts.now) items) dictionaries.now) }
{
    let row = move |at: usize| -> Result<Vec<u32>, NoMemory>
        requires { (at < length dictionaries.now) × AreNumbered T.eq (shard_at T.hash_input (length parts.now)) parts.now starts.now dictionaries.now }
        ensures { IfOk result (λ v. v.items ≡ map (number_of T.eq (shard_at T.hash_input (length parts.entry.now)) parts.entry.now) (slice_index_or dictionaries.entry.now at [])) }
    { numbers_of(alloc, parts, starts, dictionaries[at].items()) };
    collect_all(
        alloc,
        thread::map_indices(rt, alloc, dictionaries.len(), &row)?,
    )
}

/// The values, where none of the results is lack of memory.
fn collect_all<X: Drop>(
    alloc: Global,
    results: Vec<Result<X, NoMemory>>,
) -> Result<Vec<X>, NoMemory>
    ensures { IfOk result (λ v. results.items ≡ map Ok v.items) }
{
    let mut all = Vec::with_capacity(alloc, results.len())?;
    for result in results {
        all.push(result?)?;
    }
    Ok(all)
}

/// In which of this many shards an item is. A hash of the standard library decides, which costs little: who makes items that
/// collide under it fills one shard, and its map is keyed.
fn shard_of<T: Noted>(item: &T, shards: u32) -> u32
    requires { 1 ≤ shards }
    ensures value { result ≡ shard_at T.hash_input shards item.now }
    ensures within { result < shards }
{
    let mut hasher = FoldHasher::default();
    item.hash(&mut hasher);
    (hasher.finish() % shards as u64) as u32
}

/// Notes those of the items that are in this shard.
fn note_those<T: Noted + Drop>(
    known: &mut Dictionary<T>,
    items: &[T],
    shards: u32,
    shard: u32,
) -> Result<(), NoMemory>
    requires some { 1 ≤ shards }
    requires fits { length known.old + length items.now < 2 ^ 32 - 1 }
    ensures noted { OnOk result (known.new ≡ all_noted T.eq known.old (those_of (shard_at T.hash_input shards) shard items.now)) }
    ensures len { OnOk result (length known.new ≤ length known.old + length items.now) }
{
    for item in items {
        if shard_of(item, shards) == shard {
            known.note(item.copy()?)?;
        }
    }
    Ok(())
}

/// The different items of one shard.
fn items_of_shard<T: Noted + Drop>(
    alloc: Global,
    keyed: Keyed,
    dictionaries: &[Dictionary<T>],
    shards: u32,
    shard: u32,
) -> Result<Dictionary<T>, NoMemory>
    requires some { 1 ≤ shards }
    requires fits { sum_by (λ items. length items) dictionaries.now < 2 ^ 32 - 1 }
    ensures { IfOk result (λ known. known ≡ all_noted T.eq [] (those_of (shard_at T.hash_input shards) shard (all_of dictionaries.now))) }
{
    let mut known = Dictionary::keyed(alloc, keyed);
    for dictionary in dictionaries {
        note_those(&mut known, dictionary.items(), shards, shard)?;
    }
    Ok(known)
}

/// The number with which each shard begins.
fn starts_of<T: Noted>(alloc: Global, parts: &[Dictionary<T>]) -> Result<Vec<u32>, NoMemory>
    requires { sum_by (λ items. length items) parts.now < 2 ^ 32 }
    ensures len { IfOk result (λ v. vec_len v ≡ length parts.now) }
    ensures each { IfOk result (λ v. (s : ℕ) → s < length parts.now → slice_index v.items s ≡ start_of parts.now s) }
{
    let mut starts = Vec::with_capacity(alloc, parts.len())?;
    let mut start = 0;
    for part in parts {
        starts.push(start)?;
        start += part.len();
    }
    Ok(starts)
}

/// The numbers of these items, each of which is in its shard.
fn numbers_of<T: Noted>(
    alloc: Global,
    parts: &[Dictionary<T>],
    starts: &[u32],
    items: &[T],
) -> Result<Vec<u32>, NoMemory>
    requires some { 1 ≤ length parts.now }
    requires shards { length parts.now < 2 ^ 32 }
    requires fits { sum_by (λ items. length items) parts.now < 2 ^ 32 }
    requires len { length starts.now ≡ length parts.now }
    requires starts { (s : ℕ) → s < length parts.now → slice_index starts.now s ≡ start_of parts.now s }
    requires known { All (λ item. list_any (T.eq item) (around (shard_at T.hash_input (length parts.now)) parts.now item) ≡ true) items.now }
    ensures { IfOk result (λ v. v.items ≡ map (number_of T.eq (shard_at T.hash_input (length parts.now)) parts.now) items.now) }
{
    let mut numbers = Vec::with_capacity(alloc, items.len())?;
    for item in items {
        numbers.push(number_in(parts, starts, item))?;
    }
    Ok(numbers)
}

/// The number of this item, which is in its shard.
fn number_in<T: Noted>(parts: &[Dictionary<T>], starts: &[u32], item: &T) -> u32
    requires some { 1 ≤ length parts.now }
    requires shards { length parts.now < 2 ^ 32 }
    requires fits { sum_by (λ items. length items) parts.now < 2 ^ 32 }
    requires len { length starts.now ≡ length parts.now }
    requires starts { (s : ℕ) → s < length parts.now → slice_index starts.now s ≡ start_of parts.now s }
    requires known { list_any (T.eq item.now) (around (shard_at T.hash_input (length parts.now)) parts.now item.now) ≡ true }
    ensures { result ≡ number_of T.eq (shard_at T.hash_input (length parts.now)) parts.now item.now }
{
    let shard = shard_of(item, parts.len() as u32) as usize;
    starts[shard] + parts[shard].find(item).unwrap()
}

/// The items of all shards, one after the other.
fn concat_items<T: Noted + Drop>(
    alloc: Global,
    parts: Vec<Dictionary<T>>,
) -> Result<Vec<T>, NoMemory>
    ensures { IfOk result (λ v. v.items ≡ all_of parts.items) }
{
    let mut all = Vec::new(alloc);
    for part in parts {
        all.append(&mut part.into_items(alloc)?)?;
    }
    Ok(all)
}
