ghost use Rattle.std.specs.Prelude.{◌≡◌, Some, true, IfOk, OnErr, OnOk, map, slice_get};
ghost use Rattle.std.specs.List.{IsDistinct};
ghost use Rattle.ga_numbers.specs.NotedNumbers.{AreNotedInTurn, places_of};
ghost use Rattle.ga_shards.specs.Numbers.{noted, place_of};
ghost use Rattle.ga_shards.specs.Steps.{all_noted};

use ga_base::{NoMemory, Noted};
use ga_shards::Dictionary;
use std::alloc::Global;

/// This many items a dictionary holds.
const DICTIONARY_MAX: u32 = u32::MAX - 1;

/// Notes items, and gives the number of each.
pub(crate) fn note_all<T: Noted + Drop>(
    alloc: Global,
    known: &mut Dictionary<T>,
    items: Vec<T>,
) -> Result<Vec<u32>, NoMemory>
    ensures numbers { IfOk result (λ numbers. numbers.items ≡ places_of T.eq known.old items.items) }
    ensures noted { OnOk result (known.new ≡ all_noted T.eq known.old items.items) }
    ensures distinct { IsDistinct T.eq known.old → IsDistinct T.eq known.new }
{
    let mut numbers = Vec::with_capacity(alloc, items.len())?;
    for item in items {
        numbers.push(note(known, item)?)?;
    }
    Ok(numbers)
}

/// Notes the items of others, list by list, and gives the number of each.
pub(crate) fn note_each<T: Noted + Drop>(
    alloc: Global,
    known: &mut Dictionary<T>,
    others: Vec<Dictionary<T>>,
) -> Result<Vec<Vec<u32>>, NoMemory>
    ensures { IfOk result (λ numbers. AreNotedInTurn T.eq others.items (map (λ l. l.items) numbers.items) known.old known.new) }
{
    let mut numbers = Vec::with_capacity(alloc, others.len())?;
    for items in others {
        numbers.push(note_all(alloc, known, items.into_items(alloc)?)?)?;
    }
    Ok(numbers)
}

/// Notes an item, and gives its number. A dictionary that is full answers lack of memory. After an `Err` it is as it was.
pub(crate) fn note<T: Noted + Drop>(items: &mut Dictionary<T>, item: T) -> Result<u32, NoMemory>
    ensures value { IfOk result (λ local. local ≡ place_of T.eq items.old item) }
    ensures noted { OnOk result (items.new ≡ noted T.eq items.old item) }
    ensures known { IfOk result (λ local. (known : T) × (slice_get items.new local ≡ Some known) × (T.eq item known ≡ true)) }
    ensures distinct { IsDistinct T.eq items.new }
    ensures err { OnErr result (items.new ≡ items.old) }
{
    if items.len() >= DICTIONARY_MAX {
        return Err(NoMemory);
    }
    items.note(item)
}
