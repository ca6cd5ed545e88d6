ghost use Rattle.std.specs.Prelude.{◌≡◌, ◌<◌, ℕ, List, Some, IfOk, IfSome, IfNone, OnErr, OnOk, map, slice_get, vec_len};
ghost use Rattle.ga_numbers.specs.Steps.Kept.{AreNamed, AreShards, StandsAt, rows_in};
ghost use Rattle.ga_numbers.specs.NotedNumbers.{IsNumbered};
ghost use Rattle.ga_numbers.specs.Steps.ShardRows.{is_same_row};
ghost use Rattle.ga_numbers.specs.declared.shard_row.ShardRow.{ShardRow};

use ga_base::NoMemory;

/// This many numbers there are.
const PLACES_MAX: usize = u32::MAX as usize;

/// Where a row stands.
#[derive(Clone, Copy, Debug, PartialEq, Eq)]
pub(crate) struct Place {
    /// Its shard.
    pub(crate) shard: u32,
    /// Its place among the rows of the shard.
    pub(crate) local: u32,
}

/// The number of the row at a place: the one that it has, or the next one. After an `Err` it has none.
pub(crate) fn assign(
    numbers: &mut Vec<Vec<u32>>,
    places: &mut Vec<Place>,
    place: Place,
) -> Result<u32, NoMemory>
    requires { place.shard < vec_len numbers.old }
    ensures ok { (shards : List (List ShardRow)) (row : ShardRow) → AreShards shards → AreNamed shards (map (λ l. l.items) numbers.old.items) places.old.items → StandsAt shards place row
        → IfOk result (λ number. IsNumbered is_same_row row number (rows_in shards places.old.items) (rows_in shards places.new.items)) }
    ensures named { (shards : List (List ShardRow)) (row : ShardRow) → AreShards shards → AreNamed shards (map (λ l. l.items) numbers.old.items) places.old.items → StandsAt shards place row
        → AreNamed shards (map (λ l. l.items) numbers.new.items) places.new.items }
    ensures many { vec_len numbers.new ≡ vec_len numbers.old }
    ensures err { OnErr result (places.new.items ≡ places.old.items) }
{
    let shard = place.shard as usize;
    if let Some(number) = number_at(&numbers[shard], places, place) {
        return Ok(number);
    }
    if places.len() >= PLACES_MAX {
        return Err(NoMemory);
    }
    let number = places.len() as u32;
    make_room(&mut numbers[shard], place.local)?;
    places.push(place)?;
    set(&mut numbers[shard], place.local, number);
    Ok(number)
}

/// The number of the row at a place, where it has one. A shard may keep a number for a row that has none: it counts only where
/// the place of that number is this one.
fn number_at(numbers: &[u32], places: &[Place], place: Place) -> Option<u32>
    ensures some { IfSome result (λ number. slice_get places.now number ≡ Some place) }
    ensures none { IfNone result ((n : ℕ) → slice_get numbers.now place.local ≡ Some n → slice_get places.now n ≡ Some place → ⊥) }
{
    let number = *numbers.get(place.local as usize)?;
    match places.get(number as usize) {
        Some(known) if *known == place => Some(number),
        _ => None,
    }
}

/// Makes a shard's numbers this many that one can be set at this place.
fn make_room(numbers: &mut Vec<u32>, local: u32) -> Result<(), NoMemory>
    ensures room { OnOk result (local < vec_len numbers.new) }
    ensures kept { (k n : ℕ) → slice_get numbers.old.items k ≡ Some n → slice_get numbers.new.items k ≡ Some n }
{
    while numbers.len() <= local as usize {
        numbers.push(0)?;
    }
    Ok(())
}

/// Sets the number at this place.
fn set(numbers: &mut Vec<u32>, local: u32, number: u32)
    requires { local < vec_len numbers.old }
    ensures same { (k n : ℕ) → (k ≡ local → ⊥) → slice_get numbers.old.items k ≡ Some n → slice_get numbers.new.items k ≡ Some n }
    ensures here { slice_get numbers.new.items local ≡ Some number }
{
    numbers[local as usize] = number;
}
