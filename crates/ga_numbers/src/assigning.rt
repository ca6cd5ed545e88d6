ghost use Rattle.std.specs.Prelude.{◌≡◌, ◌<◌, List, IfOk, All, map, vec_len};
ghost use Rattle.ga_numbers.specs.Steps.Kept.{AreNamed, AreShards, IsRowAt, StandEach, merged_place, merged_places, rows_in};
ghost use Rattle.ga_numbers.specs.NotedNumbers.{AreNoted, AreNotedInTurn};
ghost use Rattle.ga_numbers.specs.Steps.ShardRows.{is_same_row};
ghost use Rattle.ga_numbers.specs.declared.shard_row.ShardRow.{ShardRow};

use crate::lists::{list_at, number_at};
use crate::place::{Place, assign};
use crate::shard_merge::LocalMaps;
use ga_base::NoMemory;
use std::alloc::Global;

/// The numbers of the rows of each of the others, other by other, in their order, which is that of its places.
pub(crate) fn assign_each(
    alloc: Global,
    numbers: &mut Vec<Vec<u32>>,
    places: &mut Vec<Place>,
    orders: Vec<Vec<Place>>,
    local_maps: &[LocalMaps],
) -> Result<Vec<Vec<u32>>, NoMemory>
    requires { All (λ order. All (λ place. place.shard < vec_len numbers.old) order.items) orders.items }
    ensures noted { (shards : List (List ShardRow)) → AreShards shards → AreNamed shards (map (λ l. l.items) numbers.old.items) places.old.items
        → StandEach shards (map (λ shard. map (λ l. l.items) shard.items) local_maps.now) (map (λ o. o.items) orders.items)
        → IfOk result (λ given. AreNotedInTurn is_same_row (map (rows_in shards) (merged_places (map (λ shard. map (λ l. l.items) shard.items) local_maps.now) 0 (map (λ o. o.items) orders.items)))
        (map (λ l. l.items) given.items) (rows_in shards places.old.items) (rows_in shards places.new.items)) }
    ensures named { (shards : List (List ShardRow)) → AreShards shards → AreNamed shards (map (λ l. l.items) numbers.old.items) places.old.items
        → StandEach shards (map (λ shard. map (λ l. l.items) shard.items) local_maps.now) (map (λ o. o.items) orders.items)
        → AreNamed shards (map (λ l. l.items) numbers.new.items) places.new.items }
{
    let mut given = Vec::with_capacity(alloc, orders.len())?;
    for order in orders {
        let which = given.len();
        given.push(assign_all(alloc, numbers, places, which, &order, local_maps)?)?;
    }
    Ok(given)
}

/// The numbers of the rows of one of the others, in their order, which is that of these places.
fn assign_all(
    alloc: Global,
    numbers: &mut Vec<Vec<u32>>,
    places: &mut Vec<Place>,
    which: usize,
    order: &[Place],
    local_maps: &[LocalMaps],
) -> Result<Vec<u32>, NoMemory>
    requires { All (λ place. place.shard < vec_len numbers.old) order.now }
    ensures noted { (shards : List (List ShardRow)) → AreShards shards → AreNamed shards (map (λ l. l.items) numbers.old.items) places.old.items
        → All (IsRowAt shards) (map (merged_place (map (λ shard. map (λ l. l.items) shard.items) local_maps.now) which) order.now)
        → IfOk result (λ given. AreNoted is_same_row (rows_in shards (map (merged_place (map (λ shard. map (λ l. l.items) shard.items) local_maps.now) which) order.now)) given.items (rows_in shards places.old.items) (rows_in shards places.new.items)) }
    ensures named { (shards : List (List ShardRow)) → AreShards shards → AreNamed shards (map (λ l. l.items) numbers.old.items) places.old.items
        → All (IsRowAt shards) (map (merged_place (map (λ shard. map (λ l. l.items) shard.items) local_maps.now) which) order.now)
        → AreNamed shards (map (λ l. l.items) numbers.new.items) places.new.items }
    ensures many { vec_len numbers.new ≡ vec_len numbers.old }
{
    let mut given = Vec::with_capacity(alloc, order.len())?;
    for place in order {
        let now = remapped_place(local_maps, which, *place);
        given.push(assign(numbers, places, now)?)?;
    }
    Ok(given)
}

/// Where the row at a place of one of the others is now.
fn remapped_place(local_maps: &[LocalMaps], which: usize, place: Place) -> Place
    ensures { result ≡ merged_place (map (λ shard. map (λ l. l.items) shard.items) local_maps.now) which place }
{
    let local = match local_maps.get(place.shard as usize) {
        Some(others) => number_at(list_at(others, which), place.local),
        None => 0,
    };
    Place {
        shard: place.shard,
        local,
    }
}
