ghost use Rattle.std.specs.Prelude.{◌≡◌, ◌<◌, [], ℕ, List, Ok, IfOk, All, map, slice_index_or, vec_len};
ghost use Rattle.std.specs.List.{AllZip, flat_map};
ghost use Rattle.std.specs.Global.{Vec as TheVec};
ghost use Rattle.ga_numbers.specs.Steps.Kept.{MergesShards, shards_at};
ghost use Rattle.ga_numbers.specs.Steps.ShardMerges.{MergesShard, with_others};
ghost use Rattle.ga_numbers.specs.NotedNumbers.{AreNoted};
ghost use Rattle.ga_numbers.specs.Steps.ShardRows.{is_same_row, remapped_by};

use crate::lists::{list_at, number_at};
use crate::noting::note;
use crate::shard_row::ShardRow;
use ga_base::NoMemory;
use ga_shards::Dictionary;
use std::alloc::Global;
use std::mem;
use std::thread::{self, Threads};

/// A shard, and those of others that are merged into it.
#[derive(Drop)]
struct ShardMerge {
    /// The shard.
    known: Dictionary<ShardRow>,
    /// That of each of the others, in their order.
    more: Vec<Dictionary<ShardRow>>,
}

/// Where the rows of others are in a shard: for each of them a map from its places to those of the shard.
pub(crate) type LocalMaps = Vec<Vec<u32>>;

/// A shard into which others were merged.
#[derive(Drop)]
pub(crate) struct MergedShard {
    /// The shard.
    known: Dictionary<ShardRow>,
    /// Where the rows of the others are in it.
    local_maps: LocalMaps,
}

/// This many shards are put together by one thread.
const GROUP: usize = 8;

/// Notes the rows of the shards of others, whose prefixes have these numbers here, other by other, each in the shard at its
/// place, and tells where each stands. The shards are noted in groups, side by side.
pub(crate) fn merge_shards<R: Threads + Sync>(
    rt: &R,
    alloc: Global,
    shards: Vec<Dictionary<ShardRow>>,
    others: Vec<Vec<Dictionary<ShardRow>>>,
    prefixes: &[Vec<u32>],
) -> Result<(Vec<Dictionary<ShardRow>>, Vec<LocalMaps>), NoMemory>
    requires { All (λ other. vec_len other ≡ vec_len shards) others.items }
    ensures { IfOk result (λ merged. MergesShards (map (λ l. l.items) prefixes.now) shards.items (map (λ o. o.items) others.items) merged.0.items (map (λ shard. map (λ l. l.items) shard.items) merged.1.items)) }
{
    let groups = groups_of(alloc, shard_merges(alloc, shards, others)?)?;
    let work = move |group: Vec<ShardMerge>| -> Result<Vec<MergedShard>, NoMemory>
        ensures { IfOk result (λ merged. AllZip (MergesShard (map (λ l. l.items) prefixes.entry.now)) group.items merged.items) }
    { merge_group(alloc, group, prefixes) };
    shards_and_maps(
        alloc,
        all_shards(alloc, thread::map_vec(rt, groups, &work)?)?,
    )
}

/// The merges in groups, in their order.
fn groups_of(alloc: Global, merges: Vec<ShardMerge>) -> Result<Vec<Vec<ShardMerge>>, NoMemory>
    ensures { IfOk result (λ groups. flat_map (λ group. group.items) groups.items ≡ merges.items) }
{
    let mut groups = Vec::new(alloc);
    let mut rest = merges;
    while rest.len() > GROUP {
        let more = rest.split_off(GROUP)?;
        groups.push(mem::replace(&mut rest, more))?;
    }
    groups.push(rest)?;
    Ok(groups)
}

/// The merged shards of a group, one after the other.
fn merge_group(
    alloc: Global,
    group: Vec<ShardMerge>,
    prefixes: &[Vec<u32>],
) -> Result<Vec<MergedShard>, NoMemory>
    ensures { IfOk result (λ merged. AllZip (MergesShard (map (λ l. l.items) prefixes.now)) group.items merged.items) }
{
    let mut all = Vec::with_capacity(alloc, group.len())?;
    for merge in group {
        all.push(merge_shard(alloc, merge, prefixes)?)?;
    }
    Ok(all)
}

/// A merge for each shard, with those of the others at its place.
fn shard_merges(
    alloc: Global,
    shards: Vec<Dictionary<ShardRow>>,
    others: Vec<Vec<Dictionary<ShardRow>>>,
) -> Result<Vec<ShardMerge>, NoMemory>
    requires { All (λ other. vec_len other ≡ vec_len shards) others.items }
    ensures known { IfOk result (λ merges. map (λ m. m.known) merges.items ≡ shards.items) }
    ensures more { IfOk result (λ merges. (s : ℕ) → s < vec_len shards
        → slice_index_or (map (λ m. m.more.items) merges.items) s [] ≡ shards_at s (map (λ o. o.items) others.items)) }
{
    let mut merges = lone_shards(alloc, shards)?;
    for other in others {
        merges = with_other(alloc, merges, other)?;
    }
    Ok(merges)
}

/// Shards with which no other is merged yet.
fn lone_shards(
    alloc: Global,
    shards: Vec<Dictionary<ShardRow>>,
) -> Result<Vec<ShardMerge>, NoMemory>
    ensures known { IfOk result (λ merges. map (λ m. m.known) merges.items ≡ shards.items) }
    ensures more { IfOk result (λ merges. (s : ℕ) → slice_index_or (map (λ m. m.more.items) merges.items) s [] ≡ []) }
{
    let mut merges = Vec::with_capacity(alloc, shards.len())?;
    for known in shards {
        merges.push(ShardMerge {
            known,
            more: Vec::new(alloc),
        })?;
    }
    Ok(merges)
}

/// Merges with one other more, each with its shard at that place.
fn with_other(
    alloc: Global,
    merges: Vec<ShardMerge>,
    other: Vec<Dictionary<ShardRow>>,
) -> Result<Vec<ShardMerge>, NoMemory>
    requires { vec_len merges ≡ vec_len other }
    ensures known { IfOk result (λ all. map (λ m. m.known) all.items ≡ map (λ m. m.known) merges.items) }
    ensures more { IfOk result (λ all. map (λ m. m.more.items) all.items ≡ with_others (map (λ m. m.more.items) merges.items) other.items) }
{
    let mut all = Vec::with_capacity(alloc, merges.len())?;
    let mut shards = other.into_iter();
    for merge in merges {
        let Some(shard) = shards.next() else {
            unreachable!()
        };
        let ShardMerge { known, mut more } = merge;
        more.push(shard)?;
        all.push(ShardMerge { known, more })?;
    }
    Ok(all)
}

/// One merged shard.
fn merge_shard(
    alloc: Global,
    merge: ShardMerge,
    prefixes: &[Vec<u32>],
) -> Result<MergedShard, NoMemory>
    ensures { IfOk result (MergesShard (map (λ l. l.items) prefixes.now) merge) }
{
    let ShardMerge { mut known, more } = merge;
    let mut local_maps = Vec::with_capacity(alloc, more.len())?;
    for rows in more {
        let own = list_at(prefixes, local_maps.len());
        local_maps.push(note_rows(alloc, &mut known, rows.into_items(alloc)?, own)?)?;
    }
    Ok(MergedShard { known, local_maps })
}

/// The shards of all groups, where none of the results is lack of memory.
fn all_shards(
    alloc: Global,
    results: Vec<Result<Vec<MergedShard>, NoMemory>>,
) -> Result<Vec<MergedShard>, NoMemory>
    ensures { IfOk result (λ all. (parts : List (TheVec MergedShard)) × (results.items ≡ map Ok parts) × (all.items ≡ flat_map (λ part. part.items) parts)) }
{
    let mut all = Vec::new(alloc);
    for result in results {
        all.append(&mut result?)?;
    }
    Ok(all)
}

/// The shards, and where the rows of the others are in each.
fn shards_and_maps(
    alloc: Global,
    all: Vec<MergedShard>,
) -> Result<(Vec<Dictionary<ShardRow>>, Vec<LocalMaps>), NoMemory>
    ensures shards { IfOk result (λ parts. parts.0.items ≡ map (λ merged. merged.known) all.items) }
    ensures local_maps { IfOk result (λ parts. map (λ shard. map (λ l. l.items) shard.items) parts.1.items ≡ map (λ merged. map (λ l. l.items) merged.local_maps.items) all.items) }
{
    let mut shards = Vec::with_capacity(alloc, all.len())?;
    let mut local_maps = Vec::with_capacity(alloc, all.len())?;
    for merged in all {
        shards.push(merged.known)?;
        local_maps.push(merged.local_maps)?;
    }
    Ok((shards, local_maps))
}

/// Notes rows whose prefixes have these numbers here, and gives the place of each.
fn note_rows(
    alloc: Global,
    known: &mut Dictionary<ShardRow>,
    rows: Vec<ShardRow>,
    prefixes: &[u32],
) -> Result<Vec<u32>, NoMemory>
    ensures { IfOk result (λ local_maps. AreNoted is_same_row (map (remapped_by prefixes.now) rows.items) local_maps.items known.old known.new) }
{
    let mut local_maps = Vec::with_capacity(alloc, rows.len())?;
    for row in rows {
        local_maps.push(note(known, remap_row(row, prefixes))?)?;
    }
    Ok(local_maps)
}

/// A row whose prefix has a number here. A row that none counts may have a prefix that has none.
fn remap_row(row: ShardRow, prefixes: &[u32]) -> ShardRow
    ensures { result ≡ remapped_by prefixes.now row }
{
    ShardRow {
        prefix: number_at(prefixes, row.prefix),
        date: row.date,
        text: row.text,
    }
}
