ghost use Rattle.std.specs.Prelude.{◌≡◌, ◌<◌, ◌≤◌, ◌++◌, [], ℕ, IfOk, IsTrue, OnOk, Some, map, vec_len};
ghost use Rattle.std.specs.List.{Contains};
ghost use Rattle.ga_tallies.specs.Steps.Adding.{AddsOne, HoldTheSame, KeepsAll};
ghost use Rattle.ga_tallies.specs.Steps.Absorbing.{AddsSuch, IsBrought, remapped_seen};
ghost use Rattle.ga_tallies.specs.Tallies.{lists_in, pair_of, pairs_in, row_pairs};

use crate::place_table::{make_places, put_at};
use crate::remapped_tally::RemappedTally;
use crate::visiting::add_in_parts;
use crate::weighing::weights_of;
use ga_base::NoMemory;
use smallvec::SmallVec;
use std::alloc::Global;
use std::marker::Model;
use std::thread::Threads;

/// A key and a visitor of it, by their numbers in a tally.
#[derive(Clone, Copy, Debug, PartialEq, Eq, PartialOrd, Ord)]
pub struct Pair {
    /// The key's number.
    pub key: u32,
    /// The visitor's number.
    pub visitor: u32,
}

/// This many visitors are in a row itself, and more of them in memory of their own.
const IN_PLACE: usize = 4;

/// The visitors of a key, by their numbers. One may stand there more than once. Most keys have few visitors, for which a row
/// takes no memory of its own.
pub type VisitorRow = SmallVec<u32, IN_PLACE>;

/// From this many visitors on a row is looked over for those that stand there twice, each time before it grows.
const FEW_VISITORS: usize = 64;

/// This many places there are for pairs that came lately, once the first came.
const PLACES: usize = 1 << PLACE_BITS;

/// The bits of a place's number.
const PLACE_BITS: u32 = 13;

/// An odd number with no pattern in its bits, by which the numbers of a pair are spread over the places.
const SPREAD: u64 = 0x9e37_79b9_7f4a_7c15;

/// Pairs that are read as a set. Contracts see the list of them, in which one may stand more than once.
#[derive(Drop)]
pub(crate) struct PairList {
    /// The visitors of each key, at its number. Keys after the last row have none.
    rows: Vec<VisitorRow>,
    /// Pairs that came lately, all of which are in their rows: none before the first came, and then `PLACES` places. What
    /// is there isn't added again.
    recent: Vec<Option<Pair>>,
}

impl Model for PairList {
    ghost use Rattle.std.specs.Prelude.{ℕ, List};
    ghost use Rattle.ga_tallies.specs.Steps.Adding.{AreThere};
    ghost use Rattle.ga_tallies.specs.Tallies.{lists_in, pairs_in};

    ghost Value = { List (ℕ × ℕ) };

    ghost view = { λ l. pairs_in (lists_in l.rows.items) };

    ghost invariant = { λ l. AreThere (pairs_in (lists_in l.rows.items)) l.recent.items };
}

impl PairList {
    /// No pairs, which take no memory.
    pub(crate) fn new(alloc: Global) -> PairList
        ensures { result ≡ [] }
    {
        PairList {
            rows: Vec::new(alloc),
            recent: Vec::new(alloc),
        }
    }

    /// Adds a pair. One that surely isn't there isn't looked for among those that came lately.
    pub(crate) fn add(&mut self, pair: Pair, is_new: bool) -> Result<(), NoMemory>
        ensures { OnOk result (AddsOne (pair_of pair) self.old self.new) }
    {
        if !is_new && self.is_recent(pair) {
            return Ok(());
        }
        self.put(pair)
    }

    /// Whether a pair is among those that came lately.
    fn is_recent(&self, pair: Pair) -> bool
        ensures { IsTrue result → Contains self.now (pair_of pair) }
    {
        let place = place_of(pair);
        place < self.recent.len() && is_at(&self.recent[place], pair)
    }

    /// Puts a pair into the row of its key.
    fn put(&mut self, pair: Pair) -> Result<(), NoMemory>
        ensures { OnOk result (AddsOne (pair_of pair) self.old self.new) }
    {
        make_places(&mut self.recent, PLACES)?;
        put_pair(&mut self.rows, pair)?;
        put_at(&mut self.recent, place_of(pair), pair);
        Ok(())
    }

    /// The same pairs, with a row for each of this many keys.
    pub(crate) fn with_rows(self, keys: usize) -> Result<PairList, NoMemory>
        ensures { IfOk result (HoldTheSame self) }
    {
        let mut rows = self.rows;
        let alloc = *rows.allocator();
        make_rows(&mut rows, keys)?;
        Ok(PairList {
            rows,
            recent: Vec::new(alloc),
        })
    }

    /// These pairs and those that another brings, which are added to the rows of keys in parts, side by side. There are `keys`
    /// keys. None is among those that came lately then.
    pub(crate) fn with<R: Threads + Sync>(
        self,
        rt: &R,
        keys: usize,
        remapped: &RemappedTally,
    ) -> Result<PairList, NoMemory>
        requires { (pair : ℕ × ℕ) → IsBrought (remapped_seen remapped.now) pair → pair.0 < keys }
        ensures { IfOk result (AddsSuch (IsBrought (remapped_seen remapped.now)) self) }
    {
        let mut rows = self.rows;
        let alloc = *rows.allocator();
        make_rows(&mut rows, keys)?;
        let weights = weights_of(remapped)?;
        add_in_parts(rt, remapped, &weights, &mut rows)?;
        Ok(PairList {
            rows,
            recent: Vec::new(alloc),
        })
    }

    /// Gives the visitors of each key back, at its number.
    pub(crate) fn into_rows(self) -> Vec<VisitorRow>
        ensures { pairs_in (lists_in result.items) ≡ self }
    {
        self.rows
    }
}

/// Puts a pair into the row of its key.
fn put_pair(rows: &mut Vec<VisitorRow>, pair: Pair) -> Result<(), NoMemory>
    ensures kept { KeepsAll (pairs_in (lists_in rows.old.items)) (pairs_in (lists_in rows.new.items)) }
    ensures added { OnOk result (AddsOne (pair_of pair) (pairs_in (lists_in rows.old.items)) (pairs_in (lists_in rows.new.items))) }
{
    let key = pair.key as usize;
    make_rows(rows, key + 1)?;
    add_visitor(&mut rows[key], pair.visitor)
}

/// Makes rows with nothing in them, until there are this many.
fn make_rows(rows: &mut Vec<VisitorRow>, many: usize) -> Result<(), NoMemory>
    ensures there { OnOk result (many ≤ vec_len rows.new) }
    ensures same { HoldTheSame (pairs_in (lists_in rows.old.items)) (pairs_in (lists_in rows.new.items)) }
{
    let alloc = *rows.allocator();
    while rows.len() < many {
        rows.push(VisitorRow::new(alloc))?;
    }
    Ok(())
}

/// Adds a visitor to a row.
fn add_visitor(row: &mut VisitorRow, visitor: u32) -> Result<(), NoMemory>
    ensures kept { KeepsAll row.old.items row.new.items }
    ensures added { OnOk result (AddsOne visitor row.old.items row.new.items) }
{
    make_room(row)?;
    push_visitor(row, visitor)
}

/// Puts a visitor after a row.
fn push_visitor(row: &mut VisitorRow, visitor: u32) -> Result<(), NoMemory>
    ensures kept { KeepsAll row.old.items row.new.items }
    ensures added { OnOk result (AddsOne visitor row.old.items row.new.items) }
{
    Ok(row.push(visitor)?)
}

/// Makes room in a row that is full: drops the visitors that stand there again, and grows the row where that leaves more than
/// half of it taken.
fn make_room(row: &mut VisitorRow) -> Result<(), NoMemory>
    ensures { HoldTheSame row.old.items row.new.items }
{
    if row.len() < row.capacity() {
        return Ok(());
    }
    thin_out(row);
    Ok(row.reserve(row.len())?)
}

/// Drops the visitors that stand there again, where there are more than few.
fn thin_out(row: &mut VisitorRow)
    ensures { HoldTheSame row.old.items row.new.items }
{
    if row.len() >= FEW_VISITORS {
        row.sort_unstable();
        row.dedup();
    }
}

/// The pairs of rows of visitors, each of which is at its key's number.
pub fn pairs_of(alloc: Global, rows: &[VisitorRow]) -> Result<Vec<Pair>, NoMemory>
    ensures { IfOk result (λ pairs. map pair_of pairs.items ≡ pairs_in (lists_in rows.now)) }
{
    let mut pairs = Vec::new(alloc);
    for (key, row) in rows.iter().enumerate() {
        // More rows than numbers of 32 bits take more memory than there is.
        let Ok(key) = u32::try_from(key) else {
            return Err(NoMemory);
        };
        push_row(&mut pairs, key, row)?;
    }
    Ok(pairs)
}

/// Puts the pairs of a key's row after the others.
fn push_row(pairs: &mut Vec<Pair>, key: u32, row: &[u32]) -> Result<(), NoMemory>
    ensures { OnOk result (map pair_of pairs.new.items ≡ map pair_of pairs.old.items ++ row_pairs key row.now) }
{
    pairs.reserve(row.len())?;
    for visitor in row {
        pairs.push(Pair {
            key,
            visitor: *visitor,
        })?;
    }
    Ok(())
}

/// Whether this pair is at a place.
fn is_at(place: &Option<Pair>, pair: Pair) -> bool
    ensures { IsTrue result → place.now ≡ Some pair }
{
    match place {
        Some(known) => *known == pair,
        None => false,
    }
}

/// The place of a pair.
fn place_of(pair: Pair) -> usize {
    (word_of(pair).wrapping_mul(SPREAD) >> (u64::BITS - PLACE_BITS)) as usize
}

/// Both numbers of a pair as one word, which costs less to spread.
fn word_of(pair: Pair) -> u64 {
    u64::from(pair.key) << 32 | u64::from(pair.visitor)
}
