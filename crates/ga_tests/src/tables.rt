//! Tables that threads share, and numbers of items.

ghost use Rattle.std.specs.Prelude.{◌≡◌, ◌+◌, ◌*◌, ◌<◌, ◌≤◌, ◌-◌, ◌^◌, ℕ, [], length, slice_index_or, sum_by};
ghost use Rattle.ga_base.specs.declared.counts.TheConstants.{LIMIT};
ghost use Rattle.ga_counts.specs.Counts.{tally_at};

use ga_base::{NoMemory, Noted, Steps};
use ga_counts::{CountClosed, CountSeat, CountTable};
use ga_pairs::{Insert, PairClosed, PairSeat, PairSet};
use ga_pool::{DrawSeat, Draws};
use ga_shards::{Dictionary, Numbering, number};
use std::alloc::Global;
use std::sync::ledger::Ledger;
use std::thread::Threads;

/// A table of sums and maxima.
pub fn open_counts(
    alloc: Global,
    words: u32,
    maxima: u32,
    shares: u32,
    allowance: u64,
) -> Result<(CountTable, CountSeat), NoMemory>
    requires some { 1 ≤ shares }
    requires limit { allowance ≤ 3 * LIMIT }
{
    CountTable::open(alloc, words, maxima, shares, allowance)
}

/// Adds to a sum.
pub fn add(counts: &CountTable, seat: &mut CountSeat, word: u32, n: u64)
    requires table { seat.old.table ≡ counts.now.table }
    requires word { word < counts.now.opening.words }
    requires allowance { tally_at word seat.old.view + n ≤ seat.old.view.allowance }
{
    counts.add(seat, word, n)
}

/// Raises a maximum.
pub fn raise(counts: &CountTable, seat: &mut CountSeat, place: u32, n: u64)
    requires table { seat.old.table ≡ counts.now.table }
    requires place { place < counts.now.opening.maxima }
{
    counts.raise(seat, place, n)
}

/// A seat of a part of the shares.
pub fn split_counts(
    counts: &CountTable,
    seat: &mut CountSeat,
    share: u32,
    allowance: u64,
) -> CountSeat
    requires table { seat.old.table ≡ counts.now.table }
    requires some { 1 ≤ share }
    requires share { share < seat.old.view.share }
    requires allowance { (word : ℕ) → tally_at word seat.old.view + allowance ≤ seat.old.view.allowance }
{
    counts.split(seat, share, allowance)
}

/// A seat with another's shares.
pub fn join_counts(counts: &CountTable, seat: &mut CountSeat, other: CountSeat)
    requires table { seat.old.table ≡ counts.now.table }
    requires other { other.table ≡ counts.now.table }
{
    counts.join(seat, other)
}

/// The table, closed.
pub fn close_counts(counts: CountTable, seat: CountSeat) -> CountClosed
    requires table { seat.table ≡ counts.table }
    requires whole { seat.view.share ≡ counts.opening.shares }
{
    counts.close(seat)
}

/// A sum of it.
pub fn sum(closed: &CountClosed, word: u32) -> u64
    requires { word < length closed.now.sums }
{
    closed.sum(word)
}

/// A maximum of it.
pub fn maximum(closed: &CountClosed, place: u32) -> u64
    requires { place < length closed.now.maxima }
{
    closed.maximum(place)
}

/// A set of pairs.
pub fn open_pairs(
    alloc: Global,
    cells: u32,
    allowance: u32,
    shares: u32,
) -> Result<(PairSet, PairSeat), NoMemory>
    requires room { allowance < cells }
    requires some { 1 ≤ shares }
{
    PairSet::open(alloc, cells, allowance, shares)
}

/// Claims a pair.
pub fn insert<L: Ledger>(
    pairs: &PairSet,
    seat: &mut PairSeat,
    key: u32,
    visitor: u32,
    steps: &mut Steps<L>,
) -> Insert
    requires table { seat.old.table ≡ pairs.now.table }
    requires allowance { 1 ≤ seat.old.claims.allowance }
    requires key { key < 2 ^ 32 - 1 }
    requires visitor { visitor < 2 ^ 32 - 1 }
{
    pairs.insert(seat, key, visitor, steps)
}

/// Whether a pair was claimed by this seat, and not by another before.
pub fn is_won(insert: Insert) -> bool {
    match insert {
        Insert::Won => true,
        Insert::Present => false,
    }
}

/// A seat of a part of the shares.
pub fn split_pairs(pairs: &PairSet, seat: &mut PairSeat, share: u32, allowance: u32) -> PairSeat
    requires table { seat.old.table ≡ pairs.now.table }
    requires some { 1 ≤ share }
    requires share { share < seat.old.claims.share }
    requires allowance { allowance ≤ seat.old.claims.allowance }
{
    pairs.split(seat, share, allowance)
}

/// A seat with another's shares.
pub fn join_pairs(pairs: &PairSet, seat: &mut PairSeat, other: PairSeat)
    requires table { seat.old.table ≡ pairs.now.table }
    requires other { other.table ≡ pairs.now.table }
{
    pairs.join(seat, other)
}

/// The set, closed.
pub fn close_pairs(pairs: PairSet, seat: PairSeat) -> PairClosed
    requires table { seat.table ≡ pairs.table }
    requires whole { seat.claims.share ≡ pairs.opening.shares }
{
    pairs.close(seat)
}

/// The number of its pairs, and of its cells.
pub fn sizes(closed: &PairClosed) -> (u64, u32) {
    (closed.len(), closed.cells())
}

/// The word of a cell.
pub fn word(closed: &PairClosed, at: u32) -> u64
    requires { at < length closed.now }
{
    closed.word(at)
}

/// Draws of pieces.
pub fn open_draws(alloc: Global, shares: u32, allowance: u64) -> Result<(Draws, DrawSeat), NoMemory>
    requires { 1 ≤ shares }
{
    Draws::open(alloc, shares, allowance)
}

/// Draws a piece.
pub fn draw(draws: &Draws, seat: &mut DrawSeat) -> u64
    requires table { seat.old.table ≡ draws.now.table }
    requires allowance { 1 ≤ seat.old.view.allowance }
{
    draws.draw(seat)
}

/// A seat of a part of the shares.
pub fn split_draws(draws: &Draws, seat: &mut DrawSeat, share: u32, allowance: u64) -> DrawSeat
    requires table { seat.old.table ≡ draws.now.table }
    requires some { 1 ≤ share }
    requires share { share < seat.old.view.share }
    requires allowance { allowance ≤ seat.old.view.allowance }
{
    draws.split(seat, share, allowance)
}

/// A seat with another's shares.
pub fn join_draws(draws: &Draws, seat: &mut DrawSeat, other: DrawSeat)
    requires table { seat.old.table ≡ draws.now.table }
    requires other { other.table ≡ draws.now.table }
{
    draws.join(seat, other)
}

/// A copy of an item.
pub fn copy<T: Noted>(item: &T) -> Result<T, NoMemory> {
    item.copy()
}

/// A dictionary of no item.
pub fn dictionary<T: Noted + Drop>(alloc: Global) -> Dictionary<T> {
    Dictionary::new(alloc)
}

/// Notes an item.
pub fn note<T: Noted + Drop>(items: &mut Dictionary<T>, item: T) -> Result<u32, NoMemory>
    requires { length items.old < 2 ^ 32 - 2 }
{
    items.note(item)
}

/// The number of items.
pub fn len<T: Noted + Drop>(items: &Dictionary<T>) -> u32 {
    items.len()
}

/// The item at a place.
pub fn item<T: Noted + Drop>(items: &Dictionary<T>, local: u32) -> &T
    requires { local < length items.now }
{
    items.item(local)
}

/// Numbers the items of dictionaries.
pub fn numbering<R: Threads + Sync, T: Noted + Drop>(
    rt: &R,
    alloc: Global,
    dictionaries: &[Dictionary<T>],
    shards: u32,
) -> Result<Numbering<T>, NoMemory>
    requires some { 1 ≤ shards }
    requires fits { sum_by (λ items. length items) dictionaries.now < 2 ^ 32 - 1 }
{
    number(rt, alloc, dictionaries, shards)
}

/// The number of different items.
pub fn numbers<T: Noted + Drop>(numbers: &Numbering<T>) -> u32 {
    numbers.len()
}

/// The item of a number.
pub fn numbered<T: Noted + Drop>(numbers: &Numbering<T>, number: u32) -> &T
    requires { number < length numbers.now.items }
{
    numbers.item(number)
}

/// The number of an item of a dictionary.
pub fn number_of<T: Noted + Drop>(numbers: &Numbering<T>, dictionary: u32, local: u32) -> u32
    requires dictionary { dictionary < length numbers.now.numbers }
    requires local { local < length (slice_index_or numbers.now.numbers dictionary []) }
{
    numbers.of(dictionary, local)
}
