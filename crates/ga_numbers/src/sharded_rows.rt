ghost use Rattle.std.specs.Prelude.{◌≡◌, ◌<◌, [], ℕ, List, Some, All, IfOk, IsTrue, OnErr, OnOk, length, map, slice_get, slice_index_or, vec_len};
ghost use Rattle.std.specs.List.{IsDistinct};
ghost use Rattle.ga_numbers.specs.Steps.Kept.{AreKept, AreOpened, AreShards, Grows, StandsAt, rows_in};
ghost use Rattle.ga_numbers.specs.NotedNumbers.{AreNotedInTurn, IsNumbered};
ghost use Rattle.ga_numbers.specs.Steps.ShardRows.{is_same_row, remapped_each, row_in};
ghost use Rattle.ga_numbers.specs.Steps.Three.{AllThree};
ghost use Rattle.ga_numbers.specs.declared.place.Place.{Place};
ghost use Rattle.ga_shards.specs.Keys.{text_hash};

use crate::assigning::assign_each;
use crate::hints::Hints;
use crate::noting::note;
use crate::place::{Place, assign};
use crate::shard_merge::merge_shards;
use crate::shard_row::{ShardRow, ShardRowRef};
use ga_base::NoMemory;
use ga_shards::{Dictionary, Keyed, text_hash};
use std::alloc::Global;
use std::marker::Model;
use std::thread::Threads;

/// This many shards there are.
const SHARDS: usize = 64;

/// Different rows, in the order in which they were first noted. Contracts see the list of them.
///
/// A row is in a shard by its day and its text, and the place of each number says which row has it. A shard may have rows
/// that have no number, where memory ran out as they were noted.
#[derive(Drop)]
pub(crate) struct ShardedRows {
    /// The rows of each shard. There is none before the first row came.
    shards: Vec<Dictionary<ShardRow>>,
    /// For each shard the numbers of its rows.
    numbers: Vec<Vec<u32>>,
    /// Where the row of each number stands.
    places: Vec<Place>,
    /// The numbers of the rows that came lately.
    hints: Hints,
    /// How the shards hash.
    keyed: Keyed,
}

impl Model for ShardedRows {
    ghost use Rattle.std.specs.Prelude.{List, map};
    ghost use Rattle.ga_numbers.specs.Steps.Kept.{AreKept, rows_in};
    ghost use Rattle.ga_numbers.specs.declared.shard_row.ShardRow.{ShardRow};

    ghost Value = { List ShardRow };

    ghost view = { λ r. rows_in r.shards.items r.places.items };

    ghost invariant = { λ r. AreKept r.shards.items (map (λ l. l.items) r.numbers.items) r.places.items };
}

impl ShardedRows {
    /// No rows, which take no memory.
    pub(crate) fn new(alloc: Global, keyed: Keyed) -> ShardedRows
        ensures { result ≡ [] }
    {
        ShardedRows {
            shards: Vec::new(alloc),
            numbers: Vec::new(alloc),
            places: Vec::new(alloc),
            hints: Hints::new(alloc),
            keyed,
        }
    }

    /// Whether the shards are hashed by `keyed`, also those that are yet to be made.
    pub(crate) fn is_keyed_by(&self, keyed: &Keyed) -> bool {
        self.keyed.begins_as(keyed) && self.shards.iter().all(|shard| shard.is_keyed_by(keyed))
    }

    /// How many rows there are.
    pub(crate) fn len(&self) -> u32
        ensures value { result ≡ length self.now }
        ensures distinct { IsDistinct is_same_row self.now }
    {
        self.places.len() as u32
    }

    /// The row of this number.
    pub(crate) fn row(&self, number: u32) -> &ShardRow
        requires { number < length self.now }
        ensures { slice_get self.now number ≡ Some result.now }
    {
        let place = self.places[number as usize];
        self.shards[place.shard as usize].item(place.local)
    }

    /// Notes a row, and gives its number. Where the row is at its hint it has been noted, and none is made. After an `Err`
    /// the rows are as they were.
    pub(crate) fn number(&mut self, alloc: Global, row: ShardRowRef<'_>) -> Result<u32, NoMemory>
        ensures ok { IfOk result (λ number. IsNumbered is_same_row (row_in row.entry) number self.old self.new) }
        ensures err { OnErr result (self.new ≡ self.old) }
    {
        let text = text_hash(row.text.as_bytes());
        let hash = row.hint(text);
        match self.hints.get(hash) {
            Some(hint) if self.has_at(hint, &row) => return Ok(hint),
            _ => {}
        }
        self.hints.make_room()?;
        open(alloc, self.keyed, &mut self.shards, &mut self.numbers)?;
        let place = put(alloc, &mut self.shards, row, text)?;
        let number = assign(&mut self.numbers, &mut self.places, place)?;
        self.hints.set(hash, number);
        Ok(number)
    }

    /// These rows after those of others, whose prefixes have these numbers here, were noted among them, one list after the
    /// other, and the number of each. The shards are noted side by side. Where none of the others has a row no thread is
    /// started.
    pub(crate) fn with<R: Threads + Sync>(
        self,
        rt: &R,
        alloc: Global,
        others: Vec<ShardedRows>,
        prefixes: &[Vec<u32>],
    ) -> Result<(ShardedRows, Vec<Vec<u32>>), NoMemory>
        ensures { IfOk result (λ extended. AreNotedInTurn is_same_row (remapped_each (map (λ l. l.items) prefixes.now) others.items) (map (λ l. l.items) extended.1.items) self extended.0) }
    {
        if are_empty(&others) {
            return Ok((self, no_numbers(alloc, others.len())?));
        }
        let ShardedRows {
            mut shards,
            mut numbers,
            mut places,
            hints,
            keyed,
        } = self;
        open(alloc, keyed, &mut shards, &mut numbers)?;
        let (more, orders) = each_into_shards(alloc, others)?;
        let (shards, local_maps) = merge_shards(rt, alloc, shards, more, prefixes)?;
        let given = assign_each(alloc, &mut numbers, &mut places, orders, &local_maps)?;
        let rows = ShardedRows {
            shards,
            numbers,
            places,
            hints,
            keyed,
        };
        Ok((rows, given))
    }

    /// The shards, made where there is none, and where the row of each number is in them.
    fn into_shards(self, alloc: Global) -> Result<(Vec<Dictionary<ShardRow>>, Vec<Place>), NoMemory>
        ensures { IfOk result (λ parts. AreOpened self parts.0.items parts.1.items) }
    {
        let ShardedRows {
            mut shards,
            mut numbers,
            places,
            keyed,
            ..
        } = self;
        open(alloc, keyed, &mut shards, &mut numbers)?;
        Ok((shards, places))
    }

    /// Whether a row is at this number.
    fn has_at(&self, number: u32, row: &ShardRowRef<'_>) -> bool
        ensures { IsTrue result → IsNumbered is_same_row (row_in row.now) number self.now self.now }
    {
        number < self.len() && row.is(self.row(number))
    }
}

/// Whether there are no rows in any of these.
fn are_empty(others: &[ShardedRows]) -> bool
    ensures { IsTrue result → All (λ rows. rows ≡ []) others.now }
{
    for rows in others {
        if rows.len() != 0 {
            return false;
        }
    }
    true
}

/// The shards of each of these, and where its rows are in them, in their order.
fn each_into_shards(
    alloc: Global,
    others: Vec<ShardedRows>,
) -> Result<(Vec<Vec<Dictionary<ShardRow>>>, Vec<Vec<Place>>), NoMemory>
    ensures { IfOk result (λ parts. AllThree AreOpened others.items (map (λ s. s.items) parts.0.items) (map (λ o. o.items) parts.1.items)) }
{
    let mut shards = Vec::with_capacity(alloc, others.len())?;
    let mut orders = Vec::with_capacity(alloc, others.len())?;
    for rows in others {
        let (own, order) = rows.into_shards(alloc)?;
        shards.push(own)?;
        orders.push(order)?;
    }
    Ok((shards, orders))
}

/// Makes the shards, where there is none.
fn open(
    alloc: Global,
    keyed: Keyed,
    shards: &mut Vec<Dictionary<ShardRow>>,
    numbers: &mut Vec<Vec<u32>>,
) -> Result<(), NoMemory>
    requires { AreShards shards.old.items }
    ensures many { OnOk result (vec_len shards.new ≡ 64) }
    ensures kept { (places : List Place) → AreKept shards.old.items (map (λ l. l.items) numbers.old.items) places
        → AreKept shards.new.items (map (λ l. l.items) numbers.new.items) places }
    ensures same { (places : List Place) → AreKept shards.old.items (map (λ l. l.items) numbers.old.items) places
        → rows_in shards.new.items places ≡ rows_in shards.old.items places }
{
    if shards.len() == 0 {
        let vacant = vacant_shards(alloc, keyed)?;
        *numbers = no_numbers(alloc, SHARDS)?;
        *shards = vacant;
    }
    Ok(())
}

/// Shards without rows.
fn vacant_shards(alloc: Global, keyed: Keyed) -> Result<Vec<Dictionary<ShardRow>>, NoMemory>
    ensures many { IfOk result (λ shards. vec_len shards ≡ 64) }
    ensures each { IfOk result (λ shards. (s : ℕ) → slice_index_or shards.items s [] ≡ []) }
{
    let mut shards = Vec::with_capacity(alloc, SHARDS)?;
    for _ in 0..SHARDS {
        shards.push(Dictionary::keyed(alloc, keyed))?;
    }
    Ok(shards)
}

/// This many lists with no numbers.
fn no_numbers(alloc: Global, many: usize) -> Result<Vec<Vec<u32>>, NoMemory>
    ensures many { IfOk result (λ numbers. vec_len numbers ≡ many) }
    ensures none { IfOk result (λ numbers. All (λ l. l.items ≡ []) numbers.items) }
{
    let mut numbers = Vec::with_capacity(alloc, many)?;
    for _ in 0..many {
        numbers.push(Vec::new(alloc))?;
    }
    Ok(numbers)
}

/// Puts a row, whose text has this hash, into its shard, where it isn't there, and tells its place.
fn put(
    alloc: Global,
    shards: &mut Vec<Dictionary<ShardRow>>,
    row: ShardRowRef<'_>,
    text: u64,
) -> Result<Place, NoMemory>
    requires many { vec_len shards.old ≡ 64 }
    requires text { text ≡ text_hash row.text.now }
    ensures stands { IfOk result (λ place. StandsAt shards.new.items place (row_in row.entry)) }
    ensures within { IfOk result (λ place. place.shard < 64) }
    ensures shards { AreShards shards.old.items → AreShards shards.new.items }
    ensures extended { AreShards shards.old.items → Grows shards.old.items shards.new.items }
{
    let shard = row.shard(text);
    let local = note(&mut shards[shard as usize], row.to_row(alloc)?)?;
    Ok(Place { shard, local })
}
