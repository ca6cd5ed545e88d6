ghost use Rattle.std.specs.Prelude.{◌≡◌, ◌↔◌, ◌<◌, ◌+◌, ◌*◌, ◌^◌, IfOk, IsTrue};
ghost use Rattle.std.specs.Cmp.Rules.{comparing, hashing};
ghost use Rattle.std.proofs.Common.{rules};
ghost use Rattle.ga_numbers.specs.Steps.ShardRows.{fed_row, row_in, shard_at};
ghost use Rattle.ga_shards.specs.Keys.{text_hash};

use ga_base::{NoMemory, Noted, Text};
use std::alloc::Global;
use std::hash::{Hash, Hasher};

/// This many days have shards of their own.
const DAYS: u32 = 16;

/// This many shards the rows of a day are in.
const TEXTS: u64 = 4;

/// What the upper half of a word counts by.
const HALF_WORD: u64 = 1 << 32;

/// An odd number with no pattern in its bits, by which what stands beside a text is spread over a hash.
const SPREAD: u64 = 0x9e37_79b9_7f4a_7c15;

/// An item, but for what it shares with others.
#[derive(Debug, PartialEq, Eq, Clone, Drop)]
pub(crate) struct ShardRow {
    /// The number of what it shares.
    pub(crate) prefix: u32,
    /// The day, `10000 * year + 100 * month + day`.
    pub(crate) date: u32,
    /// The text of its own: a key's label, a visitor's host.
    pub(crate) text: Text,
}

impl Hash for ShardRow {
    ghost hash_input = { fed_row };

    ghost respects_eq = { Prim.search (hashing, rules) };

    /// Both numbers are one word, which costs a hasher less than two halves do.
    fn hash<H: Hasher>(&self, state: &mut H) {
        state.write_u64(numbers_of(self.prefix, self.date));
        self.text.hash(state);
    }
}

impl Noted for ShardRow {
    fn copy(&self) -> Result<ShardRow, NoMemory> {
        Ok(self.clone()?)
    }
}

/// A row with a text that is borrowed.
#[derive(Clone, Copy)]
pub(crate) struct ShardRowRef<'a> {
    /// The number of what it shares.
    pub(crate) prefix: u32,
    /// The day.
    pub(crate) date: u32,
    /// The text of its own.
    pub(crate) text: &'a str,
}

impl<'a> ShardRowRef<'a> {
    /// The same row with a text of its own.
    pub(crate) fn to_row(self, alloc: Global) -> Result<ShardRow, NoMemory>
        ensures { IfOk result (λ row. row ≡ row_in self.entry) }
    {
        Ok(ShardRow {
            prefix: self.prefix,
            date: self.date,
            text: Text::of(alloc, self.text)?,
        })
    }

    /// Whether a row is this one.
    pub(crate) fn is(&self, row: &ShardRow) -> bool
        ensures { IsTrue result ↔ (row.now ≡ row_in self.now) }
    {
        row.prefix == self.prefix && row.date == self.date && row.text.as_str() == self.text
    }

    /// A cheap hash of the row, for a hint, where its text has this hash.
    pub(crate) fn hint(&self, text: u64) -> u64 {
        text ^ numbers_of(self.prefix, self.date).wrapping_mul(SPREAD)
    }

    /// In which shard the row is, where its text has this hash: one of the four of its day, by its text. Lines of a log come day
    /// by day, so while one lasts the shards that it needs are small and near the processor. The four stand far apart, so that
    /// where shards are put together in groups, rows of a single day are in four of these. Who makes texts that collide under the
    /// cheap hash fills one shard, and its map is keyed.
    pub(crate) fn shard(&self, text: u64) -> u32
        requires { text ≡ text_hash self.now.text.now }
        ensures value { result ≡ shard_at (row_in self.now) }
        ensures within { result < 64 }
    {
        (text % TEXTS) as u32 * DAYS + self.date % DAYS
    }
}

/// A prefix and a day in one word.
fn numbers_of(prefix: u32, date: u32) -> u64
    ensures { result ≡ prefix * 2 ^ 32 + date }
{
    u64::from(prefix) * HALF_WORD + u64::from(date)
}
