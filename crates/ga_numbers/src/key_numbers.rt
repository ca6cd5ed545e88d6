ghost use Rattle.std.specs.Prelude.{◌≡◌, ◌<◌, [], Some, IfOk, OnErr, length, map, slice_get};
ghost use Rattle.std.specs.List.{IsDistinct};
ghost use Rattle.ga_base.specs.Orders.{is_same_key};
ghost use Rattle.ga_numbers.specs.Steps.KeyPrefixes.{IsKeyPrefix, is_same_prefix, keys_in};
ghost use Rattle.ga_numbers.specs.NotedNumbers.{AreNotedInTurn, IsNumbered};
ghost use Rattle.ga_numbers.specs.VisitorRefs.{key_prefixed};
ghost use Rattle.ga_numbers.specs.Steps.ShardRows.{AreMade};
ghost use Rattle.ga_numbers.specs.Steps.Three.{AllThree};
ghost use Rattle.ga_panels.specs.Refs.{key_of};

use crate::extended::Extended;
use crate::key_prefix::{PrefixHints, prefix_number};
use crate::noting::{note_all, note_each};
use crate::prefixed_key::PrefixedKey;
use crate::shard_row::ShardRowRef;
use crate::sharded_rows::ShardedRows;
use ga_base::{Key, NoMemory};
use ga_panels::KeyRef;
use ga_shards::{Dictionary, Keyed};
use std::alloc::Global;
use std::marker::Model;
use std::thread::Threads;

/// Different keys, in the order in which they were first noted. Contracts see the list of them.
#[derive(Drop)]
pub struct KeyNumbers {
    /// What keys share.
    prefixes: Dictionary<Key>,
    /// The keys but for that.
    rows: ShardedRows,
    /// Where the prefixes may stand.
    prefix_hints: PrefixHints,
    /// How the dictionaries hash.
    keyed: Keyed,
}

impl Model for KeyNumbers {
    ghost use Rattle.std.specs.Prelude.{List};
    ghost use Rattle.ga_base.specs.declared.key.Key.{Key};
    ghost use Rattle.ga_numbers.specs.Steps.KeyPrefixes.{IsKeyPrefix, is_same_prefix, keys_in};
    ghost use Rattle.ga_numbers.specs.Steps.ShardRows.{AreRowsOf};

    ghost Value = { List Key };

    ghost view = { λ k. keys_in k.prefixes k.rows };

    ghost invariant = { λ k. AreRowsOf is_same_prefix IsKeyPrefix k.prefixes k.rows };
}

impl KeyNumbers {
    /// No keys, which take no memory. They are hashed by `keyed`, on which nothing depends but the time it takes.
    pub fn new(alloc: Global, keyed: Keyed) -> KeyNumbers
        ensures { result ≡ [] }
    {
        KeyNumbers {
            prefixes: Dictionary::keyed(alloc, keyed),
            rows: ShardedRows::new(alloc, keyed),
            prefix_hints: PrefixHints::new(alloc),
            keyed,
        }
    }

    /// Whether all dictionaries are hashed by `keyed`, also those that are yet to be made. No answer depends on it: it is for
    /// tests.
    pub fn is_keyed_by(&self, keyed: &Keyed) -> bool {
        self.keyed.begins_as(keyed)
            && self.prefixes.is_keyed_by(keyed)
            && self.rows.is_keyed_by(keyed)
    }

    /// How many keys there are.
    pub fn len(&self) -> u32
        ensures value { result ≡ length self.now }
        ensures distinct { IsDistinct is_same_key self.now }
    {
        self.rows.len()
    }

    /// Notes a key, and gives its number. After an `Err` the keys are as they were.
    pub fn number(&mut self, alloc: Global, key: &KeyRef<'_>) -> Result<u32, NoMemory>
        ensures ok { IfOk result (λ number. IsNumbered is_same_key (key_of key.now) number self.old self.new) }
        ensures err { OnErr result (self.new ≡ self.old) }
    {
        let row = ShardRowRef {
            prefix: prefix_number(alloc, &mut self.prefixes, &mut self.prefix_hints, key)?,
            date: key.date,
            text: key.label,
        };
        self.rows.number(alloc, row)
    }

    /// These keys after those of others were noted among them, one list after the other. Their rows are noted side by side.
    pub fn with<R: Threads + Sync>(
        self,
        rt: &R,
        alloc: Global,
        others: Vec<KeyNumbers>,
    ) -> Result<Extended<KeyNumbers>, NoMemory>
        ensures { IfOk result (λ extended. AreNotedInTurn is_same_key others.items (map (λ l. l.items) extended.numbers.items) self extended.known) }
    {
        let KeyNumbers {
            mut prefixes,
            rows,
            prefix_hints,
            keyed,
        } = self;
        let (more_prefixes, more_rows) = prefixes_and_rows(alloc, others)?;
        let places = note_each(alloc, &mut prefixes, more_prefixes)?;
        let (rows, numbers) = rows.with(rt, alloc, more_rows, &places)?;
        let known = KeyNumbers {
            prefixes,
            rows,
            prefix_hints,
            keyed,
        };
        Ok(Extended { known, numbers })
    }

    /// Lends the key of this number.
    pub fn get(&self, number: u32) -> PrefixedKey<'_>
        requires { number < length self.now }
        ensures { slice_get self.now number ≡ Some (key_prefixed result) }
    {
        let row = self.rows.row(number);
        PrefixedKey {
            shared: self.prefixes.item(row.prefix),
            date: row.date,
            label: &row.text,
        }
    }

    /// The keys in texts of their own, in their order.
    pub fn items(&self, alloc: Global) -> Result<Vec<Key>, NoMemory>
        ensures value { IfOk result (λ keys. keys.items ≡ self.now) }
        ensures distinct { IfOk result (λ keys. IsDistinct is_same_key keys.items) }
    {
        let many = self.len();
        let mut keys = Vec::with_capacity(alloc, many as usize)?;
        for number in 0..many {
            keys.push(self.get(number).to_key()?)?;
        }
        Ok(keys)
    }

    /// A dictionary of the keys, in their order.
    pub fn into_dictionary(self, alloc: Global) -> Result<Dictionary<Key>, NoMemory>
        ensures { IfOk result (λ keys. keys ≡ self) }
    {
        let mut keys = Dictionary::keyed(alloc, self.keyed);
        note_all(alloc, &mut keys, self.items(alloc)?)?;
        Ok(keys)
    }
}

/// The prefixes of each of these, and the rows.
fn prefixes_and_rows(
    alloc: Global,
    others: Vec<KeyNumbers>,
) -> Result<(Vec<Dictionary<Key>>, Vec<ShardedRows>), NoMemory>
    ensures { IfOk result (λ parts. AllThree (AreMade is_same_prefix IsKeyPrefix keys_in) others.items parts.0.items parts.1.items) }
{
    let mut prefixes = Vec::with_capacity(alloc, others.len())?;
    let mut rows = Vec::with_capacity(alloc, others.len())?;
    for keys in others {
        prefixes.push(keys.prefixes)?;
        rows.push(keys.rows)?;
    }
    Ok((prefixes, rows))
}
