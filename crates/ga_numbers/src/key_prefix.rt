ghost use Rattle.std.specs.Prelude.{◌≡◌, All, IfOk, IsTrue, OnErr};
ghost use Rattle.std.specs.List.{IsDistinct};
ghost use Rattle.ga_numbers.specs.Steps.KeyPrefixes.{IsKeyPrefix, prefix_of, is_same_prefix};
ghost use Rattle.ga_numbers.specs.NotedNumbers.{IsNumbered};

use crate::hints::Hints;
use crate::noting::note;
use ga_base::{Key, NoMemory, Panel};
use ga_panels::KeyRef;
use ga_shards::Dictionary;
use std::alloc::Global;
use std::hash::{FoldHasher, Hasher};

/// Where the prefixes of keys may stand.
#[derive(Drop)]
pub(crate) struct PrefixHints {
    /// The number of the prefix that came last in each panel: in most panels there is one alone.
    last: [u32; Panel::COUNT],
    /// The numbers of those that came lately.
    lately: Hints,
}

impl PrefixHints {
    /// No hints, which take no memory.
    pub(crate) fn new(alloc: Global) -> PrefixHints {
        PrefixHints {
            last: [0; Panel::COUNT],
            lately: Hints::new(alloc),
        }
    }
}

/// Notes the prefix of a key, and gives its number. Where the prefix came last in its panel nothing is looked up. After an
/// `Err` the prefixes are as they were.
pub(crate) fn prefix_number(
    alloc: Global,
    prefixes: &mut Dictionary<Key>,
    hints: &mut PrefixHints,
    key: &KeyRef<'_>,
) -> Result<u32, NoMemory>
    ensures ok { IfOk result (λ number. IsNumbered is_same_prefix (prefix_of key.now) number prefixes.old prefixes.new) }
    ensures distinct { IsDistinct is_same_prefix prefixes.old → IsDistinct is_same_prefix prefixes.new }
    ensures plain { All IsKeyPrefix prefixes.old → All IsKeyPrefix prefixes.new }
    ensures err { OnErr result (prefixes.new ≡ prefixes.old) }
{
    let panel = key.panel.number();
    let last = hints.last[panel];
    if is_prefix_at(prefixes, last, key) {
        return Ok(last);
    }
    let number = prefix_among(alloc, prefixes, &mut hints.lately, key)?;
    hints.last[panel] = number;
    Ok(number)
}

/// The same, for a prefix that didn't come last. Where the prefix is at its hint it has been noted, and none is made.
fn prefix_among(
    alloc: Global,
    prefixes: &mut Dictionary<Key>,
    hints: &mut Hints,
    key: &KeyRef<'_>,
) -> Result<u32, NoMemory>
    ensures ok { IfOk result (λ number. IsNumbered is_same_prefix (prefix_of key.now) number prefixes.old prefixes.new) }
    ensures distinct { IsDistinct is_same_prefix prefixes.old → IsDistinct is_same_prefix prefixes.new }
    ensures plain { All IsKeyPrefix prefixes.old → All IsKeyPrefix prefixes.new }
    ensures err { OnErr result (prefixes.new ≡ prefixes.old) }
{
    let hash = prefix_hint(key);
    match hints.get(hash) {
        Some(hint) if is_prefix_at(prefixes, hint, key) => return Ok(hint),
        _ => {}
    }
    hints.make_room()?;
    let number = note(prefixes, prefix_from(alloc, key)?)?;
    hints.set(hash, number);
    Ok(number)
}

/// Whether the prefix of a key is at this number.
fn is_prefix_at(prefixes: &Dictionary<Key>, number: u32, key: &KeyRef<'_>) -> bool
    ensures { IsTrue result → IsNumbered is_same_prefix (prefix_of key.now) number prefixes.now prefixes.now }
{
    number < prefixes.len() && is_prefix(prefixes.item(number), key)
}

/// The prefix of a key.
fn prefix_from(alloc: Global, key: &KeyRef<'_>) -> Result<Key, NoMemory>
    ensures { IfOk result (λ prefix. prefix ≡ prefix_of key.now) }
{
    let prefix = KeyRef {
        date: 0,
        label: "",
        ..*key
    };
    prefix.to_key(alloc)
}

/// Whether this is the prefix of a key.
fn is_prefix(prefix: &Key, key: &KeyRef<'_>) -> bool
    ensures { IsTrue result → prefix.now ≡ prefix_of key.now }
{
    prefix.panel == key.panel
        && prefix.date == 0
        && prefix.label.as_str() == ""
        && prefix.parent.as_str() == key.parent
        && prefix.method.as_str() == key.method
        && prefix.protocol.as_str() == key.protocol
}

/// A cheap hash of a key's prefix, for a hint.
fn prefix_hint(key: &KeyRef<'_>) -> u64 {
    let mut hasher = FoldHasher::default();
    hasher.write_usize(key.panel.number());
    feed(&mut hasher, key.parent);
    feed(&mut hasher, key.method);
    feed(&mut hasher, key.protocol);
    hasher.finish()
}

/// Feeds a text to a hint's hash. Most texts of a prefix are empty, and cost nothing.
fn feed(hasher: &mut FoldHasher, text: &str) {
    if !text.is_empty() {
        hasher.write(text.as_bytes());
    }
}
