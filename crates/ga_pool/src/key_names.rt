ghost use Rattle.std.specs.Prelude.{◌≡◌, ◌≢◌, ◌<◌, ◌≤◌, ◌%◌, ◌++◌, [], ◌^◌, ℕ, IfOk, OnOk, Vec, length, slice_index_or, vec_len, None};
ghost use Rattle.std.specs.Option.{option_to_list};
ghost use Rattle.ga_base.specs.Orders.{name_of as visitor_name};
ghost use Rattle.ga_base.specs.declared.name.Name.{Name as TheName};
ghost use Rattle.ga_pool.specs.Steps.CountedRows.{AreWithin, key_in, name_under, names_under, visitor_in};

use ga_base::{Name, NoMemory, Visitor};
use ga_pairs::PairClosed;
use ga_shards::Numbering;
use std::alloc::Global;

/// A word has its key's number above its lowest 32 bits.
const KEYS_BEGIN: u64 = 1 << 32;

/// The names of the visitors of each key, by the keys' numbers.
pub(crate) fn names_of_keys(
    alloc: Global,
    keys: u32,
    visitors: &Numbering<Visitor>,
    pairs: &PairClosed,
) -> Result<Vec<Vec<Name>>, NoMemory>
    requires { AreWithin keys (length visitors.now.items) pairs.now }
    ensures len { IfOk result (λ names. vec_len names ≡ keys) }
    ensures each { IfOk result (λ names. (k : ℕ) (d : Vec TheName Global) → k < keys → (slice_index_or names.items k d).items ≡ names_under visitors.now.items k pairs.now) }
{
    let mut names = no_names(alloc, keys)?;
    for at in 0..pairs.cells() {
        let word = pairs.word(at);
        if word != 0 {
            add_name(&mut names, visitors, word)?;
        }
    }
    Ok(names)
}

/// An empty list for each key.
fn no_names(alloc: Global, keys: u32) -> Result<Vec<Vec<Name>>, NoMemory>
    ensures len { IfOk result (λ names. vec_len names ≡ keys) }
    ensures each { IfOk result (λ names. (k : ℕ) (d : Vec TheName Global) → k < keys → (slice_index_or names.items k d).items ≡ []) }
{
    let mut names = Vec::with_capacity(alloc, keys as usize)?;
    for _key in 0..keys {
        names.push(Vec::new(alloc))?;
    }
    Ok(names)
}

/// Adds the name of a word's visitor under the word's key.
fn add_name(
    names: &mut Vec<Vec<Name>>,
    visitors: &Numbering<Visitor>,
    word: u64,
) -> Result<(), NoMemory>
    requires word { word ≢ 0 }
    requires key { key_in word < vec_len names.old }
    requires some { 1 ≤ word % 2 ^ 32 }
    requires visitor { visitor_in word < length visitors.now.items }
    ensures len { OnOk result (vec_len names.new ≡ vec_len names.old) }
    ensures each { OnOk result ((k : ℕ) (d : Vec TheName Global) → k < vec_len names.old
        → (slice_index_or names.new.items k d).items ≡ (slice_index_or names.old.items k d).items ++ option_to_list (name_under visitors.now.items k word)) }
{
    let key = (word / KEYS_BEGIN) as usize;
    let visitor = visitors.item((word % KEYS_BEGIN) as u32 - 1);
    let name = name_of(visitor)?;
    names[key].push(name)?;
    Ok(())
}

/// A visitor's name.
fn name_of(visitor: &Visitor) -> Result<Name, NoMemory>
    ensures { IfOk result (λ name. name ≡ visitor_name visitor.now) }
{
    Ok(Name {
        host: visitor.host.clone()?,
        agent: visitor.agent.clone()?,
    })
}
