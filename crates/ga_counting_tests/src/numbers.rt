ghost use Rattle.std.specs.Prelude.{◌≡◌, ◌≤◌, Bool, IfOk, length};
ghost use Rattle.ga_base.specs.declared.key.Key.{Key as TheKey};
ghost use Rattle.ga_shards.specs.Numbers.{IsNumbering};

use ga_base::{Key, NoMemory, Panel, Text, Visitor};
use ga_shards::{Dictionary, Numbering, number};
use std::alloc::Global;
use std::test::Fail;
use std::thread::Threads;

/// A visitor from a host.
pub fn visitor(alloc: Global, host: &str) -> Result<Visitor, NoMemory> {
    let host = Text::of(alloc, host)?;
    Ok(Visitor {
        host,
        date: 20_261_128,
        agent: Text::new(),
    })
}

/// The key of a host.
fn key(alloc: Global, host: &str) -> Result<Key, NoMemory> {
    let label = Text::of(alloc, host)?;
    Ok(Key {
        panel: Panel::Hosts,
        date: 20_261_128,
        parent: Text::new(),
        label,
        method: Text::new(),
        protocol: Text::new(),
    })
}

/// The keys of two hosts.
fn two_keys(alloc: Global, first: &str, second: &str) -> Result<Dictionary<Key>, Fail>
    ensures { IfOk result (λ keys. length keys ≡ 2) }
{
    let mut keys = Dictionary::new(alloc);
    keys.note(key(alloc, first)?)?;
    keys.note(key(alloc, second)?)?;
    if keys.len() != 2 {
        return Err(Fail::new("not two keys"));
    }
    Ok(keys)
}

/// The number of this list's key at this place, and the host of that number's key.
fn host_at<'n>(
    lists: &[Dictionary<Key>],
    numbers: &'n Numbering<Key>,
    list: u32,
    place: u32,
) -> Option<(u32, &'n str)>
    requires { (eq : TheKey → TheKey → Bool) × IsNumbering eq lists.now numbers.now }
{
    if place >= lists.get(list as usize)?.len() {
        return None;
    }
    let number = numbers.of(list, place);
    Some((number, numbers.item(number).label.as_str()))
}

/// Whether two lists that share one of their two keys have three numbers by this many shards, that key the same in both.
fn are_numbered<R: Threads + Sync>(rt: &R, alloc: Global, shards: u32) -> Result<bool, Fail>
    requires { 1 ≤ shards }
{
    let lists = [two_keys(alloc, "a", "b")?, two_keys(alloc, "b", "c")?];
    let numbers = number(rt, alloc, &lists, shards)?;
    let (first, shared) = (
        host_at(&lists, &numbers, 0, 0),
        host_at(&lists, &numbers, 0, 1),
    );
    let (again, last) = (
        host_at(&lists, &numbers, 1, 0),
        host_at(&lists, &numbers, 1, 1),
    );
    Ok(
        numbers.len() == 3
            && shared == again
            && [first, shared, last].map(|at| at.map_or("", |(_number, host)| host))
                == ["a", "b", "c"],
    )
}

#[test]
fn equal_keys_have_one_number(rt: HostRuntime) -> Result<(), Fail> {
    for shards in [1, 4] {
        assert!(rt; are_numbered(&rt, rt.alloc(), shards)?, "{shards}");
    }
    Ok(())
}
