//! By which words maps hash: no answer depends on it, so no clause says it.

use crate::numbers::visitor;
use crate::setup::setup;
use ga_base::{Entries, NoMemory, Panel, Text, Texts, Totals};
use ga_logs::{CountFault, count_logs};
use ga_numbers::{KeyNumbers, VisitorNumbers, VisitorRef};
use ga_outcomes::Setup;
use ga_panels::KeyRef;
use ga_ports::{MemFiles, NoGate};
use ga_resume::{Follow, Start};
use ga_shards::{Dictionary, Keyed};
use ga_workers::{Crew, Workers, keyed_by};
use std::alloc::Global;
use std::test::Fail;
use std::thread::Threads;

/// Words, and whether a map that hashes by 1 and 2 is told to hash by them.
const WORDS: [(u64, u64, bool); 5] = [
    (1, 2, true),
    (2, 1, false),
    (1, 1, false),
    (2, 2, false),
    (1, 0, false),
];

#[test]
fn dictionaries_hash_by_the_words_given(rt: HostRuntime) -> Result<(), Fail> {
    let alloc = rt.alloc();
    let mut visitors = Dictionary::keyed(alloc, Keyed::new(1, 2));
    visitors.note(visitor(alloc, "192.0.2.1")?)?;
    for (first, second, is_so) in WORDS {
        assert_eq!(rt; visitors.is_keyed_by(&Keyed::new(first, second)), is_so);
    }
    Ok(())
}

/// One key, hashed by these words.
fn key_hashed_by(alloc: Global, keyed: Keyed) -> Result<KeyNumbers, NoMemory> {
    let key = KeyRef {
        panel: Panel::Hosts,
        date: 20_240_101,
        parent: "",
        label: "192.0.2.1",
        method: "",
        protocol: "",
    };
    let mut keys = KeyNumbers::new(alloc, keyed);
    keys.number(alloc, &key)?;
    Ok(keys)
}

/// Whether keys hash by the words given, whether others do, and whether the first still do once they took the others in, and once
/// they are a dictionary.
fn keys_hash<R: Threads + Sync>(rt: &R, alloc: Global) -> Result<[bool; 4], NoMemory> {
    let keyed = Keyed::new(1, 2);
    let own = key_hashed_by(alloc, keyed)?;
    let other = key_hashed_by(alloc, Keyed::new(2, 1))?;
    let apart = (own.is_keyed_by(&keyed), other.is_keyed_by(&keyed));
    let both = own.with(rt, alloc, vec![in alloc; other]?)?.known;
    let together = both.is_keyed_by(&keyed);
    let dictionary = both.into_dictionary(alloc)?;
    Ok([apart.0, apart.1, together, dictionary.is_keyed_by(&keyed)])
}

/// One visitor, hashed by these words.
fn visitor_hashed_by(alloc: Global, keyed: Keyed) -> Result<VisitorNumbers, NoMemory> {
    let visitor = VisitorRef {
        host: "192.0.2.1",
        date: 20_240_101,
        agent: "curl",
    };
    let mut visitors = VisitorNumbers::new(alloc, keyed);
    visitors.number(alloc, &visitor)?;
    Ok(visitors)
}

/// The same of visitors.
fn visitors_hash<R: Threads + Sync>(rt: &R, alloc: Global) -> Result<[bool; 4], NoMemory> {
    let keyed = Keyed::new(1, 2);
    let own = visitor_hashed_by(alloc, keyed)?;
    let other = visitor_hashed_by(alloc, Keyed::new(2, 1))?;
    let apart = (own.is_keyed_by(&keyed), other.is_keyed_by(&keyed));
    let both = own.with(rt, alloc, vec![in alloc; other]?)?.known;
    let together = both.is_keyed_by(&keyed);
    let dictionary = both.into_dictionary(alloc)?;
    Ok([apart.0, apart.1, together, dictionary.is_keyed_by(&keyed)])
}

#[test]
fn numbers_hash_by_the_words_given(rt: HostRuntime) -> Result<(), Fail> {
    let so = [true, false, true, true];
    assert_eq!(rt; keys_hash(&rt, rt.alloc())?, so);
    assert_eq!(rt; visitors_hash(&rt, rt.alloc())?, so);
    Ok(())
}

/// A log with one line, and one with two.
const LOGS: [&[u8]; 2] = [
    b"192.0.2.1 - - [01/Jan/2024:00:00:00 +0000] \"GET /a HTTP/1.1\" 200 10\n",
    b"192.0.2.2 - - [02/Jan/2024:00:00:00 +0000] \"GET /b HTTP/1.1\" 200 10\n192.0.2.3 - - [02/Jan/2024:00:00:00 +0000] \"GET /c HTTP/1.1\" 200 10\n",
];

/// Adds a log with these bytes.
fn add_log(
    files: &mut MemFiles,
    names: &mut Texts,
    name: Text,
    log: &[u8],
) -> Result<(), NoMemory> {
    files.grow(&name, log)?;
    names.push(name)?;
    Ok(())
}

/// Whether the maps of what two logs come to hash by the words of the first of them, and whether by those of the second.
fn hash_by<R: Threads + Sync>(
    rt: &R,
    alloc: Global,
    setup: &Setup,
    first: &[u8],
    second: &[u8],
) -> Result<[bool; 2], CountFault> {
    let mut files = MemFiles::new(alloc);
    let mut names = Texts::new(alloc);
    add_log(&mut files, &mut names, Text::of(alloc, "a.log")?, first)?;
    add_log(&mut files, &mut names, Text::of(alloc, "b.log")?, second)?;
    let mut entries = Entries::new(alloc);
    let crew = Crew {
        rt,
        gate: &NoGate::new(),
        alloc,
        setup,
        workers: Workers { jobs: 2, chunk: 4 },
    };
    let start = Start {
        follow: Follow::Whole,
        totals: Totals::ZERO,
    };
    let total = count_logs(&crew, start, None, names.items(), &mut entries, &mut files)?;
    Ok([
        total.is_keyed_by(&keyed_by(first, first.len() as u64, &Totals::ZERO)),
        total.is_keyed_by(&keyed_by(second, second.len() as u64, &Totals::ZERO)),
    ])
}

#[test]
fn maps_hash_by_the_first_batch(rt: HostRuntime) -> Result<(), Fail> {
    let alloc = rt.alloc();
    let setup = setup(alloc, "COMMON")?;
    let [one, two] = LOGS;
    assert_eq!(rt; hash_by(&rt, alloc, &setup, one, two), Ok([true, false]));
    assert_eq!(rt; hash_by(&rt, alloc, &setup, two, one), Ok([true, false]));
    Ok(())
}
