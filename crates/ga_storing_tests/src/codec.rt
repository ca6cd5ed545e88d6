use ga_cases::hold;
use ga_codec::{BodyReader, CodecFault, read_delta, read_snapshot, write_delta, write_snapshot};
use std::alloc::Global;
use std::test::Fail;

/// The snapshot of an empty database that doesn't say how many days it keeps, generation 1.
const EMPTY: &[u8] = b"\x01\
    \x00\x00\x00\x00\x00\x00\x00\x01\
    \x00\x00\x00\x00\x00\x00\x00\x00\x00\x00\x00\x00\x00\x00\x00\x00\x00\x00\x00\x00\x00\x00\x00\x00\
    \x00\x00\x00\x00\x00\x00\x00\x00\x00\x00\x00\x00\x00\x00\x00\x00\x00\x00\x00\x00\x00\x00\x00\x00\
    \x00\x00\x00\x00\x00\x00\x00\x00\x00\x00\x00\x00\x00\x00\x00\x00";

/// The snapshot of an empty database that keeps two days, generation 1.
const TWO_DAYS: &[u8] = b"\x02\
    \x00\x00\x00\x00\x00\x00\x00\x01\
    \x00\x00\x00\x02\
    \x00\x00\x00\x00\x00\x00\x00\x00\x00\x00\x00\x00\x00\x00\x00\x00\x00\x00\x00\x00\x00\x00\x00\x00\
    \x00\x00\x00\x00\x00\x00\x00\x00\x00\x00\x00\x00\x00\x00\x00\x00\x00\x00\x00\x00\x00\x00\x00\x00\
    \x00\x00\x00\x00\x00\x00\x00\x00\x00\x00\x00\x00\x00\x00\x00\x00";

/// The run record of a run that counted nothing.
const NOTHING: &[u8] = b"\x01\
    \x00\x00\x00\x00\x00\x00\x00\x00\x00\x00\x00\x00\x00\x00\x00\x00\x00\x00\x00\x00\x00\x00\x00\x00\
    \x00\x00\x00\x00\x00\x00\x00\x00\x00\x00\x00\x00\x00\x00\x00\x00\x00\x00\x00\x00\x00\x00\x00\x00\
    \x00\x00\x00\x00\x00\x00\x00\x00\x00\x00\x00\x00\x00\x00\x00\x00";

/// The snapshot, generation 2, of 15 January 2024 with two visitors, their two hosts, `g` and U+00E9, and one entry.
const THREE_ROWS: &[u8] = b"\
    \x01\
    \x00\x00\x00\x00\x00\x00\x00\x02\
    \x00\x00\x00\x00\x00\x00\x00\x04\x00\x00\x00\x00\x00\x00\x00\x01\x00\x00\x00\x00\x00\x00\x00\x00\x00\x00\
    \x00\x00\x00\x00\x00\x03\x00\x00\x00\x00\x00\x00\x00\x3c\x00\x00\x00\x00\x00\x00\x00\x07\
    \x00\x00\x00\x00\x00\x00\x00\x03\
    \x01\x01\x34\xd6\xf3\
    \x00\x00\x00\x00\x00\x00\x00\x00\x00\x00\x00\x00\x00\x00\x00\x08\x32\x30\x32\x34\x30\x31\x31\x35\x00\x00\
    \x00\x00\x00\x00\x00\x00\x00\x00\x00\x00\x00\x00\x00\x00\
    \x00\x00\x00\x00\x00\x00\x00\x03\x00\x00\x00\x00\x00\x00\x00\x3c\x00\x00\x00\x00\x00\x00\x00\x07\x00\x00\
    \x00\x00\x00\x00\x00\x05\
    \x00\x00\x00\x00\x00\x00\x00\x02\x00\x00\x00\x00\x00\x00\x00\x01\x68\x00\x00\x00\x00\x00\x00\x00\x01\x61\
    \x00\x00\x00\x00\x00\x00\x00\x01\x68\x00\x00\x00\x00\x00\x00\x00\x01\x62\
    \x05\x01\x34\xd6\xf3\
    \x00\x00\x00\x00\x00\x00\x00\x00\x00\x00\x00\x00\x00\x00\x00\x01\x67\x00\x00\x00\x00\x00\x00\x00\x00\x00\
    \x00\x00\x00\x00\x00\x00\x00\
    \x00\x00\x00\x00\x00\x00\x00\x01\x00\x00\x00\x00\x00\x00\x00\x14\x00\x00\x00\x00\x00\x00\x00\x02\x00\x00\
    \x00\x00\x00\x00\x00\x02\
    \x00\x00\x00\x00\x00\x00\x00\x01\x00\x00\x00\x00\x00\x00\x00\x01\x68\x00\x00\x00\x00\x00\x00\x00\x01\x61\
    \x05\x01\x34\xd6\xf3\
    \x00\x00\x00\x00\x00\x00\x00\x00\x00\x00\x00\x00\x00\x00\x00\x02\xc3\xa9\x00\x00\x00\x00\x00\x00\x00\x00\
    \x00\x00\x00\x00\x00\x00\x00\x00\
    \x00\x00\x00\x00\x00\x00\x00\x02\x00\x00\x00\x00\x00\x00\x00\x28\x00\x00\x00\x00\x00\x00\x00\x05\x00\x00\
    \x00\x00\x00\x00\x00\x05\
    \x00\x00\x00\x00\x00\x00\x00\x01\x00\x00\x00\x00\x00\x00\x00\x01\x68\x00\x00\x00\x00\x00\x00\x00\x01\x62\
    \x00\x00\x00\x00\x00\x00\x00\x01\
    \x00\xc8\x00\x01\x02\x03\x04\x05\x06\x07\x08\x09\x0a\x0b\x0c\x0d\x0e\x0f\x10\x11\x12\x13\x14\x15\x16\x17\
    \x18\x19\x1a\x1b\x1c\x1d\x1e\x1f\x00\x00\x00\x00\x00\x00\x00\xc8\
";

/// Whether what these bytes spell is a snapshot of this generation, which keeps this many days and has this many keys, and is
/// spelled so.
fn spells(
    alloc: Global,
    bytes: &[u8],
    generation: u64,
    keep: Option<u32>,
    keys: u64,
) -> Result<bool, CodecFault> {
    let snapshot = read_snapshot(alloc, bytes)?;
    if snapshot.generation != generation
        || snapshot.keep != keep
        || snapshot.summary.len() != keys
    {
        return Ok(false);
    }
    if generation < 1 || generation > 2 {
        return Ok(false);
    }
    Ok(write_snapshot(alloc, &snapshot)?.bytes() == bytes)
}

/// Whether what these bytes spell is a run record, and is spelled so.
fn spells_record(alloc: Global, bytes: &[u8]) -> Result<bool, CodecFault> {
    let delta = read_delta(alloc, bytes)?;
    Ok(write_delta(alloc, &delta)?.bytes() == bytes)
}

/// Whether a snapshot whose bytes come one by one is read, and is spelled so.
fn spells_by_and_by(alloc: Global, bytes: &[u8]) -> Result<bool, CodecFault> {
    let mut reader = BodyReader::of_snapshot(alloc);
    let mut read = 0;
    for end in 0..bytes.len() {
        read += reader.read(alloc, &bytes[read..end], false)?;
    }
    read += reader.read(alloc, &bytes[read..], true)?;
    let snapshot = reader.finish_snapshot(alloc, &bytes[read..])?;
    if snapshot.generation < 1 || snapshot.generation > 2 {
        return Ok(false);
    }
    Ok(write_snapshot(alloc, &snapshot)?.bytes() == bytes)
}

/// The same of a run record.
fn spells_record_by_and_by(alloc: Global, bytes: &[u8]) -> Result<bool, CodecFault> {
    let mut reader = BodyReader::of_delta(alloc);
    let mut read = 0;
    for end in 0..bytes.len() {
        read += reader.read(alloc, &bytes[read..end], false)?;
    }
    read += reader.read(alloc, &bytes[read..], true)?;
    let delta = reader.finish_delta(alloc, &bytes[read..])?;
    Ok(write_delta(alloc, &delta)?.bytes() == bytes)
}

#[test]
fn values_have_these_bytes(rt: HostRuntime) -> Result<(), Fail> {
    let alloc = rt.alloc();
    assert_eq!(rt; spells(alloc, EMPTY, 1, None, 0), Ok(true));
    assert_eq!(rt; spells(alloc, TWO_DAYS, 1, Some(2), 0), Ok(true));
    assert_eq!(rt; spells(alloc, THREE_ROWS, 2, None, 3), Ok(true));
    assert_eq!(rt; spells_record(alloc, NOTHING), Ok(true));
    Ok(())
}

#[test]
fn pieces_are_read_as_the_whole(rt: HostRuntime) -> Result<(), Fail> {
    let alloc = rt.alloc();
    assert_eq!(rt; spells_by_and_by(alloc, EMPTY), Ok(true));
    assert_eq!(rt; spells_by_and_by(alloc, TWO_DAYS), Ok(true));
    assert_eq!(rt; spells_by_and_by(alloc, THREE_ROWS), Ok(true));
    assert_eq!(rt; spells_record_by_and_by(alloc, NOTHING), Ok(true));
    let short = spells_by_and_by(alloc, &THREE_ROWS[..378]).err();
    assert_eq!(rt; short, Some(CodecFault::NotInGrammar { at: 96 }));
    Ok(())
}

/// Changes of the three rows, or after `empty` and `days` of the empty database and of the one that keeps two days: the byte that is
/// put at a place or the number of bytes that are left, and what is said of the bytes then.
const FAULTS: &str = "\
## bytes that end early
0 => byte 0: not in the grammar
428 => byte 428: not in the grammar
empty 72 => byte 72: not in the grammar
days 12 => byte 12: not in the grammar
days 76 => byte 76: not in the grammar
## no version, and one that there isn't
empty 0=0 => byte 0: not in the grammar
days 0=3 => byte 0: not in the grammar
0=3 => byte 0: not in the grammar
## the other version, with four bytes too few or too many
empty 0=2 => byte 73: not in the grammar
days 0=1 => byte 73: not in the grammar
0=2 => byte 69: not in the grammar
## how many days are kept: all of the bytes are read, and their number is in four of them
empty 73 => generation 1, keep None
days 77 => generation 1, keep Some(2)
days 12=0 => generation 1, keep Some(0)
days 9=255 => generation 1, keep Some(4278190082)
## a generation above the limit, and of 0
1=64 => byte 1: not in the grammar
8=0 => byte 8: not in the grammar
## a panel above 17, and of 0
65=18 => byte 65: not in the grammar
186=0 => byte 186: not in the grammar
## bytes of a text that aren't UTF-8
303=255 => byte 303: not in the grammar
303=226 => byte 303: not in the grammar
304=40 => byte 304: not in the grammar
## a text that ends within a character
302=1 => byte 303: not in the grammar
## lengths of 2^63 and more
57=128 => byte 379: not in the grammar
295=128 => byte 389: not in the grammar
379=128 => byte 429: not in the grammar
## totals that don't add up, rows that don't rise, and an entry whose offset isn't its lead
16=5 => byte 429: not in the grammar
185=97 => byte 429: not in the grammar
388=199 => byte 429: not in the grammar
";

/// The bytes that are changed, by their name.
fn unchanged(name: &str) -> &'static [u8] {
    match name {
        "empty" => EMPTY,
        "days" => TWO_DAYS,
        _ => THREE_ROWS,
    }
}

/// The bytes of a snapshot, changed.
fn changed(alloc: Global, change: &str) -> Result<Vec<u8>, Fail> {
    let (name, change) = change.split_once(' ').unwrap_or(("", change));
    let mut bytes = Vec::from_slice(alloc, unchanged(name))?;
    match change.split_once('=') {
        None => bytes.truncate(change.parse::<usize>()?),
        Some((place, byte)) => {
            if let Some(there) = bytes.get_mut(place.parse::<usize>()?) {
                *there = byte.parse::<u8>()?;
            }
        }
    }
    Ok(bytes)
}

/// What is said of such bytes.
fn said(alloc: Global, change: &str) -> Result<String, Fail> {
    match read_snapshot(alloc, &changed(alloc, change)?) {
        Ok(snapshot) => Ok(format!(in alloc;
            "generation {}, keep {:?}",
            snapshot.generation, snapshot.keep
        )?),
        Err(fault) => Ok(format!(in alloc; "{fault}")?),
    }
}

#[test]
fn other_bytes_are_read_or_refused_at_their_place(rt: HostRuntime) -> Result<(), Fail> {
    hold(rt.alloc(), FAULTS, said)
}
