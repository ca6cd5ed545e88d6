use ga_base::{Entries, Entry, NoMemory, Text};
use ga_ports::{Files, MemFiles};
use ga_resume::{PlaceFault, place};
use std::alloc::Global;
use std::test::Fail;

/// The two examples of SHA-256 in FIPS 180-4: "abc" and the 56 bytes of `LONG`.
const ABC_DIGEST: [u8; 32] = [
    0xba, 0x78, 0x16, 0xbf, 0x8f, 0x01, 0xcf, 0xea, 0x41, 0x41, 0x40, 0xde, 0x5d, 0xae, 0x22, 0x23,
    0xb0, 0x03, 0x61, 0xa3, 0x96, 0x17, 0x7a, 0x9c, 0xb4, 0x10, 0xff, 0x61, 0xf2, 0x00, 0x15, 0xad,
];

const LONG_DIGEST: [u8; 32] = [
    0x24, 0x8d, 0x6a, 0x61, 0xd2, 0x06, 0x38, 0xb8, 0xe5, 0xc0, 0x26, 0x93, 0x0c, 0x3e, 0x60, 0x39,
    0xa3, 0x3c, 0xe4, 0x59, 0x64, 0xff, 0x21, 0x67, 0xf6, 0xec, 0xed, 0xd4, 0x19, 0xdb, 0x06, 0xc1,
];

const LONG: &str = "abcdbcdecdefdefgefghfghighijhijkijkljklmklmnlmnomnopnopq";

/// The entries of two logs, of which the first stands twice.
fn entries(alloc: Global) -> Result<Entries, NoMemory> {
    let abc = Entry {
        lead: 3,
        digest: ABC_DIGEST,
        offset: 3,
    };
    let long = Entry {
        lead: 56,
        digest: LONG_DIGEST,
        offset: 56,
    };
    let mut entries = Entries::new(alloc);
    for entry in [abc, long, abc] {
        entries.push(entry)?;
    }
    Ok(entries)
}

/// From where on a log of these bytes is read, up to which place, and the entry that it continues.
fn placed(alloc: Global, log: &str) -> Result<(u64, u64, Option<u64>), PlaceFault> {
    let name = Text::of(alloc, "a.log")?;
    let mut files = MemFiles::new(alloc);
    files.grow(&name, log.as_bytes())?;
    files.open(&name)?;
    let segment = place(alloc, &mut files, &entries(alloc)?)?;
    Ok((segment.from, segment.end, segment.entry))
}

/// Logs, and how each is placed.
const LOGS: [(&str, (u64, u64, Option<u64>)); 5] = [
    // A log that is shorter than each entry's offset continues none.
    ("", (0, 0, None)),
    ("ab", (0, 2, None)),
    // Nor does one that begins otherwise.
    ("abd", (0, 3, None)),
    // Of two entries that fit, with one offset, it is the first.
    ("abcd", (3, 4, Some(0))),
    // A log that hasn't grown.
    (LONG, (56, 56, Some(1))),
];

#[test]
fn logs_are_placed(rt: HostRuntime) -> Result<(), Fail> {
    for (log, segment) in LOGS {
        assert_eq!(rt; placed(rt.alloc(), log), Ok(segment), "{log}");
    }
    Ok(())
}
