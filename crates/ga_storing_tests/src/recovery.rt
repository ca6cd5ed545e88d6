ghost use Rattle.std.specs.Prelude.{IfOk, IsTrue};

use ga_base::Text;
use ga_cases::hold;
use ga_disk::{Disk, MemDisk};
use ga_store::recover;
use std::alloc::Global;
use std::test::Fail;

/// The side of an empty database that doesn't say how many days it keeps, generation 1.
const FIRST: &[u8] = b"\
    \x4f\x00\x00\x00\x00\x00\x00\x00\x49\x01\x00\x00\x00\x00\x00\x00\x00\x01\x00\x00\x00\x00\x00\x00\
    \x00\x00\x00\x00\x00\x00\x00\x00\x00\x00\x00\x00\x00\x00\x00\x00\x00\x00\x00\x00\x00\x00\x00\x00\
    \x00\x00\x00\x00\x00\x00\x00\x00\x00\x00\x00\x00\x00\x00\x00\x00\x00\x00\x00\x00\x00\x00\x00\x00\
    \x00\x00\x00\x00\x00\x00\x00\x00\x00\x00\xba\x44\x05\x65\xb5\x87\x94\x09\x5a\x0e\x79\xe5\x2f\x72\
    \x76\xdb\x4b\x76\xb2\x34\x0e\x1a\x7e\xe9\xfd\x9e\x07\x1d\xda\x0b\x38\xd7\x00\
";

/// The run record of a run that counted nothing, between its gates.
const RECORD: &[u8] = b"\
    \x4f\x00\x00\x00\x00\x00\x00\x00\x41\x01\x00\x00\x00\x00\x00\x00\x00\x00\x00\x00\x00\x00\x00\x00\
    \x00\x00\x00\x00\x00\x00\x00\x00\x00\x00\x00\x00\x00\x00\x00\x00\x00\x00\x00\x00\x00\x00\x00\x00\
    \x00\x00\x00\x00\x00\x00\x00\x00\x00\x00\x00\x00\x00\x00\x00\x00\x00\x00\x00\x00\x00\x00\x00\x00\
    \x00\x00\xae\x07\x98\xd0\xec\xae\xd2\xb7\x78\xed\xde\xbf\x18\xf0\x71\xa5\x61\xc5\x36\x58\xc0\x5e\
    \x76\xce\xde\xcc\x27\xca\xfb\xdb\xc5\x77\x00\
";

/// The side of such a database, generation 2.
const LATER: &[u8] = b"\
    \x4f\x00\x00\x00\x00\x00\x00\x00\x49\x01\x00\x00\x00\x00\x00\x00\x00\x02\x00\x00\x00\x00\x00\x00\
    \x00\x00\x00\x00\x00\x00\x00\x00\x00\x00\x00\x00\x00\x00\x00\x00\x00\x00\x00\x00\x00\x00\x00\x00\
    \x00\x00\x00\x00\x00\x00\x00\x00\x00\x00\x00\x00\x00\x00\x00\x00\x00\x00\x00\x00\x00\x00\x00\x00\
    \x00\x00\x00\x00\x00\x00\x00\x00\x00\x00\xab\xd2\xb1\x88\x22\x53\xf5\xed\x2a\x23\x67\xeb\xf2\x29\
    \xeb\x8f\x14\xb0\x58\xa3\xfa\x85\x0f\x39\x63\x8f\xf5\x5b\xe7\x8c\x40\xed\x00\
";

/// The side of an empty database that keeps all days, generation 1.
const ALL_DAYS: &[u8] = b"\
    \x4f\x00\x00\x00\x00\x00\x00\x00\x4d\x02\x00\x00\x00\x00\x00\x00\x00\x01\x00\x00\x00\x00\x00\x00\
    \x00\x00\x00\x00\x00\x00\x00\x00\x00\x00\x00\x00\x00\x00\x00\x00\x00\x00\x00\x00\x00\x00\x00\x00\
    \x00\x00\x00\x00\x00\x00\x00\x00\x00\x00\x00\x00\x00\x00\x00\x00\x00\x00\x00\x00\x00\x00\x00\x00\
    \x00\x00\x00\x00\x00\x00\x00\x00\x00\x00\x00\x00\x00\x00\xa7\xa9\x88\x53\xd5\xe0\x97\xf2\x49\xcb\
    \x41\x8f\x57\xe5\x42\xc3\xce\xd4\x14\x6b\x3e\x96\x4f\x44\x02\xc9\x10\x64\x44\x93\x97\xa2\x00\
";

/// The side of an empty database that keeps all days, generation 2.
const LATER_ALL_DAYS: &[u8] = b"\
    \x4f\x00\x00\x00\x00\x00\x00\x00\x4d\x02\x00\x00\x00\x00\x00\x00\x00\x02\x00\x00\x00\x00\x00\x00\
    \x00\x00\x00\x00\x00\x00\x00\x00\x00\x00\x00\x00\x00\x00\x00\x00\x00\x00\x00\x00\x00\x00\x00\x00\
    \x00\x00\x00\x00\x00\x00\x00\x00\x00\x00\x00\x00\x00\x00\x00\x00\x00\x00\x00\x00\x00\x00\x00\x00\
    \x00\x00\x00\x00\x00\x00\x00\x00\x00\x00\x00\x00\x00\x00\xf4\xba\x6a\xaf\xb4\xff\xd8\xce\xe6\x50\
    \x56\x47\x3b\xde\xad\x45\x3c\xa4\x3a\xa9\x7d\xf4\x8e\xb8\x6e\x52\x75\x07\x45\x71\x51\xb4\x00\
";

/// The side of an empty database that keeps two days, generation 2.
const LATER_TWO_DAYS: &[u8] = b"\
    \x4f\x00\x00\x00\x00\x00\x00\x00\x4d\x02\x00\x00\x00\x00\x00\x00\x00\x02\x00\x00\x00\x02\x00\x00\
    \x00\x00\x00\x00\x00\x00\x00\x00\x00\x00\x00\x00\x00\x00\x00\x00\x00\x00\x00\x00\x00\x00\x00\x00\
    \x00\x00\x00\x00\x00\x00\x00\x00\x00\x00\x00\x00\x00\x00\x00\x00\x00\x00\x00\x00\x00\x00\x00\x00\
    \x00\x00\x00\x00\x00\x00\x00\x00\x00\x00\x00\x00\x00\x00\x92\x95\x6d\xcd\x5b\x09\xbb\x00\x66\xe6\
    \xc8\xa7\xdc\x30\x09\x77\xfa\xb2\x24\x4d\x29\xe3\x18\x3f\x34\x0d\x8f\xb1\x49\x4c\x07\xb4\x00\
";

/// The side of a database of `LIMIT` failed lines, generation 1.
const FULL: &[u8] = b"\
    \x4f\x00\x00\x00\x00\x00\x00\x00\x49\x01\x00\x00\x00\x00\x00\x00\x00\x01\x3f\xff\xff\xff\xff\xff\
    \xff\xff\x3f\xff\xff\xff\xff\xff\xff\xff\x00\x00\x00\x00\x00\x00\x00\x00\x00\x00\x00\x00\x00\x00\
    \x00\x00\x00\x00\x00\x00\x00\x00\x00\x00\x00\x00\x00\x00\x00\x00\x00\x00\x00\x00\x00\x00\x00\x00\
    \x00\x00\x00\x00\x00\x00\x00\x00\x00\x00\xda\x17\xea\x94\xda\xa1\x97\xdf\x3b\x49\x28\x5d\xcf\x88\
    \x8b\xdf\x0d\xcb\xc7\x89\x2b\x72\x16\x37\x11\xfa\x0b\x23\xa1\x86\xe4\x91\x00\
";

/// The run record of one failed line and one entry, between its gates.
const ONE: &[u8] = b"\
    \x4f\x00\x00\x00\x00\x00\x00\x00\x6b\x01\x00\x00\x00\x00\x00\x00\x00\x01\x00\x00\x00\x00\x00\x00\
    \x00\x01\x00\x00\x00\x00\x00\x00\x00\x00\x00\x00\x00\x00\x00\x00\x00\x00\x00\x00\x00\x00\x00\x00\
    \x00\x00\x00\x00\x00\x00\x00\x00\x00\x00\x00\x00\x00\x00\x00\x00\x00\x00\x00\x00\x00\x00\x00\x00\
    \x00\x01\x00\x05\x07\x07\x07\x07\x07\x07\x07\x07\x07\x07\x07\x07\x07\x07\x07\x07\x07\x07\x07\x07\
    \x07\x07\x07\x07\x07\x07\x07\x07\x07\x07\x07\x07\x00\x00\x00\x00\x00\x00\x00\x05\xac\x4f\x25\xf2\
    \x2b\xde\x68\x95\x78\xb7\xfd\x6c\x58\x77\xae\x5b\x3a\x2c\x84\x4e\xb0\x75\x9d\x1a\xba\x96\xb0\xcb\
    \xb2\xc7\xa9\xa8\x00\
";

/// The run record of two failed lines and two entries, between its gates.
const TWO: &[u8] = b"\
    \x4f\x00\x00\x00\x00\x00\x00\x00\x95\x01\x00\x00\x00\x00\x00\x00\x00\x02\x00\x00\x00\x00\x00\x00\
    \x00\x02\x00\x00\x00\x00\x00\x00\x00\x00\x00\x00\x00\x00\x00\x00\x00\x00\x00\x00\x00\x00\x00\x00\
    \x00\x00\x00\x00\x00\x00\x00\x00\x00\x00\x00\x00\x00\x00\x00\x00\x00\x00\x00\x00\x00\x00\x00\x00\
    \x00\x02\x00\x09\x08\x08\x08\x08\x08\x08\x08\x08\x08\x08\x08\x08\x08\x08\x08\x08\x08\x08\x08\x08\
    \x08\x08\x08\x08\x08\x08\x08\x08\x08\x08\x08\x08\x00\x00\x00\x00\x00\x00\x00\x09\x00\x01\x09\x09\
    \x09\x09\x09\x09\x09\x09\x09\x09\x09\x09\x09\x09\x09\x09\x09\x09\x09\x09\x09\x09\x09\x09\x09\x09\
    \x09\x09\x09\x09\x09\x09\x00\x00\x00\x00\x00\x00\x00\x01\x29\x37\x52\x74\xeb\xf6\x86\x22\xa5\x55\
    \x1a\x1c\x94\x5c\xab\x11\xf2\xc9\x26\xc1\x50\xc6\x23\x17\x20\x27\x17\x41\x40\x71\xd3\x34\x00\
";

/// The side of an empty database whose part states the greatest length.
const HUGE: &[u8] = b"\x4f\xff\xff\xff\xff\xff\xff\xff\xff\x01\x00";

/// Two sides, and what they say. A side is pieces, each over the closed gate of the one in front, perhaps with one byte
/// changed: `F`, `L`, `N`, `O`, `P`, `M` and `H` begin a side, `R`, `A` and `B` are run records, and `G` is a lone byte of an open
/// gate.
const SIDES: &str = "\
## nothing written, and a gate with nothing behind it
- - => None: generation 0, keep None, records 0, slot 0, failed 0, entries 0
G - => None: generation 0, keep None, records 0, slot 0, failed 0, entries 0
F@0=0 - => None: generation 0, keep None, records 0, slot 0, failed 0, entries 0
## one side, with and without records
F - => Some(0): generation 1, keep None, records 0, slot 114, failed 0, entries 0
- F => Some(1): generation 1, keep None, records 0, slot 114, failed 0, entries 0
FR - => Some(0): generation 1, keep None, records 1, slot 220, failed 0, entries 0
FRR - => Some(0): generation 1, keep None, records 2, slot 326, failed 0, entries 0
## the later of two generations
F L => Some(1): generation 2, keep None, records 0, slot 114, failed 0, entries 0
L F => Some(0): generation 2, keep None, records 0, slot 114, failed 0, entries 0
## a snapshot that says how many days it keeps
N - => Some(0): generation 1, keep Some(0), records 0, slot 118, failed 0, entries 0
NR - => Some(0): generation 1, keep Some(0), records 1, slot 224, failed 0, entries 0
NR@128=1 - => side 0 damaged at 119
NR@118=0 - => Some(0): generation 1, keep Some(0), records 0, slot 118, failed 0, entries 0
NAB - => Some(0): generation 1, keep Some(0), records 2, slot 456, failed 3, entries 2
F P => Some(1): generation 2, keep Some(2), records 0, slot 118, failed 0, entries 0
PR F => Some(0): generation 2, keep Some(2), records 1, slot 224, failed 0, entries 0
N@9=3 - => side 0 damaged at 1
N@21=1 - => side 0 damaged at 1
## two of one generation
F F => side 1 damaged at 1
F N => side 1 damaged at 1
FR F => side 1 damaged at 1
## a damaged snapshot on either side
F@20=255 - => side 0 damaged at 1
F@20=255 F@20=255 => side 0 damaged at 1
- F@20=1 => side 1 damaged at 1
F L@20=1 => side 1 damaged at 1
L@50=1 F => side 0 damaged at 1
## a first part whose digest is right and whose body is no snapshot
R - => side 0 damaged at 1
F R => side 1 damaged at 1
## a length that is greater than the side, of which no memory is taken
H - => side 0 damaged at 1
F H => side 1 damaged at 1
## a side whose gate is closed is not looked at
F@0=78 L => Some(1): generation 2, keep None, records 0, slot 114, failed 0, entries 0
## a gate after the last record
F@114=79 - => Some(0): generation 1, keep None, records 0, slot 114, failed 0, entries 0
F@114=7 - => Some(0): generation 1, keep None, records 0, slot 114, failed 0, entries 0
## a damaged record
FR@124=1 - => side 0 damaged at 115
FR@116=1 - => side 0 damaged at 115
FAB@300=1 - => side 0 damaged at 263
FA LB@130=1 => side 1 damaged at 115
FF - => side 0 damaged at 115
## a record behind a closed gate
FR@114=0 - => Some(0): generation 1, keep None, records 0, slot 114, failed 0, entries 0
FAB@262=0 - => Some(0): generation 1, keep None, records 1, slot 262, failed 1, entries 1
## a damaged record on the earlier side
FR@124=1 L => Some(1): generation 2, keep None, records 0, slot 114, failed 0, entries 0
## sums of the records, and the entries of the last
FA - => Some(0): generation 1, keep None, records 1, slot 262, failed 1, entries 1
FAB - => Some(0): generation 1, keep None, records 2, slot 452, failed 3, entries 2
FBA - => Some(0): generation 1, keep None, records 2, slot 452, failed 3, entries 1
FA LB => Some(1): generation 2, keep None, records 1, slot 304, failed 2, entries 2
## a counter at its limit, and past it
M - => Some(0): generation 1, keep None, records 0, slot 114, failed 4611686018427387903, entries 0
MR - => Some(0): generation 1, keep None, records 1, slot 220, failed 4611686018427387903, entries 0
MA - => side 0 damaged at 115
MRA - => side 0 damaged at 221
";

/// The bytes that a letter represents.
fn piece(letter: char) -> &'static [u8] {
    match letter {
        'F' => FIRST,
        'L' => LATER,
        'N' => ALL_DAYS,
        'O' => LATER_ALL_DAYS,
        'P' => LATER_TWO_DAYS,
        'M' => FULL,
        'H' => HUGE,
        'R' => RECORD,
        'A' => ONE,
        'B' => TWO,
        'G' => b"\x4f",
        _ => b"",
    }
}

/// The side that letters represent.
pub fn side_of(alloc: Global, text: &str) -> Result<Vec<u8>, Fail> {
    let (letters, change) = text.split_once('@').unwrap_or((text, ""));
    let mut side = Vec::new(alloc);
    for letter in letters.chars() {
        side.pop();
        side.extend_from_slice(piece(letter))?;
    }
    if let Some((place, byte)) = change.split_once('=') {
        let byte = byte.parse::<u8>()?;
        if let Some(changed) = side.get_mut(place.parse::<usize>()?) {
            *changed = byte;
        }
    }
    Ok(side)
}

/// An open disk whose sides are named so.
pub fn disk_of(alloc: Global, sides: &str) -> Result<MemDisk, Fail>
    ensures { IfOk result (λ disk. IsTrue disk.is_open) }
{
    let (side0, side1) = sides.split_once(' ').ok_or("two sides")?;
    let mut disk = MemDisk::new(alloc);
    let path = Text::of(alloc, "d")?;
    disk.open(&path).ok().ok_or("open")?;
    disk.write_at(0, 0, &side_of(alloc, side0)?)
        .ok()
        .ok_or("side 0")?;
    disk.write_at(1, 0, &side_of(alloc, side1)?)
        .ok()
        .ok_or("side 1")?;
    Ok(disk)
}

/// What two sides say, or their damage.
fn said(alloc: Global, sides: &str) -> Result<String, Fail> {
    match recover(alloc, &mut disk_of(alloc, sides)?) {
        Err(fault) => Ok(format!(in alloc; "{fault}")?),
        Ok(db) => Ok(format!(in alloc;
            "{:?}: generation {}, keep {:?}, records {}, slot {}, failed {}, entries {}",
            db.side,
            db.generation,
            db.keep,
            db.records,
            db.slot,
            db.summary.totals().failed,
            db.entries.items().len(),
        )?),
    }
}

#[test]
fn sides_say_a_database_or_their_damage(rt: HostRuntime) -> Result<(), Fail> {
    hold(rt.alloc(), SIDES, said)
}
