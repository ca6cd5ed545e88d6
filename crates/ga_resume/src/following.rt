ghost use Rattle.std.specs.Prelude.{◌≡◌, ◌≤◌, ◌<◌, OnErr, OnOk, length, min, set};
ghost use Rattle.ga_base.specs.declared.limits.TheConstants.{FRONT};
ghost use Rattle.ga_resume.specs.Entries.{IsAdvanced, IsEntryOf};
ghost use Rattle.ga_resume.specs.Segment.{IsSegment};

use crate::Segment;
use ga_base::{Entries, Entry, FRONT, NoMemory};
use sha2::{Digest, Sha256};
use std::alloc::Global;
use std::mem;

/// What becomes of the entries once the log of this segment was counted up to the offset: the entry that it continues is
/// replaced, or one is added. Where the offset is 0, nothing changes. After an `Err` nothing has changed.
pub fn advance(
    alloc: Global,
    entries: &mut Entries,
    segment: &Segment,
    offset: u64,
) -> Result<(), NoMemory>
    requires placed { IsSegment entries.old segment.now }
    requires from { segment.now.from ≤ offset }
    requires end { offset ≤ segment.now.end }
    ensures ok { OnOk result (IsAdvanced segment.now.front segment.now.entry offset entries.old entries.new) }
    ensures err { OnErr result (entries.new ≡ entries.old) }
{
    if offset == 0 {
        return Ok(());
    }
    let entry = entry_of(segment.front.bytes(), offset);
    match segment.entry {
        Some(place) => {
            replace_at(alloc, entries, place, entry);
            Ok(())
        }
        None => {
            entries.push(entry)?;
            Ok(())
        }
    }
}

/// The entry of a log of this front that was counted up to the offset.
fn entry_of(front: &[u8], offset: u64) -> Entry
    requires some { 1 ≤ offset }
    requires within { min offset FRONT ≤ length front.now }
    ensures { IsEntryOf front.now offset result }
{
    let lead = offset.min(FRONT);
    Entry {
        lead: lead as u16,
        digest: Sha256::digest(&front[..lead as usize]),
        offset,
    }
}

fn replace_at(alloc: Global, entries: &mut Entries, place: u64, entry: Entry)
    requires { place < length entries.old }
    ensures { entries.new ≡ set entries.old place entry }
{
    let mut items = mem::replace(entries, Entries::new(alloc)).into_vec();
    items[place as usize] = entry;
    *entries = Entries::from(items);
}
