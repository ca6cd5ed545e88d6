ghost use Rattle.std.specs.Prelude.{◌≡◌, ◌≢◌, IfErr, IfOk, IsTrue, length, min};
ghost use Rattle.ga_base.specs.declared.limits.TheConstants.{FRONT};
ghost use Rattle.ga_counters.specs.Counts.{NoneDue};
ghost use Rattle.ga_ports.specs.Trace.{FilesTrace};
ghost use Rattle.ga_resume.specs.Segment.{IsSegment, MissesPlace, PlacesLog};
ghost use Rattle.ga_resume.specs.declared.fault.PlaceFault.TheVariants.{FileFault};

use crate::choosing::choose_entry;
use crate::{PlaceFault, Segment, read_part};
use ga_base::{Bytes, Entries, Entry, FRONT, NoMemory};
use ga_ports::Files;
use std::alloc::Global;

/// Which part of the open file wasn't counted yet, by the entries of the logs that were.
///
/// The entry that it continues is, among those that fit it, the one with the greatest offset, and the first of these. An
/// entry fits a log that is no shorter than its offset and whose first bytes have its digest.
pub fn place<F: Files>(
    alloc: Global,
    files: &mut F,
    entries: &Entries,
) -> Result<Segment, PlaceFault>
    requires { IsTrue (F.view files.old).is_open }
    ensures ok { IfOk result (PlacesLog entries.now (F.view files.old) (F.view files.new)) }
    ensures failed { IfErr result (MissesPlace (F.view files.old) (F.view files.new)) }
    ensures calls { FilesTrace (F.view files.old) (F.view files.new) }
    ensures sure { NoneDue (F.view files.old).listed (F.view files.old).counts.calls → IfErr result (λ fault. fault ≢ FileFault) }
{
    let end = files.size()?;
    let front = read_part(alloc, files, 0, end.min(FRONT))?;
    Ok(segment(alloc, entries.items(), front, end)?)
}

/// The segment of a log of this front and size.
fn segment(alloc: Global, entries: &[Entry], front: Vec<u8>, end: u64) -> Result<Segment, NoMemory>
    requires { length front.items ≡ min end FRONT }
    ensures is { IfOk result (IsSegment entries.now) }
    ensures front { IfOk result (λ segment. segment.front ≡ front.items) }
    ensures end { IfOk result (λ segment. segment.end ≡ end) }
{
    match choose_entry(alloc, entries, &front, end)? {
        Some(candidate) => Ok(Segment {
            from: candidate.entry.offset,
            end,
            entry: Some(candidate.place),
            front: Bytes::from(front),
        }),
        None => Ok(Segment {
            from: 0,
            end,
            entry: None,
            front: Bytes::from(front),
        }),
    }
}
