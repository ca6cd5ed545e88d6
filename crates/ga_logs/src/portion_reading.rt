ghost use Rattle.std.specs.Prelude.{◌≡◌, ◌≢◌, [], IfOk, IfErr, IsTrue};
ghost use Rattle.ga_counters.specs.Counts.{NoneDue};
ghost use Rattle.ga_ports.specs.Trace.{FilesTrace};
ghost use Rattle.ga_resume.specs.declared.fault.PlaceFault.TheVariants.{FileFault};
ghost use Rattle.ga_logs.specs.Following.{CanServeOne, MissesLog, ReadsPortion};
ghost use Rattle.ga_logs.specs.Steps.ReadPortion.{BeginsLog, MissesBegin, OpensLog};

use crate::Portion;
use ga_base::{Bytes, Entries, Text};
use ga_ports::Files;
use ga_ports::laws::files_stay;
use ga_resume::{Follow, PlaceFault, Segment, place, read_part};
use std::alloc::Global;

/// Reads the part of the log of this name that wasn't counted yet, by these entries. The log is opened once, and its size is
/// that of the first answer. Where it is told that no call can fail, no fault is answered.
pub fn read_portion<F: Files>(
    alloc: Global,
    follow: Follow,
    entries: &Entries,
    name: &Text,
    files: &mut F,
) -> Result<Portion, PlaceFault>
    ensures ok { IfOk result (ReadsPortion follow entries.now name.now (F.view files.old) (F.view files.new)) }
    ensures failed { IfErr result (MissesLog follow entries.now name.now (F.view files.old) (F.view files.new)) }
    ensures calls { FilesTrace (F.view files.old) (F.view files.new) }
    ensures sure { CanServeOne name.now (F.view files.old) → IfErr result (λ fault. fault ≢ FileFault) }
{
    // What is known of calls of the files, for the proof alone: the call does nothing.
    files_stay();
    let segment = open_log(alloc, follow, entries, name, files)?;
    let bytes = read_part(alloc, files, segment.from, segment.end)?;
    Ok(Portion {
        segment,
        bytes: Bytes::from(bytes),
    })
}

/// Opens the log of this name, and says where a run begins it, by these entries.
pub(crate) fn open_log<F: Files>(
    alloc: Global,
    follow: Follow,
    entries: &Entries,
    name: &Text,
    files: &mut F,
) -> Result<Segment, PlaceFault>
    ensures ok { IfOk result (OpensLog follow entries.now name.now (F.view files.old) (F.view files.new)) }
    ensures failed { IfErr result (MissesLog follow entries.now name.now (F.view files.old) (F.view files.new)) }
    ensures calls { FilesTrace (F.view files.old) (F.view files.new) }
    ensures sure { CanServeOne name.now (F.view files.old) → IfErr result (λ fault. fault ≢ FileFault) }
{
    files_stay();
    files.open(name)?;
    begin_file(alloc, follow, entries, files)
}

/// Where a run begins the open file.
fn begin_file<F: Files>(
    alloc: Global,
    follow: Follow,
    entries: &Entries,
    files: &mut F,
) -> Result<Segment, PlaceFault>
    requires { IsTrue (F.view files.old).is_open }
    ensures ok { IfOk result (BeginsLog follow entries.now (F.view files.old) (F.view files.new)) }
    ensures failed { IfErr result (MissesBegin follow (F.view files.old) (F.view files.new)) }
    ensures calls { FilesTrace (F.view files.old) (F.view files.new) }
    ensures sure { NoneDue (F.view files.old).listed (F.view files.old).counts.calls → IfErr result (λ fault. fault ≢ FileFault) }
{
    match follow {
        Follow::Whole => whole_file(alloc, files),
        Follow::ToEnd | Follow::ToLastLine => place(alloc, files, entries),
    }
}

/// All of the open file.
fn whole_file<F: Files>(alloc: Global, files: &mut F) -> Result<Segment, PlaceFault>
    requires { IsTrue (F.view files.old).is_open }
    ensures ok { IfOk result (BeginsLog Follow.Whole [] (F.view files.old) (F.view files.new)) }
    ensures failed { IfErr result (MissesBegin Follow.Whole (F.view files.old) (F.view files.new)) }
    ensures calls { FilesTrace (F.view files.old) (F.view files.new) }
    ensures sure { NoneDue (F.view files.old).listed (F.view files.old).counts.calls → IfErr result (λ fault. fault ≢ FileFault) }
{
    let end = files.size()?;
    Ok(Segment {
        from: 0,
        end,
        entry: None,
        front: Bytes::from(Vec::new(alloc)),
    })
}
