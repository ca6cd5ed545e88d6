ghost use Rattle.std.specs.Prelude.{◌≡◌, ◌≢◌, ◌-◌, ◌≤◌, ◌<◌, IfOk, IfErr, IfSome, IsSome, IsTrue, length};
ghost use Rattle.ga_counters.specs.Counts.{NoneDue};
ghost use Rattle.ga_ports.specs.Trace.{FilesTrace};
ghost use Rattle.ga_resume.specs.ReadPart.{AppendsSlice, ReadsPart, ReadsSlice, StopsAfter, StopsWithin};
ghost use Rattle.ga_resume.specs.declared.fault.PlaceFault.TheVariants.{FileFault};

use crate::PlaceFault;
use ga_ports::Files;
use ga_ports::laws::files_stay;
use std::alloc::{AllocError, Global};

/// The most bytes that one call reads.
const SLICE: usize = 65_536;

/// The bytes of the open file from one place to another, within the size last answered. They are read in slices.
pub fn read_part<F: Files>(
    alloc: Global,
    files: &mut F,
    from: u64,
    end: u64,
) -> Result<Vec<u8>, PlaceFault>
    requires is_open { IsTrue (F.view files.old).is_open }
    requires order { from ≤ end }
    requires measured { IsSome (F.view files.old).measured }
    requires within { IfSome (F.view files.old).measured (λ size. end ≤ size) }
    requires told { IfSome (F.view files.old).bytes (λ bytes. end ≤ length bytes) }
    ensures ok { IfOk result (λ part. ReadsPart from end (F.view files.old) (F.view files.new) part.items) }
    ensures failed { IfErr result (λ fault. StopsWithin (end - from) (F.view files.old) (F.view files.new) fault) }
    ensures calls { FilesTrace (F.view files.old) (F.view files.new) }
    ensures sure { NoneDue (F.view files.old).listed (F.view files.old).counts.calls → IfErr result (λ fault. fault ≢ FileFault) }
{
    let mut buffer = slice_buffer(alloc)?;
    read_slices(alloc, files, from, end, &mut buffer)
}

/// A place for the bytes of one read.
pub fn slice_buffer(alloc: Global) -> Result<Vec<u8>, AllocError>
    ensures { IfOk result (λ buffer. 0 < length buffer.items) }
{
    vec![in alloc; 0u8; SLICE]
}

/// Reads the part by reads of at most the buffer's length.
fn read_slices<F: Files>(
    alloc: Global,
    files: &mut F,
    from: u64,
    end: u64,
    buffer: &mut [u8],
) -> Result<Vec<u8>, PlaceFault>
    requires is_open { IsTrue (F.view files.old).is_open }
    requires order { from ≤ end }
    requires measured { IsSome (F.view files.old).measured }
    requires within { IfSome (F.view files.old).measured (λ size. end ≤ size) }
    requires told { IfSome (F.view files.old).bytes (λ bytes. end ≤ length bytes) }
    requires room { 0 < length buffer.old }
    ensures ok { IfOk result (λ part. ReadsPart from end (F.view files.old) (F.view files.new) part.items) }
    ensures failed { IfErr result (λ fault. StopsWithin (end - from) (F.view files.old) (F.view files.new) fault) }
    ensures calls { FilesTrace (F.view files.old) (F.view files.new) }
    ensures sure { NoneDue (F.view files.old).listed (F.view files.old).counts.calls → IfErr result (λ fault. fault ≢ FileFault) }
{
    // That the number of calls doesn't fall, for the proof alone.
    files_stay();
    let mut part = Vec::new(alloc);
    let mut at = from;
    while at < end {
        let room = (end - at).min(buffer.len() as u64) as usize;
        let count = append_slice(files, at, &mut buffer[..room], &mut part)?;
        at += count as u64;
    }
    Ok(part)
}

/// Reads bytes of the open file from a place below its size, and appends them to the part. It answers how many came.
fn append_slice<F: Files>(
    files: &mut F,
    at: u64,
    buffer: &mut [u8],
    part: &mut Vec<u8>,
) -> Result<usize, PlaceFault>
    requires is_open { IsTrue (F.view files.old).is_open }
    requires below { IfSome (F.view files.old).measured (λ size. at < size) }
    requires measured { IsSome (F.view files.old).measured }
    requires told { IfSome (F.view files.old).bytes (λ bytes. at < length bytes) }
    requires room { 0 < length buffer.old }
    ensures ok { IfOk result (λ count. AppendsSlice at count (length buffer.old) (F.view files.old) (F.view files.new) part.old.items part.new.items) }
    ensures failed { IfErr result (λ fault. StopsWithin (length buffer.old) (F.view files.old) (F.view files.new) fault) }
    ensures calls { FilesTrace (F.view files.old) (F.view files.new) }
    ensures sure { NoneDue (F.view files.old).listed (F.view files.old).counts.calls → IfErr result (λ fault. fault ≢ FileFault) }
{
    let count = read_slice(files, at, buffer)?;
    part.extend_from_slice(&buffer[..count])?;
    Ok(count)
}

/// Reads bytes of the open file from a place below its size, and answers how many: one at least. They stand at the front of
/// the buffer. After an `Err` none was handed out.
pub fn read_slice<F: Files>(files: &mut F, at: u64, buffer: &mut [u8]) -> Result<usize, PlaceFault>
    requires is_open { IsTrue (F.view files.old).is_open }
    requires below { IfSome (F.view files.old).measured (λ size. at < size) }
    requires measured { IsSome (F.view files.old).measured }
    requires told { IfSome (F.view files.old).bytes (λ bytes. at < length bytes) }
    requires room { 0 < length buffer.old }
    ensures ok { IfOk result (λ count. ReadsSlice at count buffer.new (F.view files.old) (F.view files.new)) }
    ensures failed { IfErr result (λ fault. StopsAfter 0 (F.view files.old) (F.view files.new) fault) }
    ensures calls { FilesTrace (F.view files.old) (F.view files.new) }
    ensures sure { NoneDue (F.view files.old).listed (F.view files.old).counts.calls → IfErr result (λ fault. fault ≢ FileFault) }
{
    let count = files.read_at(at, buffer)?;
    if count == 0 {
        return Err(PlaceFault::FileShort { at });
    }
    Ok(count)
}
