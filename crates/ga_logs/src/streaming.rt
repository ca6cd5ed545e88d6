ghost use Rattle.std.specs.Prelude.{◌≡◌, ◌≢◌, ◌-◌, ◌+◌, ◌<◌, ◌≤◌, ◌++◌, ◌^◌, ℕ, List, [], true, false, IfOk, IfErr, IfSome, IsSome, IsTrue, OnOk, length};
ghost use Rattle.ga_batches.specs.Batches.{Holds, held};
ghost use Rattle.ga_line.specs.Lines.{lines};
ghost use Rattle.ga_logs.specs.Steps.Streaming.{Adds, CanFeed, CanFill, CountsPart, CountsTaken, FeedsFront, FeedsPart, FillsBehind, FillsOrStops, FillsPart, HasCountedSome};
ghost use Rattle.ga_logs.specs.Streams.{IsWithin};
ghost use Rattle.ga_counters.specs.Counts.{NoneDue};
ghost use Rattle.ga_ports.specs.Trace.{FilesTrace};
ghost use Rattle.ga_resume.specs.ReadPart.{StopsWithin};
ghost use Rattle.ga_resume.specs.declared.fault.PlaceFault.TheVariants.{FileFault};
ghost use Rattle.ga_workers.specs.Workers.{AreWorkers};

use crate::counting::Counting;
use crate::streams::{count_taken, end};
use ga_base::NoMemory;
use ga_batches::Batcher;
use ga_ports::laws::files_stay;
use ga_ports::{Files, Gate};
use ga_resume::{PlaceFault, read_slice, slice_buffer};
use ga_workers::{Crew, JOB_BATCH};
use std::alloc::Global;
use std::thread::Threads;

/// A part of the open file.
#[derive(Clone, Copy)]
pub(crate) struct Part {
    /// Where it begins.
    pub(crate) from: u64,
    /// Where it ends: at the size that the log answered.
    pub(crate) to: u64,
}

/// Counts the lines of a text, the last also where no line feed ends it.
pub(crate) fn count_text<R: Threads + Sync, G: Gate>(
    crew: &Crew<'_, R, G>,
    text: &[u8],
    counting: &mut Counting,
) -> Result<(), NoMemory>
    requires { AreWorkers crew.now.workers }
    ensures { OnOk result (Adds crew.now.setup.now (lines text.now true) counting.old counting.new) }
{
    let mut batcher = counting.batcher(crew.alloc)?;
    feed_text(crew, text, counting, &mut batcher)?;
    end(crew, text.len() as u64, counting, &mut batcher, true)?;
    Ok(())
}

/// Feeds a text to a batcher, and counts each batch but the last while the next is fed.
fn feed_text<R: Threads + Sync, G: Gate>(
    crew: &Crew<'_, R, G>,
    text: &[u8],
    counting: &mut Counting,
    batcher: &mut Batcher,
) -> Result<(), NoMemory>
    requires workers { AreWorkers crew.now.workers }
    requires going { batcher.old.is_over ≡ false }
    requires fed { batcher.old.fed ≡ 0 }
    requires limit { batcher.old.limit ≡ counting.old.start.limit }
    requires room { length (held batcher.old) < batcher.old.limit }
    ensures going { OnOk result (batcher.new.is_over ≡ false) }
    ensures limit { OnOk result (batcher.new.limit ≡ batcher.old.limit) }
    ensures start { OnOk result (counting.new.start ≡ counting.old.start) }
    ensures within { OnOk result ((before : List (List ℕ)) (stream : List ℕ) → IsWithin crew.now.setup.now before stream counting.old batcher.old
        → IsWithin crew.now.setup.now before (stream ++ text.now) counting.new batcher.new) }
{
    let size = text.len() as u64;
    let mut taken = Vec::new(crew.alloc);
    let mut at = 0;
    while at < text.len() {
        let (counted, fed) = feed_and_count(crew, size, &text[at..], counting, &taken, batcher);
        counted?;
        at += fed as usize;
        batcher.take_into(&mut taken)?;
    }
    let (counted, ()) = count_taken(crew, size, counting, &taken, &mut || {});
    counted
}

/// Counts a batch and feeds bytes of a text from its front beside it, as many as the batcher has room for. It answers how many.
fn feed_and_count<R: Threads + Sync, G: Gate>(
    crew: &Crew<'_, R, G>,
    size: u64,
    text: &[u8],
    counting: &mut Counting,
    taken: &[u8],
    batcher: &mut Batcher,
) -> (Result<(), NoMemory>, u64)
    requires workers { AreWorkers crew.now.workers }
    requires can_feed { CanFeed text.now batcher.old }
    requires small { length taken.now ≤ counting.old.start.limit }
    ensures counts { OnOk result.0 (CountsTaken crew.now.setup.now taken.now counting.old counting.new) }
    ensures feeds { FeedsFront result.1 text.now batcher.old batcher.new }
{
    let mut feed = || -> u64
        requires { CanFeed text.now batcher.now }
        ensures { FeedsFront result text.entry.now batcher.entry.now batcher.exit.now }
    { batcher.feed(text) };
    count_taken(crew, size, counting, taken, &mut feed)
}

/// Reads a part of the open file, within the size last answered, and counts its lines: what follows the last line feed is one
/// where `keep`. It answers how many bytes of the part are those of ended lines.
pub(crate) fn count_part<R: Threads + Sync, G: Gate, F: Files>(
    crew: &Crew<'_, R, G>,
    part: Part,
    keep: bool,
    files: &mut F,
    counting: &mut Counting,
) -> Result<u64, PlaceFault>
    requires workers { AreWorkers crew.now.workers }
    requires is_open { IsTrue (F.view files.old).is_open }
    requires order { part.from ≤ part.to }
    requires measured { IsSome (F.view files.old).measured }
    requires within { IfSome (F.view files.old).measured (λ size. part.to ≤ size) }
    requires told { IfSome (F.view files.old).bytes (λ bytes. part.to ≤ length bytes) }
    requires counted { HasCountedSome crew.now.setup.now counting.old }
    ensures ok { IfOk result (CountsPart crew.now.setup.now part.from part.to keep (F.view files.old) (F.view files.new) counting.old counting.new) }
    ensures failed { IfErr result (λ fault. StopsWithin (part.to - part.from) (F.view files.old) (F.view files.new) fault) }
    ensures calls { FilesTrace (F.view files.old) (F.view files.new) }
    ensures sure { NoneDue (F.view files.old).listed (F.view files.old).counts.calls → IfErr result (λ fault. fault ≢ FileFault) }
{
    let mut buffer = slice_buffer(crew.alloc)?;
    let mut batcher = counting.batcher(crew.alloc)?;
    feed_part(crew, part, &mut buffer, files, counting, &mut batcher)?;
    let ended = end(crew, part.to, counting, &mut batcher, keep)?;
    Ok(ended)
}

/// Feeds a part of the open file to a batcher, and counts each batch but the last while the next is read.
fn feed_part<R: Threads + Sync, G: Gate, F: Files>(
    crew: &Crew<'_, R, G>,
    part: Part,
    buffer: &mut [u8],
    files: &mut F,
    counting: &mut Counting,
    batcher: &mut Batcher,
) -> Result<(), PlaceFault>
    requires workers { AreWorkers crew.now.workers }
    requires is_open { IsTrue (F.view files.old).is_open }
    requires order { part.from ≤ part.to }
    requires measured { IsSome (F.view files.old).measured }
    requires within { IfSome (F.view files.old).measured (λ size. part.to ≤ size) }
    requires told { IfSome (F.view files.old).bytes (λ bytes. part.to ≤ length bytes) }
    requires some { 0 < length buffer.old }
    requires going { batcher.old.is_over ≡ false }
    requires fed { batcher.old.fed ≡ 0 }
    requires limit { batcher.old.limit ≡ counting.old.start.limit }
    requires room { length (held batcher.old) < batcher.old.limit }
    ensures ok { OnOk result (FeedsPart crew.now.setup.now part.from part.to (F.view files.old) (F.view files.new) counting.old counting.new batcher.old batcher.new) }
    ensures failed { IfErr result (λ fault. StopsWithin (part.to - part.from) (F.view files.old) (F.view files.new) fault) }
    ensures calls { FilesTrace (F.view files.old) (F.view files.new) }
    ensures sure { NoneDue (F.view files.old).listed (F.view files.old).counts.calls → IfErr result (λ fault. fault ≢ FileFault) }
{
    // That the number of calls doesn't fall, for the proof alone.
    files_stay();
    let mut taken = Vec::new(crew.alloc);
    let mut at = part.from;
    while at < part.to {
        let rest = Part { from: at, ..part };
        at = fill_and_count(crew, rest, buffer, files, counting, &taken, batcher)?;
        batcher.take_into(&mut taken)?;
    }
    let (counted, ()) = count_taken(crew, part.to, counting, &taken, &mut || {});
    counted?;
    Ok(())
}

/// Fills the batcher from the open file, and counts the batch that was taken before. It answers up to where the file was
/// read.
fn fill_and_count<R: Threads + Sync, G: Gate, F: Files>(
    crew: &Crew<'_, R, G>,
    part: Part,
    buffer: &mut [u8],
    files: &mut F,
    counting: &mut Counting,
    taken: &[u8],
    batcher: &mut Batcher,
) -> Result<u64, PlaceFault>
    requires workers { AreWorkers crew.now.workers }
    requires can_fill { CanFill part.from part.to buffer.old (F.view files.old) batcher.old }
    requires small { length taken.now ≤ counting.old.start.limit }
    ensures ok { IfOk result (λ end. FillsBehind crew.now.setup.now part.from part.to end (F.view files.old) (F.view files.new) counting.old counting.new taken.now batcher.old batcher.new) }
    ensures failed { IfErr result (λ fault. StopsWithin (part.to - part.from) (F.view files.old) (F.view files.new) fault) }
    ensures calls { FilesTrace (F.view files.old) (F.view files.new) }
    ensures sure { NoneDue (F.view files.old).listed (F.view files.old).counts.calls → IfErr result (λ fault. fault ≢ FileFault) }
{
    let (counted, end) = side_by_side(crew, part, buffer, files, counting, taken, batcher);
    let end = end?;
    counted?;
    Ok(end)
}

/// Counts a batch and meanwhile fills the batcher: this thread, which is one of the workers, fills it before it counts.
fn side_by_side<R: Threads + Sync, G: Gate, F: Files>(
    crew: &Crew<'_, R, G>,
    part: Part,
    buffer: &mut [u8],
    files: &mut F,
    counting: &mut Counting,
    taken: &[u8],
    batcher: &mut Batcher,
) -> (Result<(), NoMemory>, Result<u64, PlaceFault>)
    requires workers { AreWorkers crew.now.workers }
    requires can_fill { CanFill part.from part.to buffer.old (F.view files.old) batcher.old }
    requires small { length taken.now ≤ counting.old.start.limit }
    ensures counts { OnOk result.0 (CountsTaken crew.now.setup.now taken.now counting.old counting.new) }
    ensures fills { FillsOrStops part.from part.to (F.view files.old) (F.view files.new) batcher.old batcher.new result.1 }
{
    let is_alone = taken.is_empty();
    let mut read = || -> Result<u64, PlaceFault>
        requires { CanFill part.from part.to buffer.now (F.view files.now) batcher.now }
        ensures { FillsOrStops part.from part.to (F.view files.entry.now) (F.view files.exit.now) batcher.entry.now batcher.exit.now result }
    { fill(part, is_alone, buffer, files, batcher) };
    count_taken(crew, part.to, counting, taken, &mut read)
}

/// Reads the open file from one place on, until the batcher is full or up to another place, by slices of at most the
/// buffer's length. Where it is alone, as no batch is counted meanwhile, it reads as much as one job takes, so that the
/// workers begin soon. It answers up to where it read: after the first place, where the batcher has room.
fn fill<F: Files>(
    part: Part,
    is_alone: bool,
    buffer: &mut [u8],
    files: &mut F,
    batcher: &mut Batcher,
) -> Result<u64, PlaceFault>
    requires { CanFill part.from part.to buffer.old (F.view files.old) batcher.old }
    ensures { FillsOrStops part.from part.to (F.view files.old) (F.view files.new) batcher.old batcher.new result }
{
    // That the number of calls doesn't fall, for the proof alone.
    files_stay();
    let mut at = part.from;
    while at < part.to && batcher.room() > 0 && !(is_alone && at - part.from >= JOB_BATCH) {
        at += fill_slice(at, part.to, buffer, files, batcher)? as u64;
    }
    Ok(at)
}

/// Feeds bytes of the open file from one place on, at most up to another, as many as the batcher has room for, and answers
/// how many: one at least.
fn fill_slice<F: Files>(
    at: u64,
    to: u64,
    buffer: &mut [u8],
    files: &mut F,
    batcher: &mut Batcher,
) -> Result<usize, PlaceFault>
    requires is_open { IsTrue (F.view files.old).is_open }
    requires order { at < to }
    requires below { IfSome (F.view files.old).measured (λ size. at < size) }
    requires measured { IsSome (F.view files.old).measured }
    requires told { IfSome (F.view files.old).bytes (λ bytes. at < length bytes) }
    requires some { 0 < length buffer.old }
    requires going { batcher.old.is_over ≡ false }
    requires countable { batcher.old.fed + (to - at) < 2 ^ 64 }
    requires room { length (held batcher.old) < batcher.old.limit }
    ensures some { IfOk result (λ count. 0 < count) }
    ensures within { IfOk result (λ count. at + count ≤ to) }
    ensures ok { IfOk result (λ count. FillsPart at (at + count) (F.view files.old) (F.view files.new) batcher.old batcher.new) }
    ensures failed { IfErr result (λ fault. StopsWithin (to - at) (F.view files.old) (F.view files.new) fault) }
    ensures calls { FilesTrace (F.view files.old) (F.view files.new) }
    ensures sure { NoneDue (F.view files.old).listed (F.view files.old).counts.calls → IfErr result (λ fault. fault ≢ FileFault) }
{
    let room = (to - at).min(batcher.room()).min(buffer.len() as u64) as usize;
    let count = read_slice(files, at, &mut buffer[..room])?;
    batcher.feed(&buffer[..count]);
    Ok(count)
}
