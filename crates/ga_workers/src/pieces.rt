ghost use Rattle.std.specs.Prelude.{◌≡◌, ◌<◌, ◌≤◌, ◌++◌, IfOk, true, drop, length, map, take, vec_len};
ghost use Rattle.ga_line.specs.Lines.{lines};
ghost use Rattle.ga_workers.specs.Steps.Drawing.{AreShort, all_lines};

use crate::Workers;
use ga_base::{LINE_FEED, NoMemory};
use ga_line::laws::lines_added;
use memchr::memchr;
use std::alloc::Global;

/// How many bytes at the end of a batch are cut finer, where there is more than one worker.
const LAST: usize = 1 << 20;

/// There a piece has one of this many lines.
const FINER: u32 = 32;

/// The lines of a batch in pieces of at most `workers.chunk` lines. Where there is more than one worker, those in its last mebibyte have
/// fewer, so that the workers are done with the batch at about the same time.
pub(crate) fn pieces_of(
    alloc: Global,
    batch: &[u8],
    workers: Workers,
) -> Result<Vec<&[u8]>, NoMemory>
    requires { 1 ≤ workers.chunk }
    ensures lines { IfOk result (λ pieces. all_lines (map (λ piece. piece.now) pieces.items) ≡ lines batch.now true) }
    ensures short { IfOk result (λ pieces. AreShort workers.chunk (map (λ piece. piece.now) pieces.items)) }
    ensures few { IfOk result (λ pieces. vec_len pieces ≤ length batch.now) }
{
    let mut pieces = Vec::new(alloc);
    let mut rest = batch;
    while !rest.is_empty() {
        let end = piece_end(rest, piece_lines(rest.len(), workers));
        pieces.push(&rest[..end])?;
        rest = &rest[end..];
    }
    Ok(pieces)
}

/// How many lines the next piece has, where this many bytes are left of the batch.
fn piece_lines(left: usize, workers: Workers) -> u32
    requires { 1 ≤ workers.chunk }
    ensures some { 1 ≤ result }
    ensures most { result ≤ workers.chunk }
    ensures alone { workers.jobs ≡ 1 → result ≡ workers.chunk }
{
    if workers.jobs == 1 || left > LAST {
        return workers.chunk;
    }
    workers.chunk / FINER + 1
}

/// Where a piece of this many lines ends: after the last line's line feed, or at the end of the bytes.
fn piece_end(bytes: &[u8], chunk: u32) -> usize
    requires chunk { 1 ≤ chunk }
    requires some { 0 < length bytes.now }
    ensures some { 0 < result }
    ensures within { result ≤ length bytes.now }
    ensures short { length (lines (take result bytes.now) true) ≤ chunk }
    ensures apart { lines bytes.now true ≡ lines (take result bytes.now) true ++ lines (drop result bytes.now) true }
{
    lines_added();
    let mut at = 0;
    for _passed in 0..chunk {
        match memchr(LINE_FEED, &bytes[at..]) {
            None => return bytes.len(),
            Some(end) => at += end + 1,
        }
    }
    at
}
