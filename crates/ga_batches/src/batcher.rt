ghost use Rattle.std.specs.Prelude.{◌≡◌, ◌≤◌, ◌<◌, ◌+◌, ◌^◌, ◌++◌, ℕ, List, [], IfOk, OnErr, OnOk, IsTrue, ◌↔◌, true, false, length, min, take, ◌-◌, if◌then◌else◌};
ghost use Rattle.std.specs.List.{Contains};
ghost use Rattle.std.specs.Vec.{vec_capacity};
ghost use Rattle.ga_base.specs.declared.limits.TheConstants.{LINE_FEED, MAX_BATCH};
ghost use Rattle.ga_batches.specs.Lines.{cut_lines};
ghost use Rattle.ga_batches.specs.Batches.{Feeds, Holds, HoldsLast, IsBatcher, IsFull, fresh, held};
ghost use Rattle.ga_batches.specs.Steps.{GoesOn, with_line_ended};

use ga_base::{LINE_FEED, NoMemory};
use memchr::memchr;
use std::alloc::Global;
use std::marker::Model;
use std::mem;

/// How many bytes of a line are held, without its line feed: two more than a line may have that is read, one of them for a
/// carriage return.
pub const LINE_HELD: usize = 65_537;

/// The least number of bytes that a batcher can hold.
pub const LEAST_LIMIT: u64 = 1_048_576;

/// Whole lines of a stream, and the line that is begun after them.
#[derive(Drop)]
pub struct Batcher {
    /// The bytes of the whole lines, and then what is held of the begun line. Its room is taken at the beginning.
    bytes: Vec<u8>,
    /// Where in `bytes` the begun line begins.
    begun: usize,
    /// How many bytes can be held.
    limit: usize,
    /// How many bytes were fed.
    fed: u64,
    /// How many bytes were fed up to and with the last line feed.
    ended: u64,
    /// The stream is at its end.
    is_over: bool,
}

impl Model for Batcher {
    ghost use Rattle.std.specs.Prelude.{◌≤◌, take, drop, vec_len};
    ghost use Rattle.std.specs.Vec.{vec_capacity};
    ghost use Rattle.ga_batches.specs.Batches.{BatcherSeen, IsBatcher};

    ghost Value = { BatcherSeen };

    ghost view = { λ b. record {
      batch = take b.begun b.bytes.items;
      begun = drop b.begun b.bytes.items;
      fed = b.fed;
      ended = b.ended;
      limit = b.limit;
      is_over = b.is_over;
    } };

    ghost invariant = { λ b. (b.begun ≤ vec_len b.bytes) × (b.limit ≤ vec_capacity b.bytes) × IsBatcher record {
      batch = take b.begun b.bytes.items;
      begun = drop b.begun b.bytes.items;
      fed = b.fed;
      ended = b.ended;
      limit = b.limit;
      is_over = b.is_over;
    } };
}

impl Batcher {
    /// A batcher that holds up to `limit` bytes, which is `LEAST_LIMIT` to `MAX_BATCH`. All its memory is taken here.
    pub fn new(alloc: Global, limit: u64) -> Result<Batcher, NoMemory>
        requires least { LEAST_LIMIT ≤ limit }
        requires most { limit ≤ MAX_BATCH }
        ensures fresh { IfOk result (λ b. b ≡ fresh limit) }
        ensures stream { IfOk result (λ b. Holds [] [] b) }
    {
        let limit = limit as usize;
        Ok(Batcher {
            bytes: Vec::with_capacity(alloc, limit)?,
            begun: 0,
            limit,
            fed: 0,
            ended: 0,
            is_over: false,
        })
    }

    /// The whole lines held, each with its line feed. A line of more than `LINE_HELD` bytes stands as this many of its first.
    pub fn batch(&self) -> &[u8]
        ensures value { result.now ≡ self.now.batch }
        ensures batcher { IsBatcher self.now }
    {
        &self.bytes[..self.begun]
    }

    /// Whether it holds as many bytes as it can, so that the batch is to be taken before more is fed.
    pub fn is_full(&self) -> bool
        ensures { IsTrue result ↔ IsFull self.now }
    {
        self.bytes.len() == self.limit
    }

    /// How many bytes it can take before it is full, at least.
    pub fn room(&self) -> u64
        ensures { length (held self.now) + result ≡ self.now.limit }
    {
        (self.limit - self.bytes.len()) as u64
    }

    /// How many bytes were fed up to and with the last line feed.
    pub fn ended(&self) -> u64
        ensures { result ≡ self.now.ended }
    {
        self.ended
    }

    /// Takes bytes from the front of the piece, and answers how many: all of them, or as many as make the batcher full. The
    /// conditions are that the stream isn't over and that its length stays below 2^64. No memory is taken.
    pub fn feed(&mut self, piece: &[u8]) -> u64
        requires going { self.old.is_over ≡ false }
        requires countable { self.old.fed + length piece.now < 2 ^ 64 }
        ensures batcher { IsBatcher self.new }
        ensures within { result ≤ length piece.now }
        ensures feeds { Feeds (take result piece.now) self.old self.new }
        // It takes fewer bytes only where it is full, and it was full at no place before.
        ensures all { result < length piece.now → IsFull self.new }
        ensures before { (n : ℕ) → n < result → length (cut_lines (held self.old ++ take n piece.now)) < self.old.limit }
        ensures moves { length (held self.old) < self.old.limit → 0 < length piece.now → 0 < result }
        // What it has room for it takes whole.
        ensures whole { length (held self.old) + length piece.now ≤ self.old.limit → result ≡ length piece.now }
        ensures stream { (stream taken : List ℕ) → Holds stream taken self.old → Holds (stream ++ take result piece.now) taken self.new }
    {
        self.recall_invariant();
        let mut at = 0;
        while at < piece.len() && !self.is_full() {
            at += self.feed_line(&piece[at..]);
        }
        at as u64
    }

    /// Takes bytes of the first line in `piece`, with its line feed where there is one and the batcher isn't full before it.
    fn feed_line(&mut self, piece: &[u8]) -> usize
        requires going { self.old.is_over ≡ false }
        requires countable { self.old.fed + length piece.now < 2 ^ 64 }
        requires some { 0 < length piece.now }
        requires room { length (held self.old) < self.old.limit }
        ensures batcher { IsBatcher self.new }
        ensures within { result ≤ length piece.now }
        ensures feeds { Feeds (take result piece.now) self.old self.new }
        ensures before { (n : ℕ) → n < result → length (cut_lines (held self.old ++ take n piece.now)) < self.old.limit }
        ensures moves { 0 < result }
    {
        self.recall_invariant();
        match memchr(LINE_FEED, piece) {
            None => self.go_on(piece),
            Some(end) => {
                let taken = self.go_on(&piece[..end]);
                if self.is_full() {
                    return taken;
                }
                self.recall_invariant();
                self.end_line();
                end + 1
            }
        }
    }

    /// Adds bytes without a line feed to the begun line, and answers how many were taken: all, or as many as make the batcher
    /// full. Of a line that is longer than it is held the rest is passed over.
    fn go_on(&mut self, bytes: &[u8]) -> usize
        requires going { self.old.is_over ≡ false }
        requires countable { self.old.fed + length bytes.now < 2 ^ 64 }
        requires none { ¬ Contains bytes.now LINE_FEED }
        requires room { length (held self.old) < self.old.limit }
        ensures goes_on { GoesOn result bytes.now self.old self.new }
    {
        self.recall_invariant();
        let kept = self.kept_of(bytes.len());
        self.hold(&bytes[..kept]);
        let taken = self.taken_of(bytes.len(), kept);
        self.count(taken);
        taken
    }

    /// How many of this many bytes of the begun line are held: as many as its line and the batcher have room for.
    fn kept_of(&self, len: usize) -> usize
        ensures { result ≡ min (min len (LINE_HELD - length self.now.begun)) (self.now.limit - length (held self.now)) }
    {
        let line = LINE_HELD - (self.bytes.len() - self.begun);
        len.min(line).min(self.limit - self.bytes.len())
    }

    /// How many of this many bytes were taken, of which `kept` are held now: all, where the batcher isn't full.
    fn taken_of(&self, len: usize, kept: usize) -> usize
        ensures all { length (held self.now) < self.now.limit → result ≡ len }
        ensures full { self.now.limit ≤ length (held self.now) → result ≡ kept }
    {
        if self.bytes.len() < self.limit {
            len
        } else {
            kept
        }
    }

    /// Adds bytes to the begun line.
    fn hold(&mut self, bytes: &[u8])
        requires going { self.old.is_over ≡ false }
        requires none { ¬ Contains bytes.now LINE_FEED }
        requires line { length self.old.begun + length bytes.now ≤ LINE_HELD }
        requires room { length (held self.old) + length bytes.now ≤ self.old.limit }
        ensures { self.new ≡ record self.old { begun = self.old.begun ++ bytes.now } }
    {
        self.bytes.extend_from_slice(bytes).unwrap();
    }

    /// Counts this many bytes as fed.
    fn count(&mut self, taken: usize)
        requires { self.old.fed + taken < 2 ^ 64 }
        ensures { self.new ≡ record self.old { fed = self.old.fed + taken } }
    {
        self.fed += taken as u64;
    }

    /// Ends the begun line by a line feed.
    fn end_line(&mut self)
        requires going { self.old.is_over ≡ false }
        requires countable { self.old.fed + 1 < 2 ^ 64 }
        requires room { length (held self.old) < self.old.limit }
        ensures { self.new ≡ with_line_ended self.old }
    {
        self.bytes.push(LINE_FEED).unwrap();
        self.begun = self.bytes.len();
        self.fed += 1;
        self.ended = self.fed;
    }

    /// Drops the batch, and keeps the begun line.
    pub fn take(&mut self)
        ensures value { self.new ≡ record self.old { batch = [] } }
        ensures batcher { IsBatcher self.new }
        ensures stream { (stream taken : List ℕ) → Holds stream taken self.old → Holds stream (taken ++ self.old.batch) self.new }
    {
        self.recall_invariant();
        self.drop_batch();
    }

    /// Takes the batch out into `spare`, whose bytes are dropped, and keeps the begun line: so the batch can be counted while
    /// more is fed. The two exchange their memory. Where `spare` has less than the batcher it gets as much. After an `Err` the
    /// batcher is as it was.
    pub fn take_into(&mut self, spare: &mut Vec<u8>) -> Result<(), NoMemory>
        ensures batch { OnOk result (spare.new.items ≡ self.old.batch) }
        ensures small { OnOk result (length spare.new.items ≤ MAX_BATCH) }
        ensures within { OnOk result (length spare.new.items ≤ self.old.limit) }
        ensures value { OnOk result (self.new ≡ record self.old { batch = [] }) }
        ensures batcher { IsBatcher self.new }
        ensures stream { OnOk result ((stream taken : List ℕ) → Holds stream taken self.old → Holds stream (taken ++ spare.new.items) self.new) }
        ensures err { OnErr result (self.new ≡ self.old) }
    {
        self.recall_invariant();
        spare.clear();
        spare.reserve(self.limit)?;
        self.exchange(spare);
        Ok(())
    }

    /// Leaves the batch in `spare`, and goes on in the memory of `spare` with the begun line.
    fn exchange(&mut self, spare: &mut Vec<u8>)
        requires empty { spare.old.items ≡ [] }
        requires room { self.old.limit ≤ vec_capacity spare.old }
        ensures batch { spare.new.items ≡ self.old.batch }
        ensures value { self.new ≡ record self.old { batch = [] } }
    {
        let begun = self.begun;
        spare.extend_from_slice(&self.bytes[begun..]).unwrap();
        self.bytes.truncate(begun);
        mem::swap(&mut self.bytes, spare);
        self.begun = 0;
    }

    /// Moves the begun line to the front.
    fn drop_batch(&mut self)
        ensures value { self.new ≡ record self.old { batch = [] } }
    {
        let begun = self.begun;
        self.bytes.copy_within(begun.., 0);
        self.bytes.truncate(self.bytes.len() - begun);
        self.begun = 0;
    }

    /// Ends the stream. The begun line is the last of the batch where `keep` says so, and else it is dropped.
    pub fn end(&mut self, keep: bool)
        ensures value { self.new ≡ record self.old {
          batch = if keep then held self.old else self.old.batch;
          begun = [];
          is_over = true;
        } }
        ensures batcher { IsBatcher self.new }
        ensures stream { (stream taken : List ℕ) → Holds stream taken self.old → HoldsLast stream keep taken self.new }
    {
        self.recall_invariant();
        if keep {
            self.keep_begun();
            return;
        }
        self.drop_begun();
    }

    /// Ends the stream, with the begun line as the last of the batch.
    fn keep_begun(&mut self)
        ensures value { self.new ≡ record self.old { batch = held self.old; begun = []; is_over = true } }
    {
        self.begun = self.bytes.len();
        self.is_over = true;
    }

    /// Ends the stream without the begun line.
    fn drop_begun(&mut self)
        ensures value { self.new ≡ record self.old { begun = []; is_over = true } }
    {
        self.bytes.truncate(self.begun);
        self.is_over = true;
    }

    /// What holds of each batcher, for the proofs alone: the call does nothing.
    fn recall_invariant(&self)
        ensures { IsBatcher self.now }
    {
        let _ = &self.bytes;
    }
}
