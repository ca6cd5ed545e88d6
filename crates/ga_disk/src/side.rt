ghost use Rattle.std.specs.Prelude.{◌≡◌, ℕ, ◌+◌, ◌<◌, ◌≤◌, ◌^◌, [], List, length, slice_index, vec_capacity, OnOk, OnErr};
ghost use Rattle.std.specs.List.{list_any};
ghost use Rattle.ga_disk.specs.Disk.{max_size, written};
ghost use Rattle.ga_disk.specs.SideState.{fresh, is_unsure, is_within, synced, writes, cuts};
ghost use Rattle.ga_disk.specs.Pick as left;
ghost use Rattle.ga_disk.specs.Pick.{is_long, byte_left, bytes_left, used_for, unsure_below};

use crate::Span;
use ga_base::NoMemory;
use std::alloc::Global;
use std::marker::Model;

/// One side of a disk in memory.
///
/// Both rows of bytes keep room for the greatest length since the last sync, so that a crash takes no memory.
#[derive(Debug, Drop)]
pub struct Side {
    /// What it held when the disk was made or last crashed.
    start: Vec<u8>,
    bytes: Vec<u8>,
    /// The ranges that were written or cut off since the last sync.
    changed: Vec<Span>,
    /// The length at the last sync, and the least and the greatest since.
    synced: usize,
    least: usize,
    most: usize,
}

impl Model for Side {
    ghost use Rattle.std.specs.Prelude.{◌≤◌, vec_len, vec_capacity};
    ghost use Rattle.ga_disk.specs.Disk.{max_size};
    ghost use Rattle.ga_disk.specs.SideState.{MemSide};

    ghost Value = { MemSide };

    ghost view = { λ s. record {
      start = s.start.items;
      state = record {
        bytes = s.bytes.items;
        changed = s.changed.items;
        synced = s.synced;
        least = s.least;
        most = s.most;
      };
    } };

    ghost invariant = { λ s. (s.least ≤ s.most) × (vec_len s.bytes ≤ s.most) × (s.most ≤ max_size)
        × (s.most ≤ vec_capacity s.bytes) × (s.most ≤ vec_capacity s.start) };
}

impl Side {
    /// A side that holds nothing.
    pub fn new(alloc: Global) -> Side
        ensures { result ≡ fresh [] }
    {
        Side {
            start: Vec::new(alloc),
            bytes: Vec::new(alloc),
            changed: Vec::new(alloc),
            synced: 0,
            least: 0,
            most: 0,
        }
    }

    /// What a read gives.
    pub fn bytes(&self) -> &[u8]
        ensures value { result.now ≡ self.now.state.bytes }
        ensures size { length result.now ≤ max_size }
    {
        &self.bytes
    }

    /// Writes over the bytes from a place on, and past the end. After an `Err` the side is as it was.
    pub fn write(&mut self, at: usize, piece: &[u8]) -> Result<(), NoMemory>
        requires within { at ≤ length self.old.state.bytes }
        requires fits { at + length piece.now ≤ max_size }
        ensures ok { OnOk result (self.new ≡ record self.old { state = writes at piece.now self.old.state }) }
        ensures err { OnErr result (self.new ≡ self.old) }
    {
        let end = at + piece.len();
        self.changed.reserve(1)?;
        self.bytes.reserve(end.saturating_sub(self.bytes.len()))?;
        self.start.reserve(end.saturating_sub(self.start.len()))?;
        put(&mut self.bytes, at, piece);
        self.changed.push(Span { start: at, end }).unwrap();
        self.most = self.most.max(end);
        Ok(())
    }

    /// Cuts it to a length. After an `Err` it is as it was.
    pub fn cut(&mut self, len: usize) -> Result<(), NoMemory>
        ensures ok { OnOk result (self.new ≡ record self.old { state = cuts len self.old.state }) }
        ensures err { OnErr result (self.new ≡ self.old) }
    {
        let end = self.bytes.len();
        self.changed.push(Span { start: len, end })?;
        self.bytes.truncate(len);
        self.least = self.least.min(len);
        Ok(())
    }

    /// Takes all its bytes as synced.
    pub fn sync(&mut self)
        ensures { self.new ≡ record self.old { state = synced self.old.state.bytes } }
    {
        self.changed.clear();
        self.synced = self.bytes.len();
        self.least = self.bytes.len();
        self.most = self.bytes.len();
    }

    /// Leaves the image of a crash for a pick of which this many bytes were used before, and answers how many are used then.
    pub fn crash(&mut self, pick: &[u8], used: u64) -> u64
        requires { used ≤ max_size }
        ensures left { self.new ≡ fresh (bytes_left pick.now used self.old.state) }
        ensures used { result ≡ used + used_for pick.now self.old.state }
        ensures few { result ≤ used + max_size }
    {
        let len = self.length_left(pick);
        self.bytes.resize(len, 0).unwrap();
        let used = scramble(&mut self.bytes, &self.changed, self.synced, pick, used);
        self.start.clear();
        self.start.extend_from_slice(&self.bytes).unwrap();
        self.sync();
        used
    }

    /// The length that a crash leaves for a pick.
    fn length_left(&self, pick: &[u8]) -> usize
        ensures value { result ≡ left.length_left pick.now self.now.state }
        ensures within { result ≤ self.now.state.most }
    {
        if is_long(pick) { self.most } else { self.least }
    }
}

/// Whether a crash leaves the greatest length for a pick, and not the least.
fn is_long(pick: &[u8]) -> bool
    ensures { result ≡ left.is_long pick.now }
{
    match pick {
        [] => true,
        [first, ..] => *first % 2 == 1,
    }
}

/// Whether a crash may leave any byte at a place.
fn is_unsure(changed: &[Span], synced: usize, at: usize) -> bool
    ensures { result ≡ is_unsure changed.now synced at }
{
    synced <= at || is_changed(changed, at)
}

/// Whether a place lies in a changed range.
fn is_changed(changed: &[Span], at: usize) -> bool
    ensures { result ≡ list_any (is_within at) changed.now }
{
    changed.iter().any(|span| span.holds(at))
}

/// Writes over bytes that have the room for it.
fn put(bytes: &mut Vec<u8>, at: usize, piece: &[u8])
    requires within { at ≤ length bytes.old.items }
    requires room { at + length piece.now ≤ vec_capacity bytes.old }
    ensures items { bytes.new.items ≡ written at piece.now bytes.old.items }
    ensures capacity { vec_capacity bytes.old ≤ vec_capacity bytes.new }
{
    let shared = piece.len().min(bytes.len() - at);
    bytes[at..at + shared].copy_from_slice(&piece[..shared]);
    bytes.extend_from_slice(&piece[shared..]).unwrap();
}

/// The byte of a pick with this number, the pick being taken round and round; without a pick the byte stays.
fn picked_byte(pick: &[u8], number: u64, byte: u8) -> u8
    ensures { result ≡ left.picked pick.now number byte }
{
    if pick.is_empty() {
        return byte;
    }
    pick[(number % pick.len() as u64) as usize]
}

/// Puts the next byte of the pick at each unsure place, and answers how many are used then.
fn scramble(bytes: &mut [u8], changed: &[Span], synced: usize, pick: &[u8], used: u64) -> u64
    requires { used + length bytes.old < 2 ^ 64 }
    ensures bytes { (i : ℕ) → i < length bytes.old
        → slice_index bytes.new i ≡ byte_left pick.now used changed.now synced bytes.old i }
    ensures used { result ≡ used + unsure_below changed.now synced (length bytes.old) }
{
    let mut next = used;
    for at in 0..bytes.len() {
        if is_unsure(changed, synced, at) {
            bytes[at] = picked_byte(pick, next, bytes[at]);
            next += 1;
        }
    }
    next
}
