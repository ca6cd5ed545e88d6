ghost use Rattle.std.specs.Prelude.{◌≡◌, ◌+◌, ◌*◌, ◌<◌, ◌≤◌, ◌^◌, ◌∷◌, [], ℕ, length, IfOk, IfErr, MatchResult, drop};
ghost use Rattle.std.specs.Int.{w16, w32, w64};
ghost use Rattle.ga_codec.specs.declared.fault.CodecFault.TheVariants.{NotInGrammar};
ghost use Rattle.ga_codec.specs.Steps.Parts.{Reads, Cursor as TheCursor};
ghost use Rattle.ga_codec.specs.Steps.Grammar.{any_bytes, number};

use crate::CodecFault;
use std::marker::Model;

/// Bytes that are read from the front, part by part. After a fault it is of no more use.
#[derive(Debug, Drop)]
pub(crate) struct Cursor<'a> {
    /// How many bytes were read.
    place: u64,
    /// Those that are left.
    rest: &'a [u8],
}

impl<'a> Model for Cursor<'a> {
    ghost use Rattle.std.specs.Prelude.{ℕ, ◌+◌, ◌<◌, ◌^◌, length, slice_index};
    ghost use Rattle.ga_codec.specs.Steps.Parts.{Cursor};

    ghost Value = { Cursor };

    ghost view = { λ c. record { place = c.place; rest = c.rest.now } };

    ghost invariant = { λ c. (c.place + length c.rest.now < 2 ^ 64) × ((i : ℕ) → slice_index c.rest.now i < 256) };
}

impl<'a> Cursor<'a> {
    /// At the front of the bytes.
    pub(crate) fn of(bytes: &'a [u8]) -> Cursor<'a>
        ensures { result ≡ record { place = 0; rest = bytes.now } }
    {
        Cursor {
            place: 0,
            rest: bytes,
        }
    }

    /// How many bytes were read.
    pub(crate) fn place(&self) -> u64
        ensures { result ≡ self.now.place }
    {
        self.place
    }

    /// The place after the bytes that are left.
    pub(crate) fn end(&self) -> u64
        ensures { result ≡ self.now.place + length self.now.rest }
    {
        self.place + self.rest.len() as u64
    }

    /// The bytes that are left.
    pub(crate) fn rest(&self) -> &'a [u8]
        ensures rest { result.now ≡ self.now.rest }
        ensures room { self.now.place + length self.now.rest < 2 ^ 64 }
    {
        self.rest
    }

    /// Room for this many items of at least `size` bytes each, and for no more than the bytes that are left could hold.
    pub(crate) fn room(&self, count: u64, size: usize) -> usize
        requires { 1 ≤ size }
        ensures held { result * size ≤ length self.now.rest }
        ensures few { result ≤ count }
    {
        count.min((self.rest.len() / size) as u64) as usize
    }

    /// The fault of which the first `read` bytes that are left are no part.
    pub(crate) fn fault(&self, read: usize) -> CodecFault
        requires { read ≤ length self.now.rest }
        ensures { result ≡ CodecFault.NotInGrammar (self.now.place + read) }
    {
        CodecFault::NotInGrammar {
            at: self.place + read as u64,
        }
    }

    /// The fault of bytes that end too early.
    pub(crate) fn fault_at_end(&self) -> CodecFault
        ensures { result ≡ CodecFault.NotInGrammar (self.now.place + length self.now.rest) }
    {
        self.fault(self.rest.len())
    }

    /// The next byte, which is not yet read.
    pub(crate) fn peek(&self) -> Result<u8, CodecFault>
        ensures { MatchResult result (λ byte. self.now.rest ≡ byte ∷ drop 1 self.now.rest)
            (λ fault. (self.now.rest ≡ []) × (fault ≡ CodecFault.NotInGrammar self.now.place)) }
    {
        match self.rest {
            [byte, ..] => Ok(*byte),
            [] => Err(self.fault(0)),
        }
    }

    /// Reads over this many bytes.
    pub(crate) fn skip(&mut self, count: usize)
        requires { count ≤ length self.old.rest }
        ensures { self.new ≡ record { place = self.old.place + count; rest = drop count self.old.rest } }
    {
        self.place += count as u64;
        self.rest = &self.rest[count..];
    }

    /// Reads `N` bytes.
    pub(crate) fn read_array<const N: usize>(&mut self) -> Result<[u8; N], CodecFault>
        ensures { Reads (any_bytes N) (λ bytes. bytes) self.old self.new result }
    {
        match self.rest.first_chunk::<N>() {
            Some(front) => {
                self.skip(N);
                Ok(*front)
            }
            None => Err(self.fault_at_end()),
        }
    }

    /// Reads a number of two bytes.
    pub(crate) fn read_u16(&mut self) -> Result<u16, CodecFault>
        ensures { Reads (number w16) (λ n. n) self.old self.new result }
    {
        Ok(u16::from_be_bytes(self.read_array()?))
    }

    /// Reads a number of four bytes.
    pub(crate) fn read_u32(&mut self) -> Result<u32, CodecFault>
        ensures { Reads (number w32) (λ n. n) self.old self.new result }
    {
        Ok(u32::from_be_bytes(self.read_array()?))
    }

    /// Reads a number of eight bytes.
    pub(crate) fn read_u64(&mut self) -> Result<u64, CodecFault>
        ensures { Reads (number w64) (λ n. n) self.old self.new result }
    {
        Ok(u64::from_be_bytes(self.read_array()?))
    }
}
