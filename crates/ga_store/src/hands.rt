ghost use Rattle.ga_store.specs.Steps.Bodies.{ReadsOn};
ghost use Rattle.ga_store.specs.Steps.SideParts.{DigestsAll};

use crate::body_digest::BodyDigest;
use ga_codec::{BodyReader, CodecFault};
use std::alloc::Global;
use std::thread::{Threads, join_mut};

/// The fewest bytes that are digested in a thread of their own.
const FEW: usize = 1 << 16;

/// How a body is read on while what was read of it before is digested.
pub(crate) trait Hands {
    /// Where memory is taken.
    fn alloc(&self) -> Global;

    /// Reads on in a body as `BodyReader::read` does, and digests the bytes that wait.
    fn read_and_digest(
        &self,
        reader: &mut BodyReader,
        digest: &mut BodyDigest,
        piece: &[u8],
        is_last: bool,
    ) -> Result<usize, CodecFault>
        ensures reads { ReadsOn piece.now is_last reader.old reader.new result }
        ensures digests { DigestsAll digest.old digest.new };
}

/// One after the other.
#[derive(Drop)]
pub(crate) struct InTurn {
    pub(crate) alloc: Global,
}

impl Hands for InTurn {
    fn alloc(&self) -> Global {
        self.alloc
    }

    fn read_and_digest(
        &self,
        reader: &mut BodyReader,
        digest: &mut BodyDigest,
        piece: &[u8],
        is_last: bool,
    ) -> Result<usize, CodecFault> {
        digest.digest_waiting();
        reader.read(self.alloc, piece, is_last)
    }
}

/// At once, where there is enough of both.
#[derive(Drop)]
pub(crate) struct AtOnce<'a, R> {
    pub(crate) rt: &'a R,
    pub(crate) alloc: Global,
}

impl<R: Threads> Hands for AtOnce<'_, R> {
    fn alloc(&self) -> Global {
        self.alloc
    }

    fn read_and_digest(
        &self,
        reader: &mut BodyReader,
        digest: &mut BodyDigest,
        piece: &[u8],
        is_last: bool,
    ) -> Result<usize, CodecFault> {
        if digest.waiting.len() < FEW || piece.len() < FEW {
            digest.digest_waiting();
            return reader.read(self.alloc, piece, is_last);
        }
        read_beside(self.rt, self.alloc, reader, digest, piece, is_last)
    }
}

/// Digests the bytes that wait in a thread of their own, where one can be made, and reads on in this one.
fn read_beside<R: Threads>(
    rt: &R,
    alloc: Global,
    reader: &mut BodyReader,
    digest: &mut BodyDigest,
    piece: &[u8],
    is_last: bool,
) -> Result<usize, CodecFault>
    ensures reads { ReadsOn piece.now is_last reader.old reader.new result }
    ensures digests { DigestsAll digest.old digest.new }
{
    let mut beside = ||
        ensures { DigestsAll digest.entry.now digest.exit.now }
    { digest.digest_waiting() };
    let mut read = || -> Result<usize, CodecFault>
        ensures { ReadsOn piece.entry.now is_last reader.entry.now reader.exit.now result }
    { reader.read(alloc, piece, is_last) };
    let (_, count) = join_mut(rt, &mut beside, &mut read);
    count
}
