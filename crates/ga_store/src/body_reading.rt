ghost use Rattle.std.specs.Prelude.{◌≡◌, ◌+◌, ◌≤◌, ◌++◌, ◌==◌, ℕ, true, false, length, take, IfOk, OnOk, IsErrOf, IsTrue};
ghost use Rattle.ga_codec.specs.Pieces.{BeginsNone, front_bytes, is_full};
ghost use Rattle.ga_codec.specs.declared.fault.CodecFault.{CodecFault};
ghost use Rattle.ga_store.specs.Steps.Bodies.{IsHashed, PieceRead, SaysDelta, SaysNext, SaysRows, SaysSnapshot};
ghost use Rattle.ga_store.specs.Steps.SideParts.{SaysRest};
ghost use Rattle.ga_store.specs.Steps.Stream.{IsOf, Streams, left};

use crate::StoreFault;
use crate::body_digest::BodyDigest;
use crate::hands::Hands;
use crate::side_parts::take_digest;
use crate::side_stream::SideStream;
use ga_codec::{BodyReader, CodecFault, Delta, Snapshot};
use ga_disk::Disk;

/// The body of a part, which is read and digested as it comes: a piece is digested while the next one is read.
#[derive(Debug, Drop)]
pub(crate) struct OpenBody {
    /// What was read of it.
    pub(crate) reader: BodyReader,
    /// The digest of that.
    pub(crate) digest: BodyDigest,
    /// How many bytes are left of it.
    pub(crate) left: u64,
}

/// Reads on in a body at the front of a piece of it, and answers how many bytes that took.
pub(crate) fn read_piece<H: Hands>(
    hands: &H,
    body: &mut OpenBody,
    piece: &[u8],
) -> Result<usize, CodecFault>
    requires hashed { IsHashed body.old }
    requires within { length piece.now ≤ body.old.left }
    ensures read { IfOk result (λ count. PieceRead count piece.now body.old body.new) }
    ensures last { OnOk result (length piece.now ≡ body.old.left → is_full body.new.reader ≡ true) }
    ensures refused { (at : ℕ) → IsErrOf result (CodecFault.NotInGrammar at)
        → BeginsNone body.old.reader.is_snapshot (length piece.now == body.old.left) (front_bytes body.old.reader ++ piece.now) }
{
    let is_last = piece.len() as u64 == body.left;
    let count = hands.read_and_digest(&mut body.reader, &mut body.digest, piece, is_last)?;
    body.digest.keep(&piece[..count])?;
    body.left -= count as u64;
    Ok(count)
}

/// Reads on in a body as far as the next slices go, and answers whether what they have may be in one.
pub(crate) fn read_next<H: Hands, D: Disk>(
    hands: &H,
    disk: &mut D,
    stream: &mut SideStream,
    body: &mut OpenBody,
) -> Result<bool, StoreFault>
    requires open { IsTrue (D.view disk.old).is_open }
    requires told { IsOf stream.old (D.view disk.old).seen }
    requires hashed { IsHashed body.old }
    requires room { body.old.left + 32 ≤ left stream.old }
    ensures { Streams (D.view disk.old) (D.view disk.new) (D.images disk.old) (D.images disk.new) stream.old stream.new
        (SaysNext stream.old stream.new body.old body.new) result }
{
    let want = stream.window().len().saturating_mul(2).saturating_add(1);
    stream.load(disk, want)?;
    let window = stream.window();
    let piece = &window[..(window.len() as u64).min(body.left) as usize];
    match read_piece(hands, body, piece) {
        Ok(count) => {
            stream.take(count);
            Ok(true)
        }
        Err(CodecFault::NotInGrammar { .. }) => Ok(false),
        Err(CodecFault::NoMemory) => Err(StoreFault::NoMemory),
    }
}

/// Reads all rows of a body, and answers whether they may be those of one.
pub(crate) fn read_rows<H: Hands, D: Disk>(
    hands: &H,
    disk: &mut D,
    stream: &mut SideStream,
    body: &mut OpenBody,
) -> Result<bool, StoreFault>
    requires open { IsTrue (D.view disk.old).is_open }
    requires told { IsOf stream.old (D.view disk.old).seen }
    requires hashed { IsHashed body.old }
    requires room { body.old.left + 32 ≤ left stream.old }
    ensures { Streams (D.view disk.old) (D.view disk.new) (D.images disk.old) (D.images disk.new) stream.old stream.new
        (SaysRows stream.new body.old body.new) result }
{
    while !body.reader.is_full() {
        if !read_next(hands, disk, stream, body)? {
            return Ok(false);
        }
    }
    Ok(true)
}

/// The snapshot whose rows were read, where what follows them goes with them, and the digest with all.
pub(crate) fn finish_snapshot<H: Hands, D: Disk>(
    hands: &H,
    disk: &mut D,
    stream: &mut SideStream,
    body: OpenBody,
) -> Result<Option<Snapshot>, StoreFault>
    requires open { IsTrue (D.view disk.old).is_open }
    requires told { IsOf stream.old (D.view disk.old).seen }
    requires kind { body.reader.is_snapshot ≡ true }
    requires full { is_full body.reader ≡ true }
    requires hashed { IsHashed body }
    requires room { body.left + 32 ≤ left stream.old }
    ensures { Streams (D.view disk.old) (D.view disk.new) (D.images disk.old) (D.images disk.new) stream.old stream.new
        (SaysSnapshot stream.new body) result }
{
    let OpenBody {
        reader,
        digest,
        left,
    } = body;
    let size = left as usize;
    stream.load(disk, size)?;
    let rest = &stream.window()[..size];
    let snapshot = match reader.finish_snapshot(hands.alloc(), rest) {
        Ok(snapshot) => snapshot,
        Err(CodecFault::NotInGrammar { .. }) => return Ok(None),
        Err(CodecFault::NoMemory) => return Err(StoreFault::NoMemory),
    };
    if take_rest(disk, stream, digest, size)? {
        Ok(Some(snapshot))
    } else {
        Ok(None)
    }
}

/// The same of a run record.
pub(crate) fn finish_delta<H: Hands, D: Disk>(
    hands: &H,
    disk: &mut D,
    stream: &mut SideStream,
    body: OpenBody,
) -> Result<Option<Delta>, StoreFault>
    requires open { IsTrue (D.view disk.old).is_open }
    requires told { IsOf stream.old (D.view disk.old).seen }
    requires kind { body.reader.is_snapshot ≡ false }
    requires full { is_full body.reader ≡ true }
    requires hashed { IsHashed body }
    requires room { body.left + 32 ≤ left stream.old }
    ensures { Streams (D.view disk.old) (D.view disk.new) (D.images disk.old) (D.images disk.new) stream.old stream.new
        (SaysDelta stream.new body) result }
{
    let OpenBody {
        reader,
        digest,
        left,
    } = body;
    let size = left as usize;
    stream.load(disk, size)?;
    let rest = &stream.window()[..size];
    let delta = match reader.finish_delta(hands.alloc(), rest) {
        Ok(delta) => delta,
        Err(CodecFault::NotInGrammar { .. }) => return Ok(None),
        Err(CodecFault::NoMemory) => return Err(StoreFault::NoMemory),
    };
    if take_rest(disk, stream, digest, size)? {
        Ok(Some(delta))
    } else {
        Ok(None)
    }
}

/// Takes the rest of a body, which is in the window, and its digest, and answers whether that is the digest of what was
/// read and the rest.
fn take_rest<D: Disk>(
    disk: &mut D,
    stream: &mut SideStream,
    digest: BodyDigest,
    size: usize,
) -> Result<bool, StoreFault>
    requires open { IsTrue (D.view disk.old).is_open }
    requires told { IsOf stream.old (D.view disk.old).seen }
    requires loaded { size ≤ length stream.old.window }
    requires room { size + 32 ≤ left stream.old }
    ensures { Streams (D.view disk.old) (D.view disk.new) (D.images disk.old) (D.images disk.new) stream.old stream.new
        (SaysRest digest (take size stream.old.window)) result }
{
    let hasher = digest.finish(&stream.window()[..size]);
    stream.take(size);
    take_digest(disk, stream, hasher)
}
