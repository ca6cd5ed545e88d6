ghost use Rattle.std.specs.Prelude.{◌≡◌, ◌↔◌, ◌≤◌, ℕ, true, IsTrue, List, length};
ghost use Rattle.sha2.specs.Hashers.{Holds256};
ghost use Rattle.sha2.specs.Sha256.{sha256};
ghost use Rattle.ga_codec.specs.Spelling.{eight_bytes};
ghost use Rattle.ga_store.specs.Steps.SideParts.{SaysDigest, SaysGate, SaysSize};
ghost use Rattle.ga_store.specs.Steps.Stream.{IsOf, Streams, left};

use crate::StoreFault;
use crate::side_stream::SideStream;
use ga_disk::Disk;
use sha2::{Digest, Sha256};

/// The byte of an open gate.
pub(crate) const OPEN: u8 = 0x4f;

/// The number of bytes in front of a part's body: those of its length.
pub(crate) const LENGTH: usize = 8;

/// The number of bytes of a digest.
const DIGEST: usize = 32;

/// The number of bytes of a part beside its body: the length in front, and the digest after.
pub(crate) const FRAME: usize = LENGTH + DIGEST;

/// Whether the gate that comes next is open: its byte says so, and the side goes on after it. Nothing is taken.
pub(crate) fn is_open<D: Disk>(disk: &mut D, stream: &mut SideStream) -> Result<bool, StoreFault>
    requires open { IsTrue (D.view disk.old).is_open }
    requires told { IsOf stream.old (D.view disk.old).seen }
    ensures { Streams (D.view disk.old) (D.view disk.new) (D.images disk.old) (D.images disk.new) stream.old stream.new
        (SaysGate stream.new) result }
{
    stream.load(disk, 2)?;
    let window = stream.window();
    Ok(window.len() > 1 && window[0] == OPEN)
}

/// Takes an open gate and the number of bytes of the body after it; None where the side has no room for such a part.
pub(crate) fn take_size<D: Disk>(
    disk: &mut D,
    stream: &mut SideStream,
) -> Result<Option<u64>, StoreFault>
    requires open { IsTrue (D.view disk.old).is_open }
    requires told { IsOf stream.old (D.view disk.old).seen }
    requires gate { 1 ≤ length stream.old.window }
    ensures { Streams (D.view disk.old) (D.view disk.new) (D.images disk.old) (D.images disk.new) stream.old stream.new
        (SaysSize stream.new) result }
{
    stream.take(1);
    stream.load(disk, LENGTH)?;
    let Some((front, _)) = stream.window().split_first_chunk::<LENGTH>() else {
        return Ok(None);
    };
    let size = number(front);
    stream.take(LENGTH);
    if u128::from(stream.left()) < u128::from(size) + DIGEST as u128 {
        return Ok(None);
    }
    Ok(Some(size))
}

/// The number that eight bytes are.
fn number(front: &[u8; LENGTH]) -> u64
    ensures { eight_bytes result ≡ front.now }
{
    u64::from_be_bytes(*front)
}

/// Takes the digest after a body, and answers whether it is that of the bytes that were digested.
pub(crate) fn take_digest<D: Disk>(
    disk: &mut D,
    stream: &mut SideStream,
    hasher: Sha256,
) -> Result<bool, StoreFault>
    requires open { IsTrue (D.view disk.old).is_open }
    requires told { IsOf stream.old (D.view disk.old).seen }
    requires room { 32 ≤ left stream.old }
    ensures { Streams (D.view disk.old) (D.view disk.new) (D.images disk.old) (D.images disk.new) stream.old stream.new
        (SaysDigest hasher) result }
{
    stream.load(disk, DIGEST)?;
    let Some((digest, _)) = stream.window().split_first_chunk::<DIGEST>() else {
        return Ok(false);
    };
    let is_same = is_digest(hasher, digest);
    stream.take(DIGEST);
    Ok(is_same)
}

/// Whether this is the digest of the bytes that were digested.
fn is_digest(hasher: Sha256, digest: &[u8; DIGEST]) -> bool
    ensures { (message : List ℕ) → Holds256 hasher message → (result ≡ true) ↔ (digest.now ≡ sha256 message) }
{
    hasher.finalize() == *digest
}
