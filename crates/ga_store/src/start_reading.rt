ghost use Rattle.std.specs.Prelude.{◌≡◌, ◌↔◌, true, IsTrue};
ghost use Rattle.ga_store.specs.Steps.Bodies.{IsHashed};
ghost use Rattle.ga_store.specs.Steps.Starts.{BegunGoesOn, BodyGoesOn, CanGoOn, IsLaterThan, SaysBegun, StartGoesOn};
ghost use Rattle.ga_store.specs.Steps.Stream.{IsOf, Streams};

use crate::StoreFault;
use crate::body_digest::BodyDigest;
use crate::body_reading::{OpenBody, finish_snapshot, read_next, read_rows};
use crate::found::FirstPart;
use crate::hands::Hands;
use crate::side_parts::{is_open, take_size};
use crate::side_stream::SideStream;
use crate::starts::{Begun, Start};
use ga_codec::BodyReader;
use ga_disk::Disk;

/// Reads the first slices of a side, in which the number of its snapshot stands.
pub(crate) fn begin<H: Hands, D: Disk>(
    hands: &H,
    disk: &mut D,
    stream: &mut SideStream,
) -> Result<Begun, StoreFault>
    requires open { IsTrue (D.view disk.old).is_open }
    requires told { IsOf stream.old (D.view disk.old).seen }
    ensures { Streams (D.view disk.old) (D.view disk.new) (D.images disk.old) (D.images disk.new) stream.old stream.new
        (SaysBegun stream.new) result }
{
    if !is_open(disk, stream)? {
        return Ok(Begun::Unused);
    }
    let Some(size) = take_size(disk, stream)? else {
        return Ok(Begun::Damaged);
    };
    let mut body = OpenBody {
        reader: BodyReader::of_snapshot(hands.alloc()),
        digest: BodyDigest::new(hands.alloc()),
        left: size,
    };
    if read_next(hands, disk, stream, &mut body)? {
        Ok(Begun::Body(body))
    } else {
        Ok(Begun::Damaged)
    }
}

/// Reads a start to its end. The snapshot is dropped where the other side has a later number.
pub(crate) fn finish<H: Hands, D: Disk>(
    hands: &H,
    disk: &mut D,
    stream: &mut SideStream,
    begun: Begun,
    other: Option<u64>,
) -> Result<Start, StoreFault>
    requires open { IsTrue (D.view disk.old).is_open }
    requires told { IsOf stream.old (D.view disk.old).seen }
    requires good { BegunGoesOn begun stream.old }
    ensures { Streams (D.view disk.old) (D.view disk.new) (D.images disk.old) (D.images disk.new) stream.old stream.new
        (StartGoesOn stream.old stream.new begun other) result }
{
    match begun {
        Begun::Unused => Ok(Start::Unused),
        Begun::Damaged => Ok(Start::Damaged),
        Begun::Body(body) => finish_body(hands, disk, stream, body, other),
    }
}

/// The same of a part that was begun.
fn finish_body<H: Hands, D: Disk>(
    hands: &H,
    disk: &mut D,
    stream: &mut SideStream,
    body: OpenBody,
    other: Option<u64>,
) -> Result<Start, StoreFault>
    requires open { IsTrue (D.view disk.old).is_open }
    requires told { IsOf stream.old (D.view disk.old).seen }
    requires good { CanGoOn body stream.old }
    ensures { Streams (D.view disk.old) (D.view disk.new) (D.images disk.old) (D.images disk.new) stream.old stream.new
        (BodyGoesOn stream.new body other) result }
{
    let mut body = body;
    if !read_rows(hands, disk, stream, &mut body)? {
        return Ok(Start::Damaged);
    }
    let Some(snapshot) = finish_snapshot(hands, disk, stream, body)? else {
        return Ok(Start::Damaged);
    };
    if is_later(other, snapshot.generation) {
        return Ok(Start::Older);
    }
    Ok(Start::Snapshot(FirstPart {
        snapshot,
        next: stream.place(),
    }))
}

/// Whether a number is there that is later than this one.
fn is_later(other: Option<u64>, number: u64) -> bool
    ensures { (result ≡ true) ↔ IsLaterThan other number }
{
    match other {
        Some(other) => number < other,
        None => false,
    }
}
