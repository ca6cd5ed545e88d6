ghost use Rattle.std.specs.Prelude.{◌≡◌, ◌≤◌, IsTrue, length};
ghost use Rattle.ga_codec.specs.Values.{snapshot_value};
ghost use Rattle.ga_store.specs.Database.{of_snapshot};
ghost use Rattle.ga_store.specs.Steps.Records.{BehindGate, SaysDelta, SaysOn, SaysRecord};
ghost use Rattle.ga_store.specs.Steps.Stream.{IsAt, IsOf, Streams};

use crate::body_digest::BodyDigest;
use crate::body_reading::{OpenBody, finish_delta, read_rows};
use crate::found::{FirstPart, RecordPart};
use crate::growing::Growing;
use crate::hands::Hands;
use crate::side_parts::{is_open, take_size};
use crate::side_stream::SideStream;
use crate::starts::Said;
use crate::{Db, StoreFault};
use ga_codec::laws::one_delta_reading;
use ga_codec::{BodyReader, Delta};
use ga_disk::Disk;

/// Takes the records after the snapshot of a side with this number, up to the first closed gate.
pub(crate) fn read_on<H: Hands, D: Disk>(
    hands: &H,
    disk: &mut D,
    stream: &mut SideStream,
    number: u32,
    first: FirstPart,
) -> Result<Said, StoreFault>
    requires open { IsTrue (D.view disk.old).is_open }
    requires told { IsOf stream.old (D.view disk.old).seen }
    requires place { IsAt stream.old first.next }
    ensures { Streams (D.view disk.old) (D.view disk.new) (D.images disk.old) (D.images disk.new) stream.old stream.new
        (SaysOn stream.new number (of_snapshot number first.next (snapshot_value first.snapshot))) result }
{
    let mut growing = Growing::of(hands.alloc(), Db::of_first(number, first));
    while is_open(disk, stream)? {
        let slot = growing.slot();
        if !take_record(hands, disk, stream, &mut growing)? {
            return Ok(Said::Damaged {
                side: number,
                at: slot + 1,
            });
        }
    }
    Ok(Said::Database(growing.into_db()?))
}

/// Takes the record after the open gate that comes next, and answers whether there is one that the database can take on.
fn take_record<H: Hands, D: Disk>(
    hands: &H,
    disk: &mut D,
    stream: &mut SideStream,
    growing: &mut Growing,
) -> Result<bool, StoreFault>
    requires open { IsTrue (D.view disk.old).is_open }
    requires told { IsOf stream.old (D.view disk.old).seen }
    requires gate { BehindGate stream.old }
    requires place { IsAt stream.old growing.old.slot }
    requires few { growing.old.records ≤ growing.old.slot }
    ensures { Streams (D.view disk.old) (D.view disk.new) (D.images disk.old) (D.images disk.new) stream.old stream.new
        (SaysRecord stream.new growing.old growing.new) result }
{
    // That a row of bytes is one run record, for the proof alone.
    one_delta_reading();
    let Some(delta) = read_delta(hands, disk, stream)? else {
        return Ok(false);
    };
    let next = stream.place();
    Ok(growing.take_on(RecordPart { delta, next })?)
}

/// Takes the open gate that comes next, and the run record after it; None where no part with one is there.
fn read_delta<H: Hands, D: Disk>(
    hands: &H,
    disk: &mut D,
    stream: &mut SideStream,
) -> Result<Option<Delta>, StoreFault>
    requires open { IsTrue (D.view disk.old).is_open }
    requires told { IsOf stream.old (D.view disk.old).seen }
    requires gate { 1 ≤ length stream.old.window }
    ensures { Streams (D.view disk.old) (D.view disk.new) (D.images disk.old) (D.images disk.new) stream.old stream.new
        (SaysDelta stream.new) result }
{
    let Some(size) = take_size(disk, stream)? else {
        return Ok(None);
    };
    let mut body = OpenBody {
        reader: BodyReader::of_delta(hands.alloc()),
        digest: BodyDigest::new(hands.alloc()),
        left: size,
    };
    if !read_rows(hands, disk, stream, &mut body)? {
        return Ok(None);
    }
    finish_delta(hands, disk, stream, body)
}
