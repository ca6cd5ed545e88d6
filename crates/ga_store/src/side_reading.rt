ghost use Rattle.std.specs.Prelude.{◌≡◌, IsTrue};
ghost use Rattle.ga_store.specs.Steps.BothStreams.{AllSay, SecondSays, SidesSay, StartsGoOn, StreamsBoth};
ghost use Rattle.ga_store.specs.Steps.Starts.{BegunGoesOn, IsPlaced};
ghost use Rattle.ga_store.specs.Steps.Stream.{IsAt, IsOf, Streams};
ghost use Rattle.ga_store.specs.declared.starts.Start.{Start};

use crate::found::FirstPart;
use crate::hands::Hands;
use crate::record_reading::read_on;
use crate::side_stream::SideStream;
use crate::start_reading::{begin, finish};
use crate::starts::{Begun, Said, Start};
use crate::{Db, StoreFault};
use ga_disk::Disk;

/// What two sides say, of which nothing was taken.
pub(crate) fn read_sides<H: Hands, D: Disk>(
    hands: &H,
    disk: &mut D,
    stream0: &mut SideStream,
    stream1: &mut SideStream,
) -> Result<Said, StoreFault>
    requires open { IsTrue (D.view disk.old).is_open }
    requires of0 { IsOf stream0.old (D.view disk.old).seen }
    requires of1 { IsOf stream1.old (D.view disk.old).seen }
    requires at0 { IsAt stream0.old 0 }
    requires at1 { IsAt stream1.old 0 }
    ensures { StreamsBoth (D.view disk.old) (D.view disk.new) (D.images disk.old) (D.images disk.new)
        (record { s0 = stream0.old; s1 = stream1.old }) (record { s0 = stream0.new; s1 = stream1.new })
        (AllSay (record { s0 = stream0.new; s1 = stream1.new })) result }
{
    let begun0 = begin(hands, disk, stream0)?;
    let begun1 = begin(hands, disk, stream1)?;
    let (start0, start1) = finish_both(hands, disk, stream0, stream1, begun0, begun1)?;
    choose(hands, disk, stream0, stream1, start0, start1)
}

/// Reads two starts to their ends, first that with the earlier number, so that its snapshot is dropped before the other is
/// made.
fn finish_both<H: Hands, D: Disk>(
    hands: &H,
    disk: &mut D,
    stream0: &mut SideStream,
    stream1: &mut SideStream,
    begun0: Begun,
    begun1: Begun,
) -> Result<(Start, Start), StoreFault>
    requires open { IsTrue (D.view disk.old).is_open }
    requires of0 { IsOf stream0.old (D.view disk.old).seen }
    requires of1 { IsOf stream1.old (D.view disk.old).seen }
    requires good0 { BegunGoesOn begun0 stream0.old }
    requires good1 { BegunGoesOn begun1 stream1.old }
    ensures { StreamsBoth (D.view disk.old) (D.view disk.new) (D.images disk.old) (D.images disk.new)
        (record { s0 = stream0.old; s1 = stream1.old }) (record { s0 = stream0.new; s1 = stream1.new })
        (StartsGoOn (record { s0 = stream0.old; s1 = stream1.old }) (record { s0 = stream0.new; s1 = stream1.new }) begun0 begun1) result }
{
    let (number0, number1) = (begun0.number(), begun1.number());
    if number1 < number0 {
        let start1 = finish(hands, disk, stream1, begun1, number0)?;
        let start0 = finish(hands, disk, stream0, begun0, number1)?;
        return Ok((start0, start1));
    }
    let start0 = finish(hands, disk, stream0, begun0, number1)?;
    let start1 = finish(hands, disk, stream1, begun1, number0)?;
    Ok((start0, start1))
}

/// Reads on the side that has the later snapshot; damage of side 0 comes first.
fn choose<H: Hands, D: Disk>(
    hands: &H,
    disk: &mut D,
    stream0: &mut SideStream,
    stream1: &mut SideStream,
    start0: Start,
    start1: Start,
) -> Result<Said, StoreFault>
    requires open { IsTrue (D.view disk.old).is_open }
    requires of0 { IsOf stream0.old (D.view disk.old).seen }
    requires of1 { IsOf stream1.old (D.view disk.old).seen }
    requires placed0 { IsPlaced stream0.old start0 }
    requires placed1 { IsPlaced stream1.old start1 }
    ensures { StreamsBoth (D.view disk.old) (D.view disk.new) (D.images disk.old) (D.images disk.new)
        (record { s0 = stream0.old; s1 = stream1.old }) (record { s0 = stream0.new; s1 = stream1.new })
        (SidesSay (record { s0 = stream0.new; s1 = stream1.new }) start0 start1) result }
{
    match start0 {
        Start::Damaged => Ok(Said::Damaged { side: 0, at: 1 }),
        Start::Snapshot(first) => choose_first(hands, disk, stream0, stream1, first, start1),
        Start::Unused => choose_second(hands, disk, stream1, start1),
        Start::Older => choose_second(hands, disk, stream1, start1),
    }
}

/// The same where side 0 has this snapshot.
fn choose_first<H: Hands, D: Disk>(
    hands: &H,
    disk: &mut D,
    stream0: &mut SideStream,
    stream1: &mut SideStream,
    first: FirstPart,
    start1: Start,
) -> Result<Said, StoreFault>
    requires open { IsTrue (D.view disk.old).is_open }
    requires of0 { IsOf stream0.old (D.view disk.old).seen }
    requires of1 { IsOf stream1.old (D.view disk.old).seen }
    requires at0 { IsAt stream0.old first.next }
    requires placed1 { IsPlaced stream1.old start1 }
    ensures { StreamsBoth (D.view disk.old) (D.view disk.new) (D.images disk.old) (D.images disk.new)
        (record { s0 = stream0.old; s1 = stream1.old }) (record { s0 = stream0.new; s1 = stream1.new })
        (SidesSay (record { s0 = stream0.new; s1 = stream1.new }) (Start.Snapshot first) start1) result }
{
    match start1 {
        Start::Damaged => Ok(Said::Damaged { side: 1, at: 1 }),
        Start::Snapshot(second) => read_later(hands, disk, stream0, stream1, first, second),
        Start::Unused => read_on(hands, disk, stream0, 0, first),
        Start::Older => read_on(hands, disk, stream0, 0, first),
    }
}

/// The same where side 0 is unused or has an older snapshot.
fn choose_second<H: Hands, D: Disk>(
    hands: &H,
    disk: &mut D,
    stream1: &mut SideStream,
    start1: Start,
) -> Result<Said, StoreFault>
    requires open { IsTrue (D.view disk.old).is_open }
    requires of1 { IsOf stream1.old (D.view disk.old).seen }
    requires placed1 { IsPlaced stream1.old start1 }
    ensures { Streams (D.view disk.old) (D.view disk.new) (D.images disk.old) (D.images disk.new) stream1.old stream1.new
        (SecondSays stream1.new start1) result }
{
    match start1 {
        Start::Damaged => Ok(Said::Damaged { side: 1, at: 1 }),
        Start::Snapshot(second) => read_on(hands, disk, stream1, 1, second),
        Start::Unused => Ok(Said::Database(Db::empty(hands.alloc()))),
        Start::Older => Ok(Said::Database(Db::empty(hands.alloc()))),
    }
}

/// Reads on the side that has the later of two snapshots. Two of one generation are damage of side 1.
fn read_later<H: Hands, D: Disk>(
    hands: &H,
    disk: &mut D,
    stream0: &mut SideStream,
    stream1: &mut SideStream,
    first: FirstPart,
    second: FirstPart,
) -> Result<Said, StoreFault>
    requires open { IsTrue (D.view disk.old).is_open }
    requires of0 { IsOf stream0.old (D.view disk.old).seen }
    requires of1 { IsOf stream1.old (D.view disk.old).seen }
    requires at0 { IsAt stream0.old first.next }
    requires at1 { IsAt stream1.old second.next }
    ensures { StreamsBoth (D.view disk.old) (D.view disk.new) (D.images disk.old) (D.images disk.new)
        (record { s0 = stream0.old; s1 = stream1.old }) (record { s0 = stream0.new; s1 = stream1.new })
        (SidesSay (record { s0 = stream0.new; s1 = stream1.new }) (Start.Snapshot first) (Start.Snapshot second)) result }
{
    if first.snapshot.generation < second.snapshot.generation {
        return read_on(hands, disk, stream1, 1, second);
    }
    if first.snapshot.generation == second.snapshot.generation {
        return Ok(Said::Damaged { side: 1, at: 1 });
    }
    read_on(hands, disk, stream0, 0, first)
}
