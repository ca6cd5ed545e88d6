ghost use Rattle.std.specs.Prelude.{◌≡◌, ◌+◌, ◌-◌, ◌^◌, ◌<◌, ◌≤◌};

use ga_base::{NoMemory, Steps};
use ga_pairs::{Insert, PairSeat, PairSet};
use std::marker::Brand;
use std::mem::size_of;
use std::sync::ledger::{Blank, Ledger};
use std::thread;

/// Inserts the pairs (3, 0) to (3, 999), forwards or backwards, and answers how many were won, with the seat.
fn insert_all(pairs: &PairSet, mut seat: PairSeat, backwards: bool) -> (u32, PairSeat)
    requires table { seat.table ≡ pairs.now.table }
    requires allowance { 1000 ≤ seat.claims.allowance }
    ensures table { result.1.table ≡ seat.table }
    ensures share { result.1.claims.share ≡ seat.claims.share }
{
    let mut won = 0;
    for i in 0..1000 {
        let visitor = if backwards { 999 - i } else { i };
        if insert_one(pairs, &mut seat, 3, visitor) == Insert::Won {
            won += 1;
        }
    }
    (won, seat)
}

/// Inserts a pair, and counts the steps in a ledger of its own.
fn insert_one(pairs: &PairSet, seat: &mut PairSeat, key: u32, visitor: u32) -> Insert
    requires table { seat.old.table ≡ pairs.now.table }
    requires allowance { 1 ≤ seat.old.claims.allowance }
    requires numbers { (key < 2 ^ 32 - 1) × (visitor < 2 ^ 32 - 1) }
    ensures table { seat.new.table ≡ seat.old.table }
    ensures share { seat.new.claims.share ≡ seat.old.claims.share }
    ensures allowance { seat.new.claims.allowance + 1 ≡ seat.old.claims.allowance }
{
    insert_by::<Brand>(pairs, seat, key, visitor, Blank::new(1))
}

/// Inserts a pair, where `L` names the ledger of the steps.
fn insert_by<L: Ledger>(
    pairs: &PairSet,
    seat: &mut PairSeat,
    key: u32,
    visitor: u32,
    blank: Blank,
) -> Insert
    requires ledger { (blank.name ≡ L.name) × (blank.parts ≡ L.parts) × (0 < blank.parts) }
    requires table { seat.old.table ≡ pairs.now.table }
    requires allowance { 1 ≤ seat.old.claims.allowance }
    requires numbers { (key < 2 ^ 32 - 1) × (visitor < 2 ^ 32 - 1) }
    ensures table { seat.new.table ≡ seat.old.table }
    ensures share { seat.new.claims.share ≡ seat.old.claims.share }
    ensures allowance { seat.new.claims.allowance + 1 ≡ seat.old.claims.allowance }
{
    let mut steps = Steps::<L>::open(blank);
    pairs.insert(seat, key, visitor, &mut steps)
}

#[test]
fn two_threads_win_each_pair_once(rt: HostRuntime) -> Result<(), NoMemory> {
    assert_eq!(rt; (size_of::<PairSeat>(), size_of::<Steps<Brand>>()), (0, 0));
    let (pairs, mut mine) = PairSet::open(rt.alloc(), 2001, 2000, 2)?;
    let theirs = pairs.split(&mut mine, 1, 1000);
    let table = &pairs;
    let ((a, mut mine), (b, theirs)) = thread::join(
        &rt,
        move || insert_all(table, mine, false),
        move || insert_all(table, theirs, true),
    );
    pairs.join(&mut mine, theirs);
    let closed = pairs.close(mine);
    assert_eq!(rt;
        (u64::from(a) + u64::from(b), closed.len(), closed.cells()),
        (1000, 1000, 2001)
    );
    Ok(())
}

#[test]
fn a_pair_asked_twice_is_there(rt: HostRuntime) -> Result<(), NoMemory> {
    let (pairs, mut seat) = PairSet::open(rt.alloc(), 4, 3, 1)?;
    assert!(rt; insert_one(&pairs, &mut seat, 1, 4294967294) == Insert::Won);
    assert!(rt; insert_one(&pairs, &mut seat, 1, 4294967294) == Insert::Present);
    let closed = pairs.close(seat);
    assert_eq!(rt; closed.len(), 1);
    Ok(())
}

#[test]
fn two_cells_are_enough_for_a_pair(rt: HostRuntime) -> Result<(), NoMemory> {
    let (pairs, mut seat) = PairSet::open(rt.alloc(), 2, 1, 1)?;
    assert!(rt; insert_one(&pairs, &mut seat, 5, 7) == Insert::Won);
    let closed = pairs.close(seat);
    let words = [closed.word(0), closed.word(1)];
    assert!(rt; words == [0, 21474836488] || words == [21474836488, 0]);
    Ok(())
}
