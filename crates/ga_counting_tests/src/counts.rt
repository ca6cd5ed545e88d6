ghost use Rattle.std.specs.Prelude.{◌≡◌, ◌≤◌, ◌<◌, ◌+◌};
ghost use Rattle.ga_counts.specs.Counts.{tally_at};

use ga_base::NoMemory;
use ga_counts::{CountSeat, CountTable};
use std::mem::size_of;
use std::snapshot::Snapshot;
use std::sync::Wait;
use std::thread;
use std::thread::{Promise, Threads};

/// What a thread promises of the seat that it gives back: the table and the share are those of the seat that it got.
#[derive(Drop)]
struct GivesBack(Snapshot<CountSeat>);

impl Promise<CountSeat> for GivesBack {
    ghost use Rattle.std.specs.Prelude.{◌≡◌};

    ghost kept_by = { λ p seat. (seat.table ≡ p.0.value.table) × (seat.view.share ≡ p.0.value.view.share) };
}

/// Adds 1 at word 0 this many times, raises place 0, and gives the seat back.
fn count(table: &CountTable, mut seat: CountSeat, times: u32, most: u64) -> CountSeat
    requires table { seat.table ≡ table.now.table }
    requires word { 1 ≤ table.now.opening.words }
    requires place { 1 ≤ table.now.opening.maxima }
    requires allowance { tally_at 0 seat.view + times ≤ seat.view.allowance }
    ensures table { result.table ≡ seat.table }
    ensures share { result.view.share ≡ seat.view.share }
{
    for _ in 0..times {
        table.add(&mut seat, 0, 1);
    }
    table.raise(&mut seat, 0, most);
    seat
}

/// Counts by two threads of a scope, which raise place 0 to 7 and 9, and joins their seats.
fn count_by_two<R: Threads + Wait>(
    rt: &R,
    table: &CountTable,
    mine: CountSeat,
    theirs: CountSeat,
) -> CountSeat
    requires tables { (mine.table ≡ table.now.table) × (theirs.table ≡ table.now.table) }
    requires word { 1 ≤ table.now.opening.words }
    requires place { 1 ≤ table.now.opening.maxima }
    requires my_allowance { tally_at 0 mine.view + 500 ≤ mine.view.allowance }
    requires their_allowance { tally_at 0 theirs.view + 500 ≤ theirs.view.allowance }
    ensures table { result.table ≡ mine.table }
    ensures share { result.view.share ≡ mine.view.share + theirs.view.share }
{
    let (mut mine, theirs) = thread::scope(
        thread::scope_env(),
        rt,
        |scope| -> (CountSeat, CountSeat)
            requires tables { (mine.table ≡ table.now.table) × (theirs.table ≡ table.now.table) }
            requires word { 1 ≤ table.now.opening.words }
            requires place { 1 ≤ table.now.opening.maxima }
            requires my_allowance { tally_at 0 mine.view + 500 ≤ mine.view.allowance }
            requires their_allowance { tally_at 0 theirs.view + 500 ≤ theirs.view.allowance }
            ensures mine { (result.0.table ≡ mine.table) × (result.0.view.share ≡ mine.view.share) }
            ensures theirs { (result.1.table ≡ theirs.table) × (result.1.view.share ≡ theirs.view.share) }
        {
            let promise = GivesBack(Snapshot::of(&mine));
            let first = scope.spawn_with(promise, move || count(table, mine, 500, 7));
            let promise = GivesBack(Snapshot::of(&theirs));
            let second = scope.spawn_with(promise, move || count(table, theirs, 500, 9));
            let mine = match first {
                Ok(child) => child.join(rt),
                Err(refused) => (refused.value)(),
            };
            let theirs = match second {
                Ok(child) => child.join(rt),
                Err(refused) => (refused.value)(),
            };
            (mine, theirs)
        },
    );
    table.join(&mut mine, theirs);
    mine
}

#[test]
fn two_threads_count_as_one(rt: HostRuntime) -> Result<(), NoMemory> {
    assert_eq!(rt; size_of::<CountSeat>(), 0);
    let (counts, mut mine) = CountTable::open(rt.alloc(), 2, 1, 2, 1000)?;
    let theirs = counts.split(&mut mine, 1, 500);
    let mine = count_by_two(&rt, &counts, mine, theirs);
    let closed = counts.close(mine);
    assert_eq!(rt;
        (closed.sum(0), closed.sum(1), closed.maximum(0)),
        (1000, 0, 9)
    );
    Ok(())
}

#[test]
fn a_table_of_nothing_is_closed(rt: HostRuntime) -> Result<(), NoMemory> {
    let (counts, mut mine) = CountTable::open(rt.alloc(), 0, 0, 3, 0)?;
    let theirs = counts.split(&mut mine, 2, 0);
    counts.join(&mut mine, theirs);
    drop(counts.close(mine));
    Ok(())
}
