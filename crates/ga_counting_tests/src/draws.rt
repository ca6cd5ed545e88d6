ghost use Rattle.std.specs.Prelude.{◌≡◌, ◌≤◌, ◌<◌};

use ga_base::NoMemory;
use ga_draws::{DrawSeat, Draws};
use std::mem::size_of;
use std::thread;

/// Draws two numbers, and gives the seat back.
fn draw_twice(draws: &Draws, mut seat: DrawSeat) -> (u64, u64, DrawSeat)
    requires table { seat.table ≡ draws.now.table }
    requires allowance { 2 ≤ seat.view.allowance }
    ensures table { result.2.table ≡ seat.table }
    ensures share { result.2.view.share ≡ seat.view.share }
{
    let first = draws.draw(&mut seat);
    let second = draws.draw(&mut seat);
    (first, second, seat)
}

#[test]
fn two_threads_draw_each_number_once(rt: HostRuntime) -> Result<(), NoMemory> {
    assert_eq!(rt; size_of::<DrawSeat>(), 0);
    let (draws, mut mine) = Draws::open(rt.alloc(), 2, 4)?;
    let theirs = draws.split(&mut mine, 1, 2);
    let table = &draws;
    let ((a, b, mut mine), (c, d, theirs)) = thread::join(
        &rt,
        move || draw_twice(table, mine),
        move || draw_twice(table, theirs),
    );
    draws.join(&mut mine, theirs);
    let mut numbers = [a, b, c, d];
    numbers.sort_unstable();
    assert_eq!(rt; numbers, [0, 1, 2, 3]);
    Ok(())
}
