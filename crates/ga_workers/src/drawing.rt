ghost use Rattle.std.specs.Prelude.{◌≡◌, ◌≤◌, ◌+◌, ◌-◌, ◌*◌, ◌<◌, [], IfOk, IfSome, OnOk, All, length, map, vec_len, flat_map, Ok, true};
ghost use Rattle.ga_base.specs.declared.limits.TheConstants.{MAX_BATCH, MAX_JOBS};
ghost use Rattle.ga_draws.specs.Draws.{AreAllBelow, given};
ghost use Rattle.ga_workers.specs.Steps.Drawing.{CountsDrawn, all_lines};
ghost use Rattle.ga_workers.specs.Together.{CountsOn};

use crate::Crew;
use crate::meanwhile::map_meanwhile;
use ga_base::NoMemory;
use ga_draws::{DrawSeat, Draws};
use ga_ports::Gate;
use ga_tallies::{Agents, Tally, TallyFault};
use std::alloc::Global;
use std::thread::Threads;

/// What a worker begins with.
#[derive(Drop)]
struct Turn {
    /// Its number.
    worker: u32,
    /// Its seat at the draws.
    seat: DrawSeat,
    /// What it has counted before.
    tally: Tally,
}

/// What a worker gives back.
#[derive(Drop)]
struct Drawn {
    /// Its seat, which knows what it drew.
    seat: DrawSeat,
    /// What it has counted now.
    tally: Result<Tally, TallyFault>,
}

/// Counts the lines of these pieces by workers, one for each tally, which counts on into it. The last works in this thread,
/// which calls `meanwhile` before, once whatever comes of the lines. None is answered where a worker finds a counter full.
pub(crate) fn count_pieces<R: Threads + Sync, G: Gate, F: FnMut() -> X, X>(
    crew: &Crew<'_, R, G>,
    tallies: Vec<Tally>,
    pieces: &[&[u8]],
    meanwhile: &mut F,
) -> (Result<Option<Vec<Tally>>, NoMemory>, X)
    requires some { 1 ≤ vec_len tallies }
    requires most { vec_len tallies ≤ MAX_JOBS }
    requires few { length pieces.now ≤ MAX_BATCH }
    requires meanwhile { F.pre meanwhile.old }
    ensures counts { IfOk result.0 (λ answer. IfSome answer (λ more.
        CountsOn crew.now.setup.now (all_lines (map (λ piece. piece.now) pieces.now)) tallies.items more.items)) }
    ensures meanwhile { F.step meanwhile.old result.1 meanwhile.new }
{
    let jobs = tallies.len() as u32;
    let most = pieces.len() as u64 + 1;
    let (draws, mut seat) = match Draws::open(crew.alloc, jobs + 1, u64::from(jobs) * most) {
        Ok(open) => open,
        Err(fault) => return (Err(fault), meanwhile()),
    };
    let turns = match turns_of(crew.alloc, &draws, &mut seat, tallies, most) {
        Ok(turns) => turns,
        Err(fault) => return (Err(fault), meanwhile()),
    };
    let shared = &draws;
    let work = move |turn: Turn| -> Drawn
        requires { (turn.seat.table ≡ shared.now.table) × (turn.seat.view ≡ given 1 (length pieces.now + 1)) × (length pieces.now ≤ MAX_BATCH) }
        ensures { (result.seat.table ≡ shared.entry.now.table) × (result.seat.view.share ≡ 1)
            × IfOk result.tally (CountsDrawn crew.entry.now.setup.now (map (λ piece. piece.now) pieces.entry.now) result.seat.view.drawn turn.tally) }
    { count_drawn(crew, pieces, shared, turn) };
    let (drawn, given) = map_meanwhile(crew.rt, crew.alloc, turns, &work, meanwhile);
    match drawn {
        Ok(drawn) => (join_seats(crew.alloc, &draws, seat, drawn), given),
        Err(fault) => (Err(fault), given),
    }
}

/// A turn for each tally. Its seat can draw this many numbers.
fn turns_of(
    alloc: Global,
    draws: &Draws,
    seat: &mut DrawSeat,
    tallies: Vec<Tally>,
    most: u64,
) -> Result<Vec<Turn>, NoMemory>
    requires few { vec_len tallies ≤ MAX_JOBS }
    requires table { seat.old.table ≡ draws.now.table }
    requires whole { seat.old.view ≡ given (vec_len tallies + 1) (vec_len tallies * most) }
    ensures tallies { IfOk result (λ turns. map (λ turn. turn.tally) turns.items ≡ tallies.items) }
    ensures each { IfOk result (λ turns. All (λ turn. (turn.seat.table ≡ draws.now.table) × (turn.seat.view ≡ given 1 most)) turns.items) }
    ensures seat { IfOk result (λ _. (seat.new.table ≡ draws.now.table) × (seat.new.view ≡ given 1 0)) }
{
    let mut turns = Vec::with_capacity(alloc, tallies.len())?;
    add_turns(draws, seat, tallies, most, &mut turns)?;
    Ok(turns)
}

/// Adds a turn for each tally to turns of which there are none yet.
fn add_turns(
    draws: &Draws,
    seat: &mut DrawSeat,
    tallies: Vec<Tally>,
    most: u64,
    turns: &mut Vec<Turn>,
) -> Result<(), NoMemory>
    requires few { vec_len tallies ≤ MAX_JOBS }
    requires table { seat.old.table ≡ draws.now.table }
    requires whole { seat.old.view ≡ given (vec_len tallies + 1) (vec_len tallies * most) }
    requires none { turns.old.items ≡ [] }
    ensures tallies { OnOk result (map (λ turn. turn.tally) turns.new.items ≡ tallies.items) }
    ensures each { OnOk result (All (λ turn. (turn.seat.table ≡ draws.now.table) × (turn.seat.view ≡ given 1 most)) turns.new.items) }
    ensures seat { OnOk result ((seat.new.table ≡ draws.now.table) × (seat.new.view ≡ given 1 0)) }
{
    for tally in tallies {
        let seat = draws.split(seat, 1, most);
        let worker = turns.len() as u32;
        turns.push(Turn {
            worker,
            seat,
            tally,
        })?;
    }
    Ok(())
}

/// Draws pieces and counts their lines, until a number is drawn that is no piece's.
fn count_drawn<R, G: Gate>(
    crew: &Crew<'_, R, G>,
    pieces: &[&[u8]],
    draws: &Draws,
    turn: Turn,
) -> Drawn
    requires table { turn.seat.table ≡ draws.now.table }
    requires seat { turn.seat.view ≡ given 1 (length pieces.now + 1) }
    requires few { length pieces.now ≤ MAX_BATCH }
    ensures table { result.seat.table ≡ draws.now.table }
    ensures share { result.seat.view.share ≡ 1 }
    ensures tally { IfOk result.tally (CountsDrawn crew.now.setup.now (map (λ piece. piece.now) pieces.now) result.seat.view.drawn turn.tally) }
{
    let Turn {
        worker,
        mut seat,
        mut tally,
    } = turn;
    let mut agents = Agents::new(crew.alloc);
    for at in 0..pieces.len() + 1 {
        let number = draws.draw(&mut seat) as usize;
        pass(crew.gate, worker, at == 0);
        if number >= pieces.len() {
            break;
        }
        if let Err(fault) = tally.count(crew.alloc, crew.setup, &mut agents, pieces[number]) {
            return Drawn {
                seat,
                tally: Err(fault),
            };
        }
    }
    Drawn {
        seat,
        tally: Ok(tally),
    }
}

/// Passes the gate after the first draw.
fn pass<G: Gate>(gate: &G, worker: u32, first: bool) {
    if first {
        gate.pass(worker);
    }
}

/// The tallies, once all seats are joined.
fn join_seats(
    alloc: Global,
    draws: &Draws,
    mut seat: DrawSeat,
    drawn: Vec<Drawn>,
) -> Result<Option<Vec<Tally>>, NoMemory>
    requires table { seat.table ≡ draws.now.table }
    requires seat { seat.view ≡ given 1 0 }
    requires some { 0 < vec_len drawn }
    requires whole { vec_len drawn + 1 ≡ draws.now.shares }
    requires each { All (λ one. (one.seat.table ≡ draws.now.table) × (one.seat.view.share ≡ 1)) drawn.items }
    ensures tallies { IfOk result (λ answer. IfSome answer (λ tallies. map (λ one. one.tally) drawn.items ≡ map Ok tallies.items)) }
    ensures all { IfOk result (λ answer. IfSome answer (λ _. AreAllBelow (flat_map (λ one. one.seat.view.drawn) drawn.items))) }
{
    let mut tallies = Vec::with_capacity(alloc, drawn.len())?;
    for one in drawn {
        let Drawn { seat: other, tally } = one;
        draws.join(&mut seat, other);
        match tally {
            Ok(tally) => tallies.push(tally)?,
            Err(TallyFault::Full) => return Ok(None),
            Err(TallyFault::NoMemory) => return Err(NoMemory),
        }
    }
    Ok(Some(tallies))
}
