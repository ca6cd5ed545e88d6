ghost use Rattle.std.specs.Prelude.{◌≡◌, ◌<◌, ◌≤◌, IfOk};
ghost use Rattle.ga_draws.specs.Draws.{AreAllBelow, SeatSeen, drew, given, joined, left};

use crate::rule::{Both, CutOff, Draw, DrawRule, Look};
use crate::view::{DrawView, Opening};
use crate::witnesses::{Cut, Witness};
use atomic_table::{Seat, Table};
use ga_base::NoMemory;
use std::alloc::Global;
use std::marker::{Brand, Model};

/// A counter from which threads draw numbers.
#[derive(Drop)]
pub struct Draws {
    /// Its one word is the number that is drawn next.
    table: Table<(), DrawView, Opening, DrawRule, Global>,
}

impl Model for Draws {
    ghost use Rattle.std.specs.Prelude.{◌≡◌, ◌<◌, ◌^◌};
    ghost use Rattle.ga_draws.specs.Draws.{DrawsSeen};

    ghost Value = { DrawsSeen };

    ghost view = { λ d. record { table = d.table.shared.table_id; shares = d.table.shared.key.shares; allowance = d.table.shared.key.allowance } };

    ghost invariant = { λ d. (d.table.shared.table_id.words ≡ 1) × (d.table.shared.key.allowance < 2 ^ 64) };
}

/// A thread's seat at the draws. It takes no bytes.
#[derive(Drop)]
pub struct DrawSeat {
    /// The seat at the table, which holds no slot.
    seat: Seat<(), DrawView>,
}

impl Model for DrawSeat {
    ghost use Rattle.std.specs.Prelude.{◌≡◌, []};
    ghost use Rattle.ga_draws.specs.Draws.{SeatSeen};

    ghost Value = { SeatSeen };

    ghost view = { λ s. record { table = s.seat.table_id; view = s.seat.me.0 } };

    ghost invariant = { λ s. s.seat.me.1 ≡ [] };
}

impl Draws {
    /// Draws from which `allowance` numbers can be drawn, and the seat that has all shares and the whole allowance.
    pub fn open(alloc: Global, shares: u32, allowance: u64) -> Result<(Draws, DrawSeat), NoMemory>
        requires { 1 ≤ shares }
        ensures draws { IfOk result (λ r. (r.0.shares ≡ shares) × (r.0.allowance ≡ allowance)) }
        ensures seat { IfOk result (λ r. (r.1.table ≡ r.0.table) × (r.1.view ≡ given shares allowance)) }
    {
        let opening = Opening { shares, allowance };
        let (table, seat) = Table::of_words(alloc, &[0], &opening)?;
        Ok((Draws { table }, DrawSeat { seat }))
    }

    /// Draws a number that no other call draws.
    pub fn draw(&self, seat: &mut DrawSeat) -> u64
        requires table { seat.old.table ≡ self.now.table }
        requires allowance { 1 ≤ seat.old.view.allowance }
        ensures seat { seat.new ≡ record seat.old { view = drew seat.old.view result } }
        ensures all { seat.new.view.share ≡ self.now.shares → AreAllBelow seat.new.view.drawn }
    {
        self.draw_by::<Brand>(seat)
    }

    /// Draws, where `S` is the number of shares that the draws were opened with.
    fn draw_by<S: Witness>(&self, seat: &mut DrawSeat) -> u64
        requires named { S.number ≡ self.now.shares }
        requires table { seat.old.table ≡ self.now.table }
        requires allowance { 1 ≤ seat.old.view.allowance }
        ensures seat { seat.new ≡ record seat.old { view = drew seat.old.view result } }
        ensures all { seat.new.view.share ≡ self.now.shares → AreAllBelow seat.new.view.drawn }
    {
        self.table.shared.fetch_add::<Draw<S>>(&mut seat.seat, 0, 1)
    }

    /// Gives a share and an allowance to a new seat, which has drawn nothing.
    pub fn split(&self, seat: &mut DrawSeat, share: u32, allowance: u64) -> DrawSeat
        requires table { seat.old.table ≡ self.now.table }
        requires some { 1 ≤ share }
        requires share { share < seat.old.view.share }
        requires allowance { allowance ≤ seat.old.view.allowance }
        ensures seat { seat.new ≡ record seat.old { view = left seat.old.view share allowance } }
        ensures new { result ≡ record { table = seat.old.table; view = given share allowance } }
    {
        self.split_by::<Brand>(seat, share, allowance)
    }

    /// Splits a seat, where `C` names what the new seat gets.
    fn split_by<C: Cut>(&self, seat: &mut DrawSeat, share: u32, allowance: u64) -> DrawSeat
        requires named { (C.share ≡ share) × (C.allowance ≡ allowance) }
        requires table { seat.old.table ≡ self.now.table }
        requires some { 1 ≤ share }
        requires share { share < seat.old.view.share }
        requires allowance { allowance ≤ seat.old.view.allowance }
        ensures seat { seat.new ≡ record seat.old { view = left seat.old.view share allowance } }
        ensures new { result ≡ record { table = seat.old.table; view = given share allowance } }
    {
        let seat = self.table.shared.split_seat::<CutOff<C>>(&mut seat.seat);
        DrawSeat { seat }
    }

    /// Takes in another seat of these draws: shares, allowances and what was drawn.
    pub fn join(&self, seat: &mut DrawSeat, other: DrawSeat)
        requires table { seat.old.table ≡ self.now.table }
        requires other { other.table ≡ self.now.table }
        ensures seat { seat.new ≡ record seat.old { view = joined seat.old.view other.view } }
        ensures all { seat.new.view.share ≡ self.now.shares → AreAllBelow seat.new.view.drawn }
    {
        let DrawSeat { seat: other } = other;
        self.table.shared.join_seat::<Both>(&mut seat.seat, other);
        self.look_by::<Brand>(seat);
    }

    /// Looks at the counter, where `S` is the number of shares that the draws were opened with. A seat with all shares learns
    /// what it has drawn.
    fn look_by<S: Witness>(&self, seat: &mut DrawSeat)
        requires named { S.number ≡ self.now.shares }
        requires table { seat.old.table ≡ self.now.table }
        ensures seat { seat.new ≡ seat.old }
        ensures all { seat.new.view.share ≡ self.now.shares → AreAllBelow seat.new.view.drawn }
    {
        self.table.shared.load::<Look<S>>(&mut seat.seat, 0);
    }
}
