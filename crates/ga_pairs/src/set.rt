ghost use Rattle.std.specs.Prelude.{◌≡◌, ◌+◌, ◌-◌, ◌^◌, ◌<◌, ◌≤◌, length, IfOk, None};
ghost use Rattle.std.specs.Mem.Slots.{slots_items, slots_len, IsFull};
ghost use Rattle.ga_pairs.specs.Homes.{IsPair};
ghost use Rattle.ga_pairs.specs.Pairs.{SeatSeen, IsClosed, given, joined, left, used};
ghost use Rattle.ga_pairs.specs.Running.{Answers};

use crate::home::{home, word};
use crate::insert::Insert;
use crate::pair_closed::PairClosed;
use crate::rule::{Asked, Both, ClaimRule, CutOff, Try};
use crate::view::{Opening, Pair, PairView};
use atomic_table::{Closed, Seat, Table};
use ga_base::{NoMemory, Steps};
use ga_draws::Cut;
use std::alloc::Global;
use std::marker::{Brand, Model};
use std::sync::ledger::Ledger;

/// A fixed row of cells, all 0 at first, in which threads claim pairs.
#[derive(Drop)]
pub struct PairSet {
    /// The cells.
    table: Table<(), PairView, Opening, ClaimRule, Global>,
    /// How many there are.
    cells: u32,
}

impl Model for PairSet {
    ghost use Rattle.std.specs.Prelude.{◌≡◌, ◌<◌, ◌≤◌};
    ghost use Rattle.ga_pairs.specs.Pairs.{SetSeen};

    ghost Value = { SetSeen };

    ghost view = { λ s. record { table = s.table.shared.table_id; opening = s.table.shared.key } };

    ghost invariant = { λ s. (s.table.shared.table_id.words ≡ s.cells) × (s.table.shared.table_id.slots ≡ 0) × (s.table.shared.key.cells ≡ s.cells) × (0 < s.cells) × (1 ≤ s.table.shared.key.shares) };
}

/// A thread's seat at a set. It takes no bytes.
#[derive(Drop)]
pub struct PairSeat {
    /// The seat at the table, which holds no slot and looks for nothing.
    seat: Seat<(), PairView>,
}

impl Model for PairSeat {
    ghost use Rattle.std.specs.Prelude.{◌≡◌, [], None};
    ghost use Rattle.ga_pairs.specs.Pairs.{SeatSeen};

    ghost Value = { SeatSeen };

    ghost view = { λ s. record { table = s.seat.table_id; claims = s.seat.me.0.claims } };

    ghost invariant = { λ s. (s.seat.me.1 ≡ []) × (s.seat.me.0.probe ≡ None) };
}

impl PairSet {
    /// A set of this many cells, and the seat that has all shares and the whole allowance.
    pub fn open(
        alloc: Global,
        cells: u32,
        allowance: u32,
        shares: u32,
    ) -> Result<(PairSet, PairSeat), NoMemory>
        requires room { allowance < cells }
        requires some { 1 ≤ shares }
        ensures opening { IfOk result (λ r. r.0.opening ≡ record { cells = cells; allowance = allowance; shares = shares }) }
        ensures seat { IfOk result (λ r. r.1 ≡ record { table = r.0.table; claims = given shares allowance }) }
    {
        let opening = Opening {
            cells,
            allowance,
            shares,
        };
        let row = Vec::from_elem(alloc, 0u64, cells as usize)?;
        let (table, seat) = Table::of_words(alloc, row.as_slice(), &opening)?;
        Ok((PairSet { table, cells }, PairSeat { seat }))
    }

    /// Claims a pair, unless it is there: in at most as many steps as there are cells.
    pub fn insert<L: Ledger>(
        &self,
        seat: &mut PairSeat,
        key: u32,
        visitor: u32,
        steps: &mut Steps<L>,
    ) -> Insert
        requires table { seat.old.table ≡ self.now.table }
        requires allowance { 1 ≤ seat.old.claims.allowance }
        requires numbers { (key < 2 ^ 32 - 1) × (visitor < 2 ^ 32 - 1) }
        ensures table { seat.new.table ≡ seat.old.table }
        ensures answer { Answers result seat.old.claims (record { key = key; visitor = visitor }) seat.new.claims }
        ensures steps { (steps.old < steps.new) × (steps.new ≤ steps.old + self.now.opening.cells) }
    {
        self.claim::<Brand, L>(&mut seat.seat, Pair { key, visitor }, steps)
    }

    /// Tries one cell after the other, from the pair's home on, where `A` names the pair and the number of cells.
    fn claim<A: Asked, L: Ledger>(
        &self,
        seat: &mut Seat<(), PairView>,
        pair: Pair,
        steps: &mut Steps<L>,
    ) -> Insert
        requires named { (A.pair ≡ pair) × (A.cells ≡ self.now.opening.cells) }
        requires table { seat.old.table_id ≡ self.now.table }
        requires allowance { 1 ≤ seat.old.me.0.claims.allowance }
        requires numbers { IsPair pair }
        requires resting { seat.old.me.0.probe ≡ None }
        ensures table { (seat.new.table_id ≡ seat.old.table_id) × (seat.new.id ≡ seat.old.id) }
        ensures resting { (seat.new.me.0.probe ≡ None) × (seat.new.me.1 ≡ seat.old.me.1) }
        ensures answer { Answers result seat.old.me.0.claims pair seat.new.me.0.claims }
        ensures steps { (steps.old < steps.new) × (steps.new ≤ steps.old + self.now.opening.cells) }
    {
        let word = word(pair);
        let mut at = home(self.cells, word);
        for _passed in 0..self.cells {
            steps.tick();
            let found = self
                .table
                .shared
                .compare_exchange::<Try<A>>(seat, at as usize, 0, word);
            if found == 0 {
                return Insert::Won;
            }
            if found == word {
                return Insert::Present;
            }
            at += 1;
            if at == self.cells {
                at = 0;
            }
        }
        unreachable!()
    }

    /// Gives a share and an allowance to a new seat, which has asked nothing.
    pub fn split(&self, seat: &mut PairSeat, share: u32, allowance: u32) -> PairSeat
        requires table { seat.old.table ≡ self.now.table }
        requires some { 1 ≤ share }
        requires share { share < seat.old.claims.share }
        requires allowance { allowance ≤ seat.old.claims.allowance }
        ensures seat { seat.new ≡ record seat.old { claims = left seat.old.claims share allowance } }
        ensures new { result ≡ record { table = seat.old.table; claims = given share allowance } }
    {
        self.split_by::<Brand>(seat, share, allowance)
    }

    /// Splits a seat, where `C` names what the new seat gets.
    fn split_by<C: Cut>(&self, seat: &mut PairSeat, share: u32, allowance: u32) -> PairSeat
        requires named { (C.share ≡ share) × (C.allowance ≡ allowance) }
        requires table { seat.old.table ≡ self.now.table }
        requires some { 1 ≤ share }
        requires share { share < seat.old.claims.share }
        requires allowance { allowance ≤ seat.old.claims.allowance }
        ensures seat { seat.new ≡ record seat.old { claims = left seat.old.claims share allowance } }
        ensures new { result ≡ record { table = seat.old.table; claims = given share allowance } }
    {
        let seat = self.table.shared.split_seat::<CutOff<C>>(&mut seat.seat);
        PairSeat { seat }
    }

    /// Takes in another seat of this set: shares, allowances, and what was asked and won.
    pub fn join(&self, seat: &mut PairSeat, other: PairSeat)
        requires table { seat.old.table ≡ self.now.table }
        requires other { other.table ≡ self.now.table }
        ensures { seat.new ≡ record seat.old { claims = joined seat.old.claims other.claims } }
    {
        let PairSeat { seat: other } = other;
        self.table.shared.join_seat::<Both>(&mut seat.seat, other);
    }

    /// Closes the set by the seat that has all shares. Its words are those of the pairs that all seats asked, each once.
    pub fn close(self, seat: PairSeat) -> PairClosed
        requires table { seat.table ≡ self.table }
        requires whole { seat.claims.share ≡ self.opening.shares }
        ensures pairs { IsClosed seat.claims result }
        ensures cells { length result ≡ self.opening.cells }
    {
        let PairSet { table, cells } = self;
        let PairSeat { seat } = seat;
        let closed = table.close_with(seat);
        let pairs = count_used(&closed, cells);
        PairClosed {
            closed,
            cells,
            pairs,
        }
    }
}

/// How many cells are not 0.
fn count_used(closed: &Closed<(), Global>, cells: u32) -> u64
    requires { IsFull closed.now.words × (slots_len closed.now.words ≡ cells) }
    ensures { result ≡ used (slots_items closed.now.words) }
{
    let mut pairs = 0;
    for at in 0..cells {
        if closed.word(at as usize) != 0 {
            pairs += 1;
        }
    }
    pairs
}
