ghost use Rattle.std.specs.Prelude.{◌≡◌, ◌+◌, ◌*◌, ◌<◌, ◌≤◌, ℕ, IfOk};
ghost use Rattle.ga_base.specs.declared.counts.TheConstants.{LIMIT};
ghost use Rattle.ga_counts.specs.Counts.{IsRow, SeatSeen, tally_at, tallied, raised, given, joined, left, blank};

use crate::count_closed::CountClosed;
use crate::rule::{Add, Both, CountRule, CutOff, Raise};
use crate::view::{CountView, Opening};
use atomic_table::{Seat, Table};
use ga_base::NoMemory;
use ga_draws::{Cut, Witness};
use std::alloc::Global;
use std::marker::{Brand, Model};

/// Sums and maxima, all 0 at first, which threads share.
#[derive(Drop)]
pub struct CountTable {
    /// The sums, then the maxima, and then one word that is never used.
    table: Table<(), CountView, Opening, CountRule, Global>,
    /// How many sums there are.
    words: u32,
    /// How many maxima there are.
    maxima: u32,
}

impl Model for CountTable {
    ghost use Rattle.std.specs.Prelude.{◌≡◌, ◌+◌, ◌≤◌};
    ghost use Rattle.ga_counts.specs.Counts.{TableSeen};

    ghost Value = { TableSeen };

    ghost view = { λ t. record { table = t.table.shared.table_id; opening = t.table.shared.key } };

    ghost invariant = { λ t. (t.table.shared.table_id.words ≡ t.words + t.maxima + 1) × (t.table.shared.table_id.slots ≡ 0) × (t.table.shared.key.words ≡ t.words) × (t.table.shared.key.maxima ≡ t.maxima) × (1 ≤ t.table.shared.key.shares) };
}

/// A thread's seat at a table. It takes no bytes.
#[derive(Drop)]
pub struct CountSeat {
    /// The seat at the table, which holds no slot.
    seat: Seat<(), CountView>,
}

impl Model for CountSeat {
    ghost use Rattle.std.specs.Prelude.{◌≡◌, ◌≤◌, []};
    ghost use Rattle.ga_counts.specs.Counts.{SeatSeen};

    ghost Value = { SeatSeen };

    ghost view = { λ s. record { table = s.seat.table_id; view = s.seat.me.0 } };

    ghost invariant = { λ s. (s.seat.me.1 ≡ []) × (1 ≤ s.seat.me.0.share) };
}

impl CountTable {
    /// A table of this many sums and maxima, and the seat that has all shares and the whole allowance.
    pub fn open(
        alloc: Global,
        words: u32,
        maxima: u32,
        shares: u32,
        allowance: u64,
    ) -> Result<(CountTable, CountSeat), NoMemory>
        requires some { 1 ≤ shares }
        requires limit { allowance ≤ 3 * LIMIT }
        ensures opening { IfOk result (λ r. r.0.opening ≡ record { words = words; maxima = maxima; shares = shares; allowance = allowance }) }
        ensures seat { IfOk result (λ r. r.1 ≡ record { table = r.0.table; view = blank words maxima shares allowance }) }
    {
        let opening = Opening {
            words,
            maxima,
            shares,
            allowance,
        };
        let row = Vec::from_elem(alloc, 0u64, words as usize + maxima as usize + 1)?;
        let (table, seat) = Table::of_words(alloc, row.as_slice(), &opening)?;
        let table = CountTable {
            table,
            words,
            maxima,
        };
        Ok((table, CountSeat { seat }))
    }

    /// Adds n at a word.
    pub fn add(&self, seat: &mut CountSeat, word: u32, n: u64)
        requires table { seat.old.table ≡ self.now.table }
        requires word { word < self.now.opening.words }
        requires allowance { tally_at word seat.old.view + n ≤ seat.old.view.allowance }
        ensures { seat.new ≡ record seat.old { view = tallied seat.old.view word n } }
    {
        let at = word as usize;
        self.table.shared.fetch_add::<Add>(&mut seat.seat, at, n);
    }

    /// Raises a place to n, where it is less.
    pub fn raise(&self, seat: &mut CountSeat, place: u32, n: u64)
        requires table { seat.old.table ≡ self.now.table }
        requires place { place < self.now.opening.maxima }
        ensures { seat.new ≡ record seat.old { view = raised seat.old.view place n } }
    {
        self.raise_by::<Brand>(seat, place, n)
    }

    /// Raises the place `P`.
    fn raise_by<P: Witness>(&self, seat: &mut CountSeat, place: u32, n: u64)
        requires told { P.number ≡ place }
        requires table { seat.old.table ≡ self.now.table }
        requires place { place < self.now.opening.maxima }
        ensures { seat.new ≡ record seat.old { view = raised seat.old.view place n } }
    {
        let at = self.words as usize + place as usize;
        self.table
            .shared
            .fetch_max::<Raise<P>>(&mut seat.seat, at, n);
    }

    /// Gives a share and an allowance to a new seat, which has put in nothing. The seat keeps its tallies and maxima.
    pub fn split(&self, seat: &mut CountSeat, share: u32, allowance: u64) -> CountSeat
        requires table { seat.old.table ≡ self.now.table }
        requires some { 1 ≤ share }
        requires share { share < seat.old.view.share }
        requires allowance { (word : ℕ) → tally_at word seat.old.view + allowance ≤ seat.old.view.allowance }
        ensures seat { seat.new ≡ record seat.old { view = left seat.old.view share allowance } }
        ensures new { result ≡ record seat.old { view = given seat.old.view share allowance } }
    {
        self.split_by::<Brand>(seat, share, allowance)
    }

    /// Splits a seat, where `C` names what the new seat gets.
    fn split_by<C: Cut>(&self, seat: &mut CountSeat, share: u32, allowance: u64) -> CountSeat
        requires named { (C.share ≡ share) × (C.allowance ≡ allowance) }
        requires table { seat.old.table ≡ self.now.table }
        requires some { 1 ≤ share }
        requires share { share < seat.old.view.share }
        requires allowance { (word : ℕ) → tally_at word seat.old.view + allowance ≤ seat.old.view.allowance }
        ensures seat { seat.new ≡ record seat.old { view = left seat.old.view share allowance } }
        ensures new { result ≡ record seat.old { view = given seat.old.view share allowance } }
    {
        let seat = self.table.shared.split_seat::<CutOff<C>>(&mut seat.seat);
        CountSeat { seat }
    }

    /// Takes in another seat of this table: shares, allowances and tallies are added, and the maxima are the greater.
    pub fn join(&self, seat: &mut CountSeat, other: CountSeat)
        requires table { seat.old.table ≡ self.now.table }
        requires other { other.table ≡ self.now.table }
        ensures { seat.new ≡ record seat.old { view = joined seat.old.view other.view } }
    {
        let CountSeat { seat: other } = other;
        self.table.shared.join_seat::<Both>(&mut seat.seat, other);
    }

    /// Closes the table by the seat that has all shares. The sums and maxima are all that its seats put in.
    pub fn close(self, seat: CountSeat) -> CountClosed
        requires table { seat.table ≡ self.table }
        requires whole { seat.view.share ≡ self.opening.shares }
        ensures sums { result.sums ≡ seat.view.tallies }
        ensures maxima { result.maxima ≡ seat.view.maxima }
        ensures row { IsRow self.opening result.sums result.maxima }
    {
        let CountTable {
            table,
            words,
            maxima,
        } = self;
        let CountSeat { seat } = seat;
        let closed = table.close_with(seat);
        CountClosed {
            closed,
            words,
            maxima,
        }
    }
}
