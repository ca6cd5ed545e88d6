ghost use Rattle.std.specs.Prelude.{◌≡◌, ◌+◌, ◌-◌, ◌*◌, ◌<◌, ◌≤◌, ◌++◌, ◌∷◌, ◌^◌, [], ℕ, length, map};
ghost use Rattle.ga_counts.specs.Counts.{tally_at};
ghost use Rattle.ga_pool.specs.Steps.Filling.{CanAdd, CanClaim, Gains, IsBlank, added_at, at_place, at_word, claim_of, numbers_at, raised_to};

use ga_base::{Key, Steps, Sums, Visitor};
use ga_counts::{CountSeat, CountTable};
use ga_pairs::{Insert, PairSeat, PairSet};
use ga_shards::Numbering;
use ga_tallies::Pair;
use std::marker::Brand;
use std::sync::ledger::{Blank, Ledger};

/// Adds the sums of a worker's keys, each under its key's number.
pub(crate) fn put_rows(
    counts: &CountTable,
    seat: &mut CountSeat,
    keys: &Numbering<Key>,
    worker: u32,
    rows: &[Sums],
)
    requires table { seat.old.table ≡ counts.now.table }
    requires words { counts.now.opening.words ≡ 3 * length keys.now.items }
    requires maxima { counts.now.opening.maxima ≡ length keys.now.items }
    requires fits { 3 * length keys.now.items < 2 ^ 32 }
    requires blank { IsBlank counts.now.opening.words counts.now.opening.maxima seat.old.view }
    requires rows { CanAdd (length keys.now.items) seat.old.view.allowance (numbers_at keys.now.numbers worker) rows.now }
    ensures table { seat.new.table ≡ seat.old.table }
    ensures gains { Gains seat.old.view seat.new.view (λ word. added_at word (numbers_at keys.now.numbers worker) rows.now)
        (λ place. raised_to place (numbers_at keys.now.numbers worker) rows.now) }
{
    for local in 0..rows.len() {
        let number = keys.of(worker, local as u32);
        put_sums(counts, seat, number, &rows[local]);
    }
}

/// Adds the sums of a key's number.
fn put_sums(counts: &CountTable, seat: &mut CountSeat, number: u32, sums: &Sums)
    requires table { seat.old.table ≡ counts.now.table }
    requires number { number < counts.now.opening.maxima }
    requires words { counts.now.opening.words ≡ 3 * counts.now.opening.maxima }
    requires fits { counts.now.opening.words < 2 ^ 32 }
    requires row { (length seat.old.view.tallies ≡ counts.now.opening.words) × (length seat.old.view.maxima ≡ counts.now.opening.maxima) }
    requires hits { tally_at (3 * number) seat.old.view + sums.now.hits ≤ seat.old.view.allowance }
    requires bytes { tally_at (3 * number + 1) seat.old.view + sums.now.bytes ≤ seat.old.view.allowance }
    requires micros { tally_at (3 * number + 2) seat.old.view + sums.now.micros ≤ seat.old.view.allowance }
    ensures table { seat.new.table ≡ seat.old.table }
    ensures gains { Gains seat.old.view seat.new.view (λ word. at_word word number sums.now) (λ place. at_place place number sums.now) }
{
    let word = 3 * number;
    counts.add(seat, word, sums.hits);
    counts.add(seat, word + 1, sums.bytes);
    counts.add(seat, word + 2, sums.micros);
    counts.raise(seat, number, sums.max_micros);
}

/// Claims the pairs of a worker, by the numbers of their keys and visitors.
pub(crate) fn claim_pairs(
    set: &PairSet,
    seat: &mut PairSeat,
    keys: &Numbering<Key>,
    visitors: &Numbering<Visitor>,
    worker: u32,
    pairs: &[Pair],
)
    requires table { seat.old.table ≡ set.now.table }
    requires allowance { length pairs.now ≤ seat.old.claims.allowance }
    requires keys { length keys.now.items < 2 ^ 32 }
    requires visitors { length visitors.now.items < 2 ^ 32 }
    requires pairs { CanClaim (length keys.now.items) (length visitors.now.items) (numbers_at keys.now.numbers worker) (numbers_at visitors.now.numbers worker) pairs.now }
    ensures table { seat.new.table ≡ seat.old.table }
    ensures share { seat.new.claims.share ≡ seat.old.claims.share }
    ensures asked { seat.new.claims.asked ≡ seat.old.claims.asked ++ map (claim_of (numbers_at keys.now.numbers worker) (numbers_at visitors.now.numbers worker)) pairs.now }
{
    for pair in pairs {
        let key = keys.of(worker, pair.key);
        let visitor = visitors.of(worker, pair.visitor);
        claim(set, seat, key, visitor);
    }
}

/// Claims a pair of numbers, and answers whether it was there.
fn claim(set: &PairSet, seat: &mut PairSeat, key: u32, visitor: u32) -> Insert
    requires table { seat.old.table ≡ set.now.table }
    requires allowance { 1 ≤ seat.old.claims.allowance }
    requires numbers { (key < 2 ^ 32 - 1) × (visitor < 2 ^ 32 - 1) }
    ensures table { seat.new.table ≡ seat.old.table }
    ensures share { seat.new.claims.share ≡ seat.old.claims.share }
    ensures allowance { seat.new.claims.allowance + 1 ≡ seat.old.claims.allowance }
    ensures asked { seat.new.claims.asked ≡ seat.old.claims.asked ++ record { key = key; visitor = visitor } ∷ [] }
{
    claim_by::<Brand>(set, seat, key, visitor, Blank::new(1))
}

/// Claims a pair, where `L` names a ledger of the steps that it takes.
fn claim_by<L: Ledger>(
    set: &PairSet,
    seat: &mut PairSeat,
    key: u32,
    visitor: u32,
    blank: Blank,
) -> Insert
    requires ledger { (blank.name ≡ L.name) × (blank.parts ≡ L.parts) × (0 < blank.parts) }
    requires table { seat.old.table ≡ set.now.table }
    requires allowance { 1 ≤ seat.old.claims.allowance }
    requires numbers { (key < 2 ^ 32 - 1) × (visitor < 2 ^ 32 - 1) }
    ensures table { seat.new.table ≡ seat.old.table }
    ensures share { seat.new.claims.share ≡ seat.old.claims.share }
    ensures allowance { seat.new.claims.allowance + 1 ≡ seat.old.claims.allowance }
    ensures asked { seat.new.claims.asked ≡ seat.old.claims.asked ++ record { key = key; visitor = visitor } ∷ [] }
{
    let mut steps = Steps::<L>::open(blank);
    set.insert(seat, key, visitor, &mut steps)
}
