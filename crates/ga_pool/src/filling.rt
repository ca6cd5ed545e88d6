ghost use Rattle.std.specs.Prelude.{◌≡◌, ◌+◌, ◌*◌, ◌<◌, ◌≤◌, ◌++◌, ◌^◌, ℕ, All, IfOk, IfSome, flat_map, max, length, slice_index, slice_index_or, sum_by, vec_len};
ghost use Rattle.ga_base.specs.declared.counts.TheConstants.{LIMIT};
ghost use Rattle.ga_base.specs.declared.limits.TheConstants.{MAX_JOBS};
ghost use Rattle.ga_counts.specs.Counts.{blank, given as seat_of, left as left_of, maximum_at, tally_at};
ghost use Rattle.ga_pairs.specs.Pairs.{given, left as claims_left};
ghost use Rattle.ga_pool.specs.Steps.Filled.{AreTablesOf, CanBePut, CanPutAll, ClosesOver, HasPut, IsSeated};
ghost use Rattle.ga_pool.specs.Steps.Filling.{adds, claims_of, lists_from, max_from, raises, sum_from, weight_of_rows};
ghost use Rattle.ga_counts.specs.Greatest.{greatest_by};
ghost use Rattle.ga_base.specs.Totals.{TotalsFit};

use crate::putting::{claim_pairs, put_rows};
use crate::table_inputs::TableRows;
use ga_base::{Key, NoMemory, Totals, Visitor};
use ga_counts::{CountClosed, CountSeat, CountTable};
use ga_pairs::{PairClosed, PairSeat, PairSet};
use ga_shards::Numbering;
use std::alloc::Global;
use std::thread::{self, Threads};

/// What a worker begins with.
#[derive(Drop)]
struct FillTask {
    /// Its number.
    worker: u32,
    /// What it puts in.
    rows: TableRows,
    /// Its seat at the counts.
    counts: CountSeat,
    /// Its seat at the pairs.
    pairs: PairSeat,
}

/// What a worker gives back: its seats, which know what was put in.
#[derive(Drop)]
struct TableSeats {
    /// Its seat at the counts.
    counts: CountSeat,
    /// Its seat at the pairs.
    pairs: PairSeat,
}

/// Puts the rows of all workers into tables, side by side. `totals` are those of all rows together.
pub(crate) fn fill<R: Threads + Sync>(
    rt: &R,
    alloc: Global,
    keys: &Numbering<Key>,
    visitors: &Numbering<Visitor>,
    rows: Vec<TableRows>,
    totals: Totals,
) -> Result<(CountClosed, PairClosed), NoMemory>
    requires some { 1 ≤ vec_len rows }
    requires most { vec_len rows ≤ MAX_JOBS }
    requires each { CanPutAll keys.now visitors.now rows.items }
    requires fit { TotalsFit totals }
    requires whole { sum_by weight_of_rows rows.items ≡ totals.lines + totals.bytes + totals.micros }
    ensures words { IfOk result (λ r. length r.0.sums ≡ 3 * length keys.now.items) }
    ensures places { IfOk result (λ r. length r.0.maxima ≡ length keys.now.items) }
    ensures sums { IfOk result (λ r. (word : ℕ) → slice_index r.0.sums word ≡ sum_from (adds keys.now.numbers word) 0 rows.items) }
    ensures maxima { IfOk result (λ r. (place : ℕ) → slice_index r.0.maxima place ≡ max_from (raises keys.now.numbers place) 0 rows.items) }
    ensures pairs { IfOk result (λ r. ClosesOver (lists_from (claims_of keys.now.numbers visitors.now.numbers) 0 rows.items) r.1) }
{
    let workers = rows.len() as u32;
    let words = keys.len().checked_mul(3).ok_or(NoMemory)?;
    let _visitors = visitors.len();
    let asked = pairs_in(&rows).ok_or(NoMemory)?;
    let most = totals.lines + totals.bytes + totals.micros;
    let (counts, mut count_seat) = CountTable::open(alloc, words, keys.len(), workers + 1, most)?;
    let (pairs, mut pair_seat) = PairSet::open(alloc, 2 * asked + 1, asked, workers + 1)?;
    let loads = fill_tasks(
        alloc,
        &counts,
        &mut count_seat,
        &pairs,
        &mut pair_seat,
        rows,
    )?;
    let shared_counts = &counts;
    let shared_pairs = &pairs;
    let put = move |load: FillTask| -> TableSeats
        requires { CanBePut shared_counts.now shared_pairs.now keys.now visitors.now load }
        ensures { HasPut shared_counts.entry.now shared_pairs.entry.now keys.entry.now visitors.entry.now load result }
    { fill_tables(shared_counts, shared_pairs, keys, visitors, load) };
    let puts = thread::map_vec(rt, loads, &put)?;
    join_all(&counts, &mut count_seat, &pairs, &mut pair_seat, puts);
    Ok((counts.close(count_seat), pairs.close(pair_seat)))
}

/// How many pairs the rows have, where a set of twice as many cells has numbers of 32 bits.
fn pairs_in(rows: &[TableRows]) -> Option<u32>
    ensures many { IfSome result (λ pairs. pairs ≡ sum_by (λ one. length one.pairs.items) rows.now) }
    ensures fits { IfSome result (λ pairs. 2 * pairs + 1 < 2 ^ 32) }
{
    let mut pairs = 0u64;
    for one in rows {
        pairs = pairs.checked_add(one.pairs.len() as u64)?;
    }
    if pairs < 1 << 31 {
        Some(pairs as u32)
    } else {
        None
    }
}

/// A load for each worker: its rows, and its seats.
fn fill_tasks(
    alloc: Global,
    counts: &CountTable,
    count_seat: &mut CountSeat,
    pairs: &PairSet,
    pair_seat: &mut PairSeat,
    rows: Vec<TableRows>,
) -> Result<Vec<FillTask>, NoMemory>
    requires few { vec_len rows ≤ MAX_JOBS }
    requires count_table { count_seat.old.table ≡ counts.now.table }
    requires count_view { count_seat.old.view ≡ blank counts.now.opening.words counts.now.opening.maxima (vec_len rows + 1) (sum_by weight_of_rows rows.items) }
    requires fits { sum_by weight_of_rows rows.items ≤ 3 * LIMIT }
    requires pair_table { pair_seat.old.table ≡ pairs.now.table }
    requires pair_view { pair_seat.old.claims ≡ given (vec_len rows + 1) (sum_by (λ one. length one.pairs.items) rows.items) }
    requires pairs_fit { sum_by (λ one. length one.pairs.items) rows.items < 2 ^ 31 }
    ensures len { IfOk result (λ loads. vec_len loads ≡ vec_len rows) }
    ensures rows { IfOk result (λ loads. (i : ℕ) (d : _) → i < vec_len rows
        → ((slice_index_or loads.items i d).worker ≡ i) × ((slice_index_or loads.items i d).rows ≡ slice_index_or rows.items i (slice_index_or loads.items i d).rows)) }
    ensures seats { IfOk result (λ loads. All (IsSeated counts.now pairs.now) loads.items) }
    ensures count_seat { IfOk result (λ _. (count_seat.new.table ≡ counts.now.table) × (count_seat.new.view ≡ blank counts.now.opening.words counts.now.opening.maxima 1 0)) }
    ensures pair_seat { IfOk result (λ _. (pair_seat.new.table ≡ pairs.now.table) × (pair_seat.new.claims ≡ given 1 0)) }
{
    let mut loads = Vec::with_capacity(alloc, rows.len())?;
    let mut worker = 0;
    for rows in rows {
        let load = fill_task(counts, count_seat, pairs, pair_seat, worker, rows);
        loads.push(load)?;
        worker += 1;
    }
    Ok(loads)
}

/// The load of a worker, with seats that are split off for it.
fn fill_task(
    counts: &CountTable,
    count_seat: &mut CountSeat,
    pairs: &PairSet,
    pair_seat: &mut PairSeat,
    worker: u32,
    rows: TableRows,
) -> FillTask
    requires count_table { count_seat.old.table ≡ counts.now.table }
    requires count_share { 1 < count_seat.old.view.share }
    requires fits { weight_of_rows rows ≤ 3 * LIMIT }
    requires weight { (word : ℕ) → tally_at word count_seat.old.view + weight_of_rows rows ≤ count_seat.old.view.allowance }
    requires pair_table { pair_seat.old.table ≡ pairs.now.table }
    requires pair_share { 1 < pair_seat.old.claims.share }
    requires pairs { length rows.pairs.items ≤ pair_seat.old.claims.allowance }
    requires pairs_fit { length rows.pairs.items < 2 ^ 31 }
    ensures worker { result.worker ≡ worker }
    ensures rows { result.rows ≡ rows }
    ensures counts { result.counts ≡ record count_seat.old { view = seat_of count_seat.old.view 1 (weight_of_rows rows) } }
    ensures count_seat { count_seat.new ≡ record count_seat.old { view = left_of count_seat.old.view 1 (weight_of_rows rows) } }
    ensures pairs { result.pairs ≡ record { table = pair_seat.old.table; claims = given 1 (length rows.pairs.items) } }
    ensures pair_seat { pair_seat.new ≡ record pair_seat.old { claims = claims_left pair_seat.old.claims 1 (length rows.pairs.items) } }
{
    let weight = rows.totals.lines + rows.totals.bytes + rows.totals.micros;
    let count = rows.pairs.len() as u32;
    FillTask {
        worker,
        rows,
        counts: counts.split(count_seat, 1, weight),
        pairs: pairs.split(pair_seat, 1, count),
    }
}

/// Puts a worker's rows into the tables.
fn fill_tables(
    counts: &CountTable,
    pairs: &PairSet,
    keys: &Numbering<Key>,
    visitors: &Numbering<Visitor>,
    load: FillTask,
) -> TableSeats
    requires { CanBePut counts.now pairs.now keys.now visitors.now load }
    ensures { HasPut counts.now pairs.now keys.now visitors.now load result }
{
    let FillTask {
        worker,
        rows,
        counts: mut count_seat,
        pairs: mut pair_seat,
    } = load;
    put_rows(counts, &mut count_seat, keys, worker, &rows.sums);
    claim_pairs(pairs, &mut pair_seat, keys, visitors, worker, &rows.pairs);
    TableSeats {
        counts: count_seat,
        pairs: pair_seat,
    }
}

/// Takes in the seats of all workers.
fn join_all(
    counts: &CountTable,
    count_seat: &mut CountSeat,
    pairs: &PairSet,
    pair_seat: &mut PairSeat,
    puts: Vec<TableSeats>,
)
    requires count_table { count_seat.old.table ≡ counts.now.table }
    requires pair_table { pair_seat.old.table ≡ pairs.now.table }
    requires each { All (λ put. (put.counts.table ≡ counts.now.table) × (put.pairs.table ≡ pairs.now.table) × (put.counts.view.share ≡ 1) × (put.pairs.claims.share ≡ 1)) puts.items }
    ensures count_table { count_seat.new.table ≡ counts.now.table }
    ensures pair_table { pair_seat.new.table ≡ pairs.now.table }
    ensures count_share { count_seat.new.view.share ≡ count_seat.old.view.share + vec_len puts }
    ensures pair_share { pair_seat.new.claims.share ≡ pair_seat.old.claims.share + vec_len puts }
    ensures sums { (word : ℕ) → tally_at word count_seat.new.view ≡ tally_at word count_seat.old.view + sum_by (λ put. tally_at word put.counts.view) puts.items }
    ensures maxima { (place : ℕ) → maximum_at place count_seat.new.view ≡ max (maximum_at place count_seat.old.view) (greatest_by (λ put. maximum_at place put.counts.view) puts.items) }
    ensures asked { pair_seat.new.claims.asked ≡ pair_seat.old.claims.asked ++ flat_map (λ put. put.pairs.claims.asked) puts.items }
{
    for put in puts {
        let TableSeats {
            counts: its_counts,
            pairs: its_pairs,
        } = put;
        counts.join(count_seat, its_counts);
        pairs.join(pair_seat, its_pairs);
    }
}
