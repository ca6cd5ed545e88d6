ghost use Rattle.std.specs.Prelude.{◌≡◌, ◌<◌, ℕ, IfOk, OnOk, map};
ghost use Rattle.ga_base.specs.Orders.{is_same_key, is_same_visitor};
ghost use Rattle.ga_numbers.specs.NotedNumbers.{AreNotedInTurn};
ghost use Rattle.ga_base.specs.Totals.{TotalsFit};
ghost use Rattle.ga_tallies.specs.Steps.Adding.{HoldTheSame};
ghost use Rattle.ga_tallies.specs.Steps.Absorbing.{AddsSuch, IsBrought, IsRemapped, remapped_seen, rows_added, sums_remapped};
ghost use Rattle.ga_tallies.specs.Tallies.{AbsorbsAll, totals_from};

use crate::Tally;
use crate::note_keys::add_line;
use crate::pairs::PairList;
use crate::remapped_tally::{RemappedTally, remap_tallies};
use crate::tally_columns::{into_columns, totals_with};
use ga_base::{NoMemory, Sums};
use ga_numbers::{Extended, KeyNumbers, VisitorNumbers};
use std::alloc::Global;
use std::thread::{self, Threads};

impl Tally {
    /// This tally with what others have counted, one after the other, whose numbers are their own. Keys and visitors are noted
    /// side by side, and then sums and pairs are added side by side.
    pub fn with<R: Threads + Sync>(
        self,
        rt: &R,
        alloc: Global,
        others: Vec<Tally>,
    ) -> Result<Tally, NoMemory>
        requires { TotalsFit (totals_from self.totals others.items) }
        ensures totals { IfOk result (λ tally. tally.totals ≡ totals_from self.totals others.items) }
        ensures absorbed { IfOk result (AbsorbsAll others.items self) }
    {
        let totals = totals_with(self.totals, &others);
        let others = into_columns(alloc, others)?;
        let ((keys, pairs), visitors) = note_both(
            rt,
            alloc,
            self.keys,
            self.visitors,
            self.pairs,
            others.keys,
            others.visitors,
        )?;
        let remapped_tallies = remap_tallies(alloc, keys.numbers, visitors.numbers, others.counts)?;
        let many = keys.known.len() as usize;
        let (sums, pairs) = add_remapped(rt, many, self.sums, pairs, remapped_tallies)?;
        Ok(Tally {
            totals,
            keys: keys.known,
            visitors: visitors.known,
            sums,
            pairs,
        })
    }
}

/// Notes other keys and other visitors, side by side, and makes a row of pairs for each key. Keys and visitors share nothing, and
/// each are with the thread that notes among them, which has their shards noted side by side too.
fn note_both<R: Threads + Sync>(
    rt: &R,
    alloc: Global,
    keys: KeyNumbers,
    visitors: VisitorNumbers,
    pairs: PairList,
    more_keys: Vec<KeyNumbers>,
    more_visitors: Vec<VisitorNumbers>,
) -> Result<((Extended<KeyNumbers>, PairList), Extended<VisitorNumbers>), NoMemory>
    ensures keys { IfOk result (λ both. AreNotedInTurn is_same_key more_keys.items (map (λ l. l.items) both.0.0.numbers.items) keys both.0.0.known) }
    ensures pairs { IfOk result (λ both. HoldTheSame pairs both.0.1) }
    ensures visitors { IfOk result (λ both. AreNotedInTurn is_same_visitor more_visitors.items (map (λ l. l.items) both.1.numbers.items) visitors both.1.known) }
{
    let note_keys = move || -> Result<(Extended<KeyNumbers>, PairList), NoMemory>
        ensures { IfOk result (λ both. AreNotedInTurn is_same_key more_keys.items (map (λ l. l.items) both.0.numbers.items) keys both.0.known × HoldTheSame pairs both.1) }
    { keys_with_rows(rt, alloc, keys, more_keys, pairs) };
    let note_visitors = move || -> Result<Extended<VisitorNumbers>, NoMemory>
        ensures { IfOk result (λ extended. AreNotedInTurn is_same_visitor more_visitors.items (map (λ l. l.items) extended.numbers.items) visitors extended.known) }
    { visitors.with(rt, alloc, more_visitors) };
    let (keys, visitors) = thread::join(rt, note_keys, note_visitors);
    Ok((keys?, visitors?))
}

/// Keys after those of others were noted among them, and pairs with a row for each of them.
fn keys_with_rows<R: Threads + Sync>(
    rt: &R,
    alloc: Global,
    keys: KeyNumbers,
    others: Vec<KeyNumbers>,
    pairs: PairList,
) -> Result<(Extended<KeyNumbers>, PairList), NoMemory>
    ensures keys { IfOk result (λ both. AreNotedInTurn is_same_key others.items (map (λ l. l.items) both.0.numbers.items) keys both.0.known) }
    ensures pairs { IfOk result (λ both. HoldTheSame pairs both.1) }
{
    let extended = keys.with(rt, alloc, others)?;
    let many = extended.known.len() as usize;
    Ok((extended, pairs.with_rows(many)?))
}

/// Adds what others have counted to the sums and pairs of this many keys, one after the other. What one of them has counted is
/// dropped while the next is added.
fn add_remapped<R: Threads + Sync>(
    rt: &R,
    keys: usize,
    sums: Vec<Sums>,
    pairs: PairList,
    remapped_tallies: Vec<RemappedTally>,
) -> Result<(Vec<Sums>, PairList), NoMemory>
    requires { (pair : ℕ × ℕ) → IsRemapped (map remapped_seen remapped_tallies.items) pair → pair.0 < keys }
    ensures sums { IfOk result (λ both. both.0.items ≡ sums_remapped (map remapped_seen remapped_tallies.items) sums.items) }
    ensures pairs { IfOk result (λ both. AddsSuch (IsRemapped (map remapped_seen remapped_tallies.items)) pairs both.1) }
{
    let mut sums = sums;
    let mut pairs = pairs;
    let mut added = None;
    for remapped in remapped_tallies {
        (sums, pairs) = add_next(rt, keys, sums, pairs, &remapped, added)?;
        added = Some(remapped);
    }
    Ok((sums, pairs))
}

/// Adds what another has counted to sums and to pairs, and meanwhile drops what was added before.
fn add_next<R: Threads + Sync>(
    rt: &R,
    keys: usize,
    sums: Vec<Sums>,
    pairs: PairList,
    remapped: &RemappedTally,
    added: Option<RemappedTally>,
) -> Result<(Vec<Sums>, PairList), NoMemory>
    requires { (pair : ℕ × ℕ) → IsBrought (remapped_seen remapped.now) pair → pair.0 < keys }
    ensures sums { IfOk result (λ both. both.0.items ≡ rows_added remapped.now.keys.items remapped.now.counts.sums.items sums.items) }
    ensures pairs { IfOk result (λ both. AddsSuch (IsBrought (remapped_seen remapped.now)) pairs both.1) }
{
    let Some(added) = added else {
        return add_both(rt, keys, sums, pairs, remapped);
    };
    let forget = move || drop(added);
    let add = move || -> Result<(Vec<Sums>, PairList), NoMemory>
        requires { (pair : ℕ × ℕ) → IsBrought (remapped_seen remapped.now) pair → pair.0 < keys }
        ensures { IfOk result (λ both. (both.0.items ≡ rows_added remapped.entry.now.keys.items remapped.entry.now.counts.sums.items sums.items)
            × AddsSuch (IsBrought (remapped_seen remapped.entry.now)) pairs both.1) }
    { add_both(rt, keys, sums, pairs, remapped) };
    let ((), both) = thread::join(rt, forget, add);
    both
}

/// Adds what another has counted to sums and to pairs, side by side.
fn add_both<R: Threads + Sync>(
    rt: &R,
    keys: usize,
    sums: Vec<Sums>,
    pairs: PairList,
    remapped: &RemappedTally,
) -> Result<(Vec<Sums>, PairList), NoMemory>
    requires { (pair : ℕ × ℕ) → IsBrought (remapped_seen remapped.now) pair → pair.0 < keys }
    ensures sums { IfOk result (λ both. both.0.items ≡ rows_added remapped.now.keys.items remapped.now.counts.sums.items sums.items) }
    ensures pairs { IfOk result (λ both. AddsSuch (IsBrought (remapped_seen remapped.now)) pairs both.1) }
{
    let add_sums = move || -> Result<Vec<Sums>, NoMemory>
        ensures { IfOk result (λ added. added.items ≡ rows_added remapped.entry.now.keys.items remapped.entry.now.counts.sums.items sums.items) }
    { sums_with(sums, &remapped.keys, &remapped.counts.sums) };
    let add_pairs = move || -> Result<PairList, NoMemory>
        requires { (pair : ℕ × ℕ) → IsBrought (remapped_seen remapped.now) pair → pair.0 < keys }
        ensures { IfOk result (AddsSuch (IsBrought (remapped_seen remapped.entry.now)) pairs) }
    { pairs.with(rt, keys, remapped) };
    let (sums, pairs) = thread::join(rt, add_sums, add_pairs);
    Ok((sums?, pairs?))
}

/// Rows of sums after each of these was added to the row that has its number.
fn sums_with(rows: Vec<Sums>, numbers: &[u32], more: &[Sums]) -> Result<Vec<Sums>, NoMemory>
    ensures { IfOk result (λ added. added.items ≡ rows_added numbers.now more.now rows.items) }
{
    let mut rows = rows;
    for (place, number) in numbers.iter().enumerate() {
        if let Some(line) = more.get(place) {
            add_line(&mut rows, *number, *line)?;
        }
    }
    Ok(rows)
}
