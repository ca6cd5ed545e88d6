ghost use Rattle.std.specs.Prelude.{◌≡◌, [], IfOk, List, length, map};
ghost use Rattle.ga_summary.specs.Outcomes.{Outcome};
ghost use Rattle.ga_summary.specs.Sound.{AllCountable};
ghost use Rattle.ga_base.specs.Totals.{TotalsFit};
ghost use Rattle.ga_summary.specs.Sums.{IsSumOf};
ghost use Rattle.ga_tallies.specs.Tallies.{IsTallyOf, lists_in, pairs_in};
ghost use Rattle.ga_totals.specs.Steps.KeyRows.{AreWithin};
ghost use Rattle.ga_totals.specs.Steps.Sources.{AreVisits};
ghost use Rattle.ga_totals.specs.Totals.{IsOfCountable, IsSourceOfSum};

use crate::key_panels::panels_of;
use crate::part_rows::rows_of;
use crate::total_source::TotalSource;
use crate::visits::{visits_in_parts, visits_of};
use ga_base::{NoMemory, Panel, Totals};
use ga_numbers::KeyNumbers;
use ga_shards::Keyed;
use ga_summary::{PartRows, Summary, SummaryParts};
use ga_tallies::{Tally, TallyParts, VisitorRow};
use std::alloc::Global;
use std::marker::Model;
use std::thread::{self, Threads};

/// Of fewer keys than these no parts are made, and no thread is started.
const MANY_KEYS: u32 = 4096;

/// What a run has counted, in numbers: each different key and each different visitor has one. Contracts see the parts as
/// lists, as those of a tally.
#[derive(Drop)]
pub struct Total {
    parts: TallyParts,
}

impl Model for Total {
    ghost use Rattle.ga_base.specs.Totals.{TotalsFit};
    ghost use Rattle.ga_tallies.specs.Tallies.{TallySeen, seen_in};

    ghost Value = { TallySeen };

    ghost view = { λ t. seen_in t.parts };

    ghost invariant = { λ t. TotalsFit t.parts.totals };
}

impl Total {
    /// The total of no lines, which takes no memory.
    pub fn new(alloc: Global) -> Total
        ensures { IsTallyOf [] result }
    {
        Total::of(Tally::new(alloc, Keyed::new(0, 0)))
    }

    /// The total of what a tally has counted.
    pub fn of(tally: Tally) -> Total
        ensures { result ≡ tally }
    {
        // What is known of the totals is that they fit.
        let _totals = tally.totals();
        Total {
            parts: tally.into_parts(),
        }
    }

    /// Whether keys and visitors are hashed by `keyed`. No answer depends on it: it is for tests.
    pub fn is_keyed_by(&self, keyed: &Keyed) -> bool {
        self.parts.keys.is_keyed_by(keyed) && self.parts.visitors.is_keyed_by(keyed)
    }

    /// What was counted over all lines. No counter passes `LIMIT`.
    pub fn totals(&self) -> Totals
        ensures value { result ≡ self.now.totals }
        ensures fit { TotalsFit result }
    {
        self.parts.totals
    }

    /// The summary of all that was counted: rows in the order of their keys, and names in theirs. It takes the time of
    /// sorting the keys, the visitors once by their names, and the numbers in each row; and the memory of a list of the keys and
    /// one of the visitors, whose texts are shared, and of the visitors' ranks.
    pub fn summary(&self, alloc: Global) -> Result<Summary, NoMemory>
        requires { IsOfCountable self.now }
        ensures { IfOk result (λ sum. (xs : List Outcome) → IsTallyOf xs self.now → AllCountable xs
            → IsSumOf xs sum) }
    {
        let keys = self.parts.keys.items(alloc)?;
        let visitors = self.parts.visitors.items(alloc)?;
        let rows = rows_of(
            alloc,
            &keys,
            &self.parts.sums,
            &visitors,
            &self.parts.visits,
        )?;
        Summary::of_parts(SummaryParts {
            totals: self.parts.totals,
            rows: PartRows::from(rows),
        })
    }

    /// The total as a source of rows for a report: those of the summary, without its names, and of the keys as they stand. It
    /// takes the time of a few looks at each visitor of each row, which with more jobs than one threads share; and the memory
    /// of two numbers and a panel for each key, and, for each of four parts of the keys that has a long row, of a mark for each
    /// visitor.
    pub fn source<R: Threads + Sync>(
        &self,
        rt: &R,
        alloc: Global,
        jobs: u32,
    ) -> Result<TotalSource<'_>, NoMemory>
        requires { IsOfCountable self.now }
        ensures { IfOk result (λ source. (xs : List Outcome) → IsTallyOf xs self.now → AllCountable xs
            → IsSourceOfSum xs source) }
    {
        let TallyParts {
            totals,
            keys,
            visitors,
            sums,
            visits,
        } = &self.parts;
        let many = visitors.len() as usize;
        let (visits, panels) = visits_and_panels(rt, alloc, jobs, keys, many, visits)?;
        Ok(TotalSource::of(*totals, keys, panels, sums, visits))
    }
}

/// How many visitors each key has, and the panel of each. With more jobs than one those of many keys are found side by side.
fn visits_and_panels<R: Threads + Sync>(
    rt: &R,
    alloc: Global,
    jobs: u32,
    keys: &KeyNumbers,
    visitors: usize,
    rows: &[VisitorRow],
) -> Result<(Vec<u64>, Vec<Panel>), NoMemory>
    requires { AreWithin visitors (lists_in rows.now) }
    ensures visits { IfOk result (λ found. AreVisits (length keys.now) (pairs_in (lists_in rows.now)) found.0.items) }
    ensures panels { IfOk result (λ found. found.1.items ≡ map (λ key. key.panel) keys.now) }
{
    let many = keys.len();
    if jobs <= 1 || many < MANY_KEYS {
        let visits = visits_of(alloc, many, visitors, rows)?;
        return Ok((visits, panels_of(alloc, keys)?));
    }
    let count = move || -> Result<Vec<u64>, NoMemory>
        requires { AreWithin visitors (lists_in rows.now) }
        ensures { IfOk result (λ visits. AreVisits many (pairs_in (lists_in rows.entry.now)) visits.items) }
    { visits_in_parts(rt, alloc, many, visitors, rows) };
    let list = move || -> Result<Vec<Panel>, NoMemory>
        ensures { IfOk result (λ panels. panels.items ≡ map (λ key. key.panel) keys.entry.now) }
    { panels_of(alloc, keys) };
    let (panels, visits) = thread::join(rt, list, count);
    Ok((visits?, panels?))
}
