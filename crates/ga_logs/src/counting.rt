ghost use Rattle.std.specs.Prelude.{◌≡◌, ◌≤◌, ◌<◌, ◌++◌, [], ℕ, List, None, OnOk, IfOk, length, true, false, vec_len};
ghost use Rattle.std.specs.Result.{IsErrOf};
ghost use Rattle.ga_line.specs.Lines.{lines};
ghost use Rattle.ga_outcomes.specs.LineOutcomes.{FillsAmong};
ghost use Rattle.ga_outcomes.specs.declared.setup.Setup.{Setup as TheSetup};
ghost use Rattle.ga_logs.specs.Counting.{AreInTotal, HasCounted, HaveTallies, begun_with};
ghost use Rattle.ga_batches.specs.Batches.{Holds, held};
ghost use Rattle.ga_summary.specs.Outcomes.{Outcome};
ghost use Rattle.ga_tallies.specs.Tallies.{IsTallyOf};
ghost use Rattle.ga_workers.specs.Together.{AreCounted};
ghost use Rattle.ga_workers.specs.Workers.{AreWorkers};
ghost use Rattle.ga_logs.specs.declared.full.Full.{Full as TheFull};
ghost use Rattle.ga_base.specs.Totals.{LinesAdd, TotalsFit};

use crate::full::{CountingFault, Full};
use crate::stream_total::total_of;
use ga_base::{NoMemory, Totals};
use ga_batches::Batcher;
use ga_ports::Gate;
use ga_tallies::Tally;
use ga_totals::Total;
use ga_workers::{Crew, PoolFault, Workers, count_on, keyed_by, new_tallies};
use std::alloc::Global;
use std::marker::Model;
use std::mem;
use std::thread::Threads;

/// What was counted so far of the lines of a run, batch after batch. Where they fill a counter no more is counted.
#[derive(Drop)]
pub(crate) struct Counting {
    /// What the counters began at.
    start: Totals,
    /// The workers that count. They fix how many bytes a batch has.
    workers: Workers,
    /// What each worker has counted since, over all batches. There is none before the first batch that has bytes.
    tallies: Vec<Tally>,
    /// The counter that is full. What was counted is dropped then.
    full: Option<Full>,
}

impl Model for Counting {
    ghost use Rattle.ga_logs.specs.Counting.{CountingSeen};

    ghost Value = { CountingSeen };

    ghost use Rattle.std.specs.Prelude.{◌≡◌, ◌≤◌, None, vec_len};
    ghost use Rattle.ga_base.specs.declared.limits.TheConstants.{MAX_JOBS};
    ghost use Rattle.ga_logs.specs.Counting.{HaveTallies, begun_with};
    ghost use Rattle.ga_logs.specs.Steps.Counting.{AreSome};
    ghost use Rattle.ga_workers.specs.Workers.{AreWorkers};
    ghost use Rattle.ga_base.specs.Totals.{LinesAdd, TotalsFit};

    ghost view = { λ c. record { start = begun_with c.start c.workers; tallies = c.tallies.items; full = c.full } };

    ghost invariant = { λ c. TotalsFit c.start × LinesAdd c.start × (vec_len c.tallies ≤ MAX_JOBS) × (c.full ≡ None → AreSome c.start c.tallies.items)
        × AreWorkers c.workers × HaveTallies c.workers.jobs c.tallies.items };
}

impl Counting {
    /// Nothing is counted yet. The counters begin at `start`, and none may pass `LIMIT`. These workers count.
    pub(crate) fn new(alloc: Global, start: Totals, workers: Workers) -> Counting
        requires fit { TotalsFit start }
        requires lines { LinesAdd start }
        requires workers { AreWorkers workers }
        ensures start { result.start ≡ begun_with start workers }
        ensures none { (setup : TheSetup) → HasCounted setup [] result }
    {
        Counting {
            start,
            workers,
            tallies: Vec::new(alloc),
            full: None,
        }
    }

    /// A batcher for a stream whose batches are counted here.
    pub(crate) fn batcher(&self, alloc: Global) -> Result<Batcher, NoMemory>
        ensures limit { IfOk result (λ batcher. batcher.limit ≡ self.now.start.limit) }
        ensures going { IfOk result (λ batcher. batcher.is_over ≡ false) }
        ensures fed { IfOk result (λ batcher. batcher.fed ≡ 0) }
        ensures room { IfOk result (λ batcher. length (held batcher) < batcher.limit) }
        ensures stream { IfOk result (λ batcher. Holds [] [] batcher) }
    {
        Batcher::new(alloc, self.workers.batch_limit())
    }

    /// Counts the lines of a batch of a log that answered this size, the last also where no line feed ends it. After an `Err`
    /// the counting may only be dropped.
    pub(crate) fn count<R: Threads + Sync, G: Gate>(
        &mut self,
        crew: &Crew<'_, R, G>,
        size: u64,
        batch: &[u8],
    ) -> Result<(), NoMemory>
        requires workers { AreWorkers crew.now.workers }
        requires small { length batch.now ≤ self.old.start.limit }
        ensures start { OnOk result (self.new.start ≡ self.old.start) }
        ensures counted { OnOk result ((before : List (List ℕ)) → HasCounted crew.now.setup.now before self.old → HasCounted crew.now.setup.now (before ++ lines batch.now true) self.new) }
    {
        let (counted, ()) = self.count_meanwhile(crew, size, batch, &mut || {});
        counted
    }

    /// The same, and calls `meanwhile` once, whatever comes of the lines, in this thread, while others count.
    pub(crate) fn count_meanwhile<R: Threads + Sync, G: Gate, F: FnMut() -> X, X>(
        &mut self,
        crew: &Crew<'_, R, G>,
        size: u64,
        batch: &[u8],
        meanwhile: &mut F,
    ) -> (Result<(), NoMemory>, X)
        requires workers { AreWorkers crew.now.workers }
        requires small { length batch.now ≤ self.old.start.limit }
        requires meanwhile { F.pre meanwhile.old }
        ensures start { OnOk result.0 (self.new.start ≡ self.old.start) }
        ensures counted { OnOk result.0 ((before : List (List ℕ)) → HasCounted crew.now.setup.now before self.old → HasCounted crew.now.setup.now (before ++ lines batch.now true) self.new) }
        ensures meanwhile { F.step meanwhile.old result.1 meanwhile.new }
    {
        if self.full.is_some() || batch.is_empty() {
            return (Ok(()), meanwhile());
        }
        match self.begin(crew, size, batch) {
            Ok(()) => self.count_lines(crew, batch, meanwhile),
            Err(fault) => (Err(fault), meanwhile()),
        }
    }

    /// Makes a tally for each worker, where there is none yet. Their maps hash by what is in this batch, which isn't empty.
    fn begin<R, G>(
        &mut self,
        crew: &Crew<'_, R, G>,
        size: u64,
        batch: &[u8],
    ) -> Result<(), NoMemory>
        requires workers { AreWorkers crew.now.workers }
        requires some { 1 ≤ length batch.now }
        ensures start { OnOk result (self.new.start ≡ self.old.start) }
        ensures full { OnOk result (self.new.full ≡ self.old.full) }
        ensures some { OnOk result (1 ≤ length self.new.tallies) }
        ensures counted { OnOk result ((setup : TheSetup) (before : List (List ℕ)) → HasCounted setup before self.old
            → HasCounted setup before self.new) }
    {
        if self.tallies.is_empty() {
            let keyed = keyed_by(batch, size, &self.start);
            self.tallies = new_tallies(crew.alloc, keyed, self.workers.jobs)?;
        }
        Ok(())
    }

    /// Counts the lines of a batch into the tallies, after those that were counted. After an `Err` nothing is counted.
    fn count_lines<R: Threads + Sync, G: Gate, F: FnMut() -> X, X>(
        &mut self,
        crew: &Crew<'_, R, G>,
        batch: &[u8],
        meanwhile: &mut F,
    ) -> (Result<(), NoMemory>, X)
        requires workers { AreWorkers crew.now.workers }
        requires open { self.old.full ≡ None }
        requires some { 1 ≤ length self.old.tallies }
        requires small { length batch.now ≤ self.old.start.limit }
        requires meanwhile { F.pre meanwhile.old }
        ensures start { OnOk result.0 (self.new.start ≡ self.old.start) }
        ensures counted { OnOk result.0 ((before : List (List ℕ)) → HasCounted crew.now.setup.now before self.old → HasCounted crew.now.setup.now (before ++ lines batch.now true) self.new) }
        ensures meanwhile { F.step meanwhile.old result.1 meanwhile.new }
    {
        let tallies = mem::replace(&mut self.tallies, Vec::new(crew.alloc));
        let (counted, given) = count_on(crew, &self.start, tallies, batch, meanwhile);
        match counted {
            Ok(more) => {
                self.tallies = more;
                (Ok(()), given)
            }
            Err(fault) => match fault {
                PoolFault::CounterFull { which, total } => {
                    self.full = Some(Full { which, total });
                    (Ok(()), given)
                }
                PoolFault::NoMemory => (Err(NoMemory), given),
            },
        }
    }

    /// The counter that the lines fill, where they fill one.
    pub(crate) fn full(&self) -> Option<Full>
        ensures { result ≡ self.now.full }
    {
        self.full
    }

    /// The total of all lines that were counted: a summary can be made of it, or a source of rows for a report.
    pub(crate) fn into_total<R: Threads + Sync, G>(
        self,
        crew: &Crew<'_, R, G>,
    ) -> Result<Total, CountingFault>
        ensures ok { IfOk result (λ total. (setup : TheSetup) (all : List (List ℕ)) → HasCounted setup all self → AreInTotal setup self.start.totals all total) }
        ensures together { IfOk result (λ total. (outcomes : List Outcome) → AreCounted outcomes self.tallies → IsTallyOf outcomes total) }
        ensures tallies { HaveTallies self.start.workers.jobs self.tallies }
        ensures full { (full : TheFull) → IsErrOf result (CountingFault.Full full) → (setup : TheSetup) (all : List (List ℕ)) → HasCounted setup all self
            → FillsAmong setup self.start.totals all full.which full.total }
    {
        let Counting {
            start: _,
            workers: _,
            tallies,
            full,
        } = self;
        match full {
            Some(full) => Err(CountingFault::Full(full)),
            None => Ok(total_of(crew.rt, crew.alloc, tallies)?),
        }
    }
}
