ghost use Rattle.std.specs.Prelude.{◌≡◌, ◌≤◌, ◌∷◌, Some, Ok, IfOk, IfSome, vec_len};
ghost use Rattle.std.specs.Global.{Vec as TheVec};
ghost use Rattle.std.specs.Fn.{FnReturns};
ghost use Rattle.std.specs.Fork.{AcceptsJobs, GivesJobs};

use ga_base::NoMemory;
use std::alloc::Global;
use std::mem;
use std::thread::{Threads, join_mut};

/// Calls `work` at each job, each in a thread of its own where one can be made, but for the last: that is this thread's, which
/// calls `meanwhile` before it. So as many threads are at work as there are jobs.
#[cycle(jobs)]
pub(crate) fn map_meanwhile<
    R: Threads + Sync,
    J: Send + Drop,
    Y: Send + Drop,
    W: Fn(J) -> Y + Sync,
    F: FnMut() -> X,
    X,
>(rt: &R, alloc: Global, jobs: Vec<J>, work: &W, meanwhile: &mut F) -> (Result<Vec<Y>, NoMemory>, X)
    requires work { AcceptsJobs W.Fn work.now jobs.items }
    requires meanwhile { F.pre meanwhile.old }
    ensures len { IfOk result.0 (λ done. vec_len done ≡ vec_len jobs) }
    ensures work { IfOk result.0 (λ done. GivesJobs W.Fn work.now jobs.items done.items) }
    ensures meanwhile { F.step meanwhile.old result.1 meanwhile.new }
{
    let mut rest = jobs;
    if rest.len() > 1 {
        let first = rest.remove(0);
        let (done, (others, given)) = both(rt, alloc, first, rest, work, meanwhile);
        return match done {
            Some(done) => (with_first(done, others), given),
            None => unreachable!(),
        };
    }
    let given = meanwhile();
    (at_most_one(alloc, rest, work), given)
}

/// Calls `work` at the first job in a thread of its own, where one can be made, and at the others as `map_meanwhile` does.
#[cycle(jobs)]
fn both<
    R: Threads + Sync,
    J: Send + Drop,
    Y: Send + Drop,
    W: Fn(J) -> Y + Sync,
    F: FnMut() -> X,
    X,
>(
    rt: &R,
    alloc: Global,
    first: J,
    others: Vec<J>,
    work: &W,
    meanwhile: &mut F,
) -> (Option<Y>, (Result<Vec<Y>, NoMemory>, X))
    requires first { W.pre work.now first }
    requires others { AcceptsJobs W.Fn work.now others.items }
    requires meanwhile { F.pre meanwhile.old }
    ensures first { (done : Y) × (result.0 ≡ Some done) × FnReturns W.Fn work.now (first, tt) done }
    ensures len { IfOk result.1.0 (λ done. vec_len done ≡ vec_len others) }
    ensures others { IfOk result.1.0 (λ done. GivesJobs W.Fn work.now others.items done.items) }
    ensures meanwhile { F.step meanwhile.old result.1.1 meanwhile.new }
{
    let mut job = Some(first);
    let mut rest = others;
    let mut one = || -> Option<Y>
        requires { IfSome job (λ own. W.pre work.now own) }
        ensures { IfSome job.entry (λ own. (done : Y) × (result ≡ Some done) × FnReturns W.Fn work.entry.now (own, tt) done) }
    {
        match job.take() {
            Some(own) => Some(work(own)),
            None => None,
        }
    };
    let mut front = || -> (Result<Vec<Y>, NoMemory>, X)
        requires { AcceptsJobs W.Fn work.now rest.items × F.pre meanwhile.now }
        ensures { IfOk result.0 (λ done. (vec_len done ≡ vec_len rest.entry) × GivesJobs W.Fn work.entry.now rest.entry.items done.items) × F.step meanwhile.entry.now result.1 meanwhile.exit.now }
    {
        map_meanwhile(
            rt,
            alloc,
            mem::replace(&mut rest, Vec::new(alloc)),
            work,
            meanwhile,
        )
    };
    join_mut(rt, &mut one, &mut front)
}

/// The results with that of the first job before them.
fn with_first<Y: Drop>(first: Y, others: Result<Vec<Y>, NoMemory>) -> Result<Vec<Y>, NoMemory>
    ensures { IfOk result (λ all. (rest : TheVec Y) × (others ≡ Ok rest) × (all.items ≡ first ∷ rest.items)) }
{
    let mut all = others?;
    all.insert(0, first)?;
    Ok(all)
}

/// The results of one job or none.
fn at_most_one<J: Drop, Y: Drop, W: Fn(J) -> Y>(
    alloc: Global,
    jobs: Vec<J>,
    work: &W,
) -> Result<Vec<Y>, NoMemory>
    requires few { vec_len jobs ≤ 1 }
    requires work { AcceptsJobs W.Fn work.now jobs.items }
    ensures len { IfOk result (λ done. vec_len done ≡ vec_len jobs) }
    ensures work { IfOk result (λ done. GivesJobs W.Fn work.now jobs.items done.items) }
{
    let mut jobs = jobs;
    let mut done = Vec::new(alloc);
    if let Some(job) = jobs.pop() {
        done.push(work(job))?;
    }
    Ok(done)
}
