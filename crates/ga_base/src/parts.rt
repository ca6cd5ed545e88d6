ghost use Rattle.std.specs.Prelude.{◌<◌, ◌+◌, ◌^◌, OnOk, length};
ghost use Rattle.std.specs.Thread.{IsSend, IsSync};
ghost use Rattle.ga_base.specs.Parts.{ChangesParts, TakesParts};

use crate::NoMemory;
use std::marker::Sync;
use std::thread::{Threads, join_mut};

/// Changes items, of which the first has the number `first`, by `work`, in parts of these lengths, each in a thread that this
/// one starts. What is left after the last part this thread changes itself.
#[cycle(parts)]
pub fn change_parts<
    R: Threads + Sync,
    T: Send,
    W: Fn(usize, &mut [T]) -> Result<(), NoMemory> + Sync,
>(rt: &R, work: &W, lengths: &[usize], first: usize, items: &mut [T]) -> Result<(), NoMemory>
    requires numbered { first + length items.old < 2 ^ 64 }
    requires work { TakesParts W.Fn work.now first items.old }
    ensures { OnOk result (ChangesParts W.Fn work.now first items.old items.new) }
{
    let Some((part, lengths)) = lengths.split_first() else {
        return work(first, items);
    };
    let part = (*part).min(items.len());
    let (low, high) = items.split_at_mut(part);
    change_both(rt, work, lengths, first, low, high)
}

/// Changes items in a thread of their own, and beside them, in parts of these lengths, those after them.
#[cycle(parts)]
fn change_both<R: Threads + Sync, T: Send, W: Fn(usize, &mut [T]) -> Result<(), NoMemory> + Sync>(
    rt: &R,
    work: &W,
    lengths: &[usize],
    first: usize,
    low: &mut [T],
    high: &mut [T],
) -> Result<(), NoMemory>
    requires numbered { first + length low.old + length high.old < 2 ^ 64 }
    requires low { TakesParts W.Fn work.now first low.old }
    requires high { TakesParts W.Fn work.now (first + length low.old) high.old }
    ensures low { OnOk result (ChangesParts W.Fn work.now first low.old low.new) }
    ensures high { OnOk result (ChangesParts W.Fn work.now (first + length low.old) high.old high.new) }
{
    let next = first + low.len();
    let mut front = || -> Result<(), NoMemory>
        requires { IsSync R.row × IsSync W.row × IsSend T.row × (first + length low.now < 2 ^ 64) × TakesParts W.Fn work.now first low.now }
        ensures { OnOk result (ChangesParts W.Fn work.entry.now first low.entry.now low.exit.now) }
    { change_parts(rt, work, &[], first, low) };
    let mut back = || -> Result<(), NoMemory>
        requires { IsSync R.row × IsSync W.row × IsSend T.row × (next + length high.now < 2 ^ 64) × TakesParts W.Fn work.now next high.now }
        ensures { OnOk result (ChangesParts W.Fn work.entry.now next high.entry.now high.exit.now) }
    { change_parts(rt, work, lengths, next, high) };
    let (front, back) = join_mut(rt, &mut front, &mut back);
    front.and(back)
}
