ghost use Rattle.std.specs.Prelude.{IfOk};
ghost use Rattle.std.specs.Thread.{IsSend, IsSync};
ghost use Rattle.ga_base.specs.Pieces.{MakesPieces, TakesPieces};

use crate::NoMemory;
use std::marker::Sync;
use std::thread::{self, Threads};

/// What `work` makes of the items, cut into up to `pieces` pieces that are worked at side by side: one list after the other, in
/// the order of the pieces. Fewer items than `few` aren't cut, and no thread is started for them.
#[cycle(pieces)]
pub fn map_pieces<
    R: Threads + Sync,
    T: Sync,
    Y: Send + Drop,
    W: Fn(&[T]) -> Result<Vec<Y>, NoMemory> + Sync,
>(rt: &R, pieces: u32, few: usize, items: &[T], work: &W) -> Result<Vec<Y>, NoMemory>
    requires { TakesPieces W.Fn work.now items.now }
    ensures { IfOk result (λ made. MakesPieces W.Fn work.now items.now made.items) }
{
    if pieces < 2 || items.len() < few {
        return work(items);
    }
    let (low, high) = items.split_at(items.len() / 2);
    let front = move || -> Result<Vec<Y>, NoMemory>
        requires { IsSync R.row × IsSync T.row × IsSync W.row × IsSend Y.row × TakesPieces W.Fn work.now low.now }
        ensures { IfOk result (λ made. MakesPieces W.Fn work.entry.now low.entry.now made.items) }
    { map_pieces(rt, pieces / 2, few, low, work) };
    let back = move || -> Result<Vec<Y>, NoMemory>
        requires { IsSync R.row × IsSync T.row × IsSync W.row × IsSend Y.row × TakesPieces W.Fn work.now high.now }
        ensures { IfOk result (λ made. MakesPieces W.Fn work.entry.now high.entry.now made.items) }
    { map_pieces(rt, pieces / 2, few, high, work) };
    let (front, back) = thread::join(rt, front, back);
    let mut made = front?;
    made.append(&mut back?)?;
    Ok(made)
}
