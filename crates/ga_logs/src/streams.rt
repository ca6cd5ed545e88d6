ghost use Rattle.std.specs.Prelude.{◌≡◌, ◌≤◌, ◌++◌, ℕ, List, false, IfOk, OnOk, length};
ghost use Rattle.ga_batches.specs.Batches.{BatcherSeen};
ghost use Rattle.ga_base.specs.Lines.{AreEnded};
ghost use Rattle.ga_line.specs.Lines.{lines};
ghost use Rattle.ga_logs.specs.Counting.{HasCounted};
ghost use Rattle.ga_workers.specs.Workers.{AreWorkers};
ghost use Rattle.ga_logs.specs.Streams.{IsBehind, IsWithin};

use crate::counting::Counting;
use ga_base::NoMemory;
use ga_batches::Batcher;
use ga_batches::laws::lines_are_cut_one_by_one;
use ga_line::laws::lines_added;
use ga_ports::Gate;
use ga_workers::Crew;
use std::thread::Threads;

/// Counts a batch of a log that answered this size. It was taken out of a batcher, to which more may have been fed since, or is
/// fed by `meanwhile`, which is called once, whatever comes of the lines, in this thread, while others count.
pub(crate) fn count_taken<R: Threads + Sync, G: Gate, F: FnMut() -> X, X>(
    crew: &Crew<'_, R, G>,
    size: u64,
    counting: &mut Counting,
    taken: &[u8],
    meanwhile: &mut F,
) -> (Result<(), NoMemory>, X)
    requires workers { AreWorkers crew.now.workers }
    requires small { length taken.now ≤ counting.old.start.limit }
    requires meanwhile { F.pre meanwhile.old }
    ensures start { OnOk result.0 (counting.new.start ≡ counting.old.start) }
    ensures within { OnOk result.0 ((before : List (List ℕ)) (stream : List ℕ) (batcher : BatcherSeen)
        → IsBehind crew.now.setup.now before stream counting.old taken.now batcher → IsWithin crew.now.setup.now before stream counting.new batcher) }
    ensures meanwhile { F.step meanwhile.old result.1 meanwhile.new }
{
    // What is known of lines, for the proof alone: the call does nothing.
    lines_added();
    counting.count_meanwhile(crew, size, taken, meanwhile)
}

/// Ends the stream and counts what is left of it: the line that is begun too, where `keep`. It answers how many bytes of the
/// stream are those of ended lines.
pub(crate) fn end<R: Threads + Sync, G: Gate>(
    crew: &Crew<'_, R, G>,
    size: u64,
    counting: &mut Counting,
    batcher: &mut Batcher,
    keep: bool,
) -> Result<u64, NoMemory>
    requires workers { AreWorkers crew.now.workers }
    requires going { batcher.old.is_over ≡ false }
    requires limit { batcher.old.limit ≡ counting.old.start.limit }
    ensures start { OnOk result (counting.new.start ≡ counting.old.start) }
    ensures ended { IfOk result (λ ended. (before : List (List ℕ)) (stream : List ℕ) → IsWithin crew.now.setup.now before stream counting.old batcher.old
        → AreEnded stream ended × HasCounted crew.now.setup.now (before ++ lines stream keep) counting.new) }
{
    // What is known of lines, for the proof alone: the calls do nothing.
    lines_added();
    lines_are_cut_one_by_one();
    batcher.end(keep);
    counting.count(crew, size, batcher.batch())?;
    Ok(batcher.ended())
}
