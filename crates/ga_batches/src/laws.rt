//! What holds of lines as they are held. Each function's contract is the law, and its body is empty.

ghost use Rattle.std.specs.Prelude.{◌≡◌, ◌^◌, ℕ, List};
ghost use Rattle.ga_batches.specs.Batches.{BatcherSeen};
ghost use Rattle.ga_batches.specs.Fed.{AreItsBatches, IsFed};
ghost use Rattle.ga_batches.specs.Laws.{CutsApart, CutsEachPiece, CutsOnce};
ghost use Rattle.ga_base.specs.declared.limits.TheConstants.{LINE_FEED, MAX_BATCH};
ghost use Rattle.ga_batches.specs.declared.batcher.TheConstants.{LINE_HELD};

/// A text with its lines cut has the pieces of the text, each cut; and lines may be cut before more is added, or after it.
pub fn lines_are_cut_one_by_one()
    ensures pieces { CutsEachPiece }
    ensures once { CutsOnce }
    ensures apart { CutsApart }
{}

/// However bytes are fed, and whenever a batch is taken, the batches and the rest are the stream.
pub fn batches_are_its_stream()
    ensures { (stream : List ℕ) (batches : List (List ℕ)) (v : BatcherSeen) → IsFed stream batches v → AreItsBatches stream batches v }
{}

/// The byte that ends a line, how much of a line is held, and how many bytes a batch has at most.
pub fn sizes()
    ensures ends { LINE_FEED ≡ 10 }
    ensures held { LINE_HELD ≡ 65537 }
    ensures most { MAX_BATCH ≡ 2 ^ 24 }
{}
