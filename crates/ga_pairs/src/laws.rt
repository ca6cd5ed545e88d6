//! What holds of all claims. Each function's contract is the law, and its body is empty.

ghost use Rattle.std.specs.Prelude.{List};
ghost use Rattle.ga_pairs.specs.Events.{PairEvent, IsLawful, AreLawful, ChangesOnlyFromZero, after, after_all};
ghost use Rattle.ga_pairs.specs.Pairs.{PairState, Inv};
ghost use Rattle.ga_pairs.specs.declared.view.Opening.{Opening as TheOpening};

/// Each lawful event keeps the invariant and every cell that is not 0, and so does every list of lawful events.
pub fn claims_keep()
    ensures event { (opening : TheOpening) (s : PairState) (e : PairEvent) → Inv opening s → IsLawful s e → Inv opening (after s e) }
    ensures events { (opening : TheOpening) (s : PairState) (es : List PairEvent) → Inv opening s → AreLawful s es → Inv opening (after_all s es) }
    ensures cells { (opening : TheOpening) (s : PairState) (e : PairEvent) → Inv opening s → IsLawful s e → ChangesOnlyFromZero s.cells (after s e).cells }
{}
