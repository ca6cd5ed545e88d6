//! What holds of all counts. Each function's contract is the law, and its body is empty.

ghost use Rattle.std.specs.Prelude.{List};
ghost use Rattle.ga_counts.specs.Counts.{CountState, Inv};
ghost use Rattle.ga_counts.specs.Events.{CountEvent, IsLawful, AreLawful, after, after_all};
ghost use Rattle.ga_counts.specs.declared.view.Opening.{Opening as TheOpening};

/// Each lawful event keeps the invariant, and so does every list of lawful events.
pub fn counts_keep()
    ensures event { (opening : TheOpening) (s : CountState) (e : CountEvent) → Inv opening s → IsLawful s e → Inv opening (after s e) }
    ensures events { (opening : TheOpening) (s : CountState) (es : List CountEvent) → Inv opening s → AreLawful s es → Inv opening (after_all s es) }
{}
