//! What holds of all draws. Each function's contract is the law, and its body is empty.

ghost use Rattle.std.specs.Prelude.{List};
ghost use Rattle.ga_draws.specs.Draws.{DrawState, Inv};
ghost use Rattle.ga_draws.specs.Events.{DrawEvent, IsLawful, AreLawful, after, after_all};
ghost use Rattle.ga_draws.specs.declared.view.Opening.{Opening as TheOpening};

/// Each lawful event keeps the invariant, and so does every list of lawful events.
pub fn draws_keep()
    ensures event { (opening : TheOpening) (s : DrawState) (e : DrawEvent) → Inv opening s → IsLawful s e → Inv opening (after s e) }
    ensures events { (opening : TheOpening) (s : DrawState) (es : List DrawEvent) → Inv opening s → AreLawful s es → Inv opening (after_all s es) }
{}
