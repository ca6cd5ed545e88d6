//! What holds of the shared types. Each function's contract is the law, and its body is empty.

ghost use Rattle.std.specs.Prelude.{◌≡◌, ◌-◌, ◌^◌};
ghost use Rattle.std.specs.Cmp.{IsTotalOrder};
ghost use Rattle.std.specs.declared.cmp.Ordering.TheVariants.{Equal};
ghost use Rattle.std.specs.Ordering.{nat_cmp};
ghost use Rattle.ga_base.specs.contracts.key.KeyOrd.TheImpl.{ghosts as keys};
ghost use Rattle.ga_base.specs.contracts.key.VisitorOrd.TheImpl.{ghosts as visitors};
ghost use Rattle.ga_base.specs.contracts.name.NameOrd.TheImpl.{ghosts as names};
ghost use Rattle.ga_base.specs.contracts.panel.PanelOrd.TheImpl.{ghosts as panels};
ghost use Rattle.ga_base.specs.contracts.panel.PanelPartialEq.TheImpl.{ghosts as same_panels};
ghost use Rattle.ga_base.specs.declared.counts.TheConstants.{BIG, LIMIT};
ghost use Rattle.ga_base.specs.declared.key.Key.{Key};
ghost use Rattle.ga_base.specs.declared.key.Visitor.{Visitor};
ghost use Rattle.ga_base.specs.declared.limits.TheConstants.{FRONT, LINE_FEED, MAX_BATCH, MAX_CHUNK, MAX_JOBS};
ghost use Rattle.ga_base.specs.declared.name.Name.{Name};
ghost use Rattle.ga_base.specs.declared.panel.Panel.{Panel};
ghost use Rattle.ga_base.specs.declared.record.TheConstants.{MAX_LINE};
ghost use Rattle.ga_base.specs.Orders.{key_cmp, name_cmp, visitor_cmp};
ghost use Rattle.ga_base.specs.Panels.{is_same_panel, panel_number};

/// The shared limits are these numbers.
pub fn limits()
    ensures counters { LIMIT ≡ 2 ^ 62 - 1 }
    ensures amounts { BIG ≡ 10 ^ 18 }
    ensures lines { MAX_LINE ≡ 65535 }
    ensures line_feed { LINE_FEED ≡ 10 }
    ensures front { FRONT ≡ 4096 }
    ensures batch { MAX_BATCH ≡ 2 ^ 24 }
    ensures jobs { MAX_JOBS ≡ 16 }
    ensures chunk { MAX_CHUNK ≡ 32768 }
{}

/// Panels are ordered by their numbers, which tell them apart.
#[tactic(auto, unfolding(crate::specs::Panels::is_same_panel))]
pub fn panel_order()
    ensures order { (a b : Panel) → panels.cmp a b ≡ nat_cmp (panel_number a) (panel_number b) }
    ensures same { (a b : Panel) → same_panels.eq a b ≡ is_same_panel a b }
    ensures exact { (a b : Panel) → panel_number a ≡ panel_number b → a ≡ b }
{}

/// Keys are ordered by panel, day, parent, label, method and protocol, which tell them apart.
pub fn key_order()
    ensures order { (a b : Key) → keys.cmp a b ≡ key_cmp a b }
    ensures total { IsTotalOrder key_cmp }
    ensures exact { (a b : Key) → key_cmp a b ≡ Equal → a ≡ b }
{}

/// Visitors are ordered by host, day and agent, which tell them apart.
pub fn visitor_order()
    ensures order { (a b : Visitor) → visitors.cmp a b ≡ visitor_cmp a b }
    ensures total { IsTotalOrder visitor_cmp }
    ensures exact { (a b : Visitor) → visitor_cmp a b ≡ Equal → a ≡ b }
{}

/// Names of visitors are ordered by host and agent, which tell them apart.
pub fn name_order()
    ensures order { (a b : Name) → names.cmp a b ≡ name_cmp a b }
    ensures total { IsTotalOrder name_cmp }
    ensures exact { (a b : Name) → name_cmp a b ≡ Equal → a ≡ b }
{}
