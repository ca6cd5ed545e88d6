//! Laws of the definitions `Spells` and `SpellsRange`: functions that do nothing, each for the law that its contract
//! states.

ghost use Rattle.std.specs.Prelude.{◌≡◌, ◌↔◌, ℕ, List};
ghost use Rattle.ga_hosts.specs.Addresses.{Spells, FitsFamily, HasText};
ghost use Rattle.ga_hosts.specs.Ranges.{SpellsRange};
ghost use Rattle.ga_hosts.specs.declared.address.Address.{Address};
ghost use Rattle.ga_hosts.specs.declared.range.Range.{Range};

/// A text spells one address at most, so that it is never of two families or of two numbers.
pub fn one_address()
    ensures { (text : List ℕ) (address other : Address) →
        Spells text address → Spells text other → address ≡ other }
{}

/// Some text spells each number that fits its family, and none spells a number that doesn't.
pub fn every_address_has_a_text()
    ensures { (address : Address) → FitsFamily address ↔ HasText address }
{}

/// A text spells one range at most.
pub fn one_range()
    ensures { (text : List ℕ) (range other : Range) →
        SpellsRange text range → SpellsRange text other → range ≡ other }
{}
