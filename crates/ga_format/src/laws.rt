//! Laws of the definitions `FormatOf` and `ItemsOf`: functions that do nothing, each for the law that its contract states.

ghost use Rattle.std.specs.Prelude.{◌≡◌, ℕ, List, Result, Ok};
ghost use Rattle.ga_base.specs.declared.formats.FormatItem.{FormatItem};
ghost use Rattle.ga_base.specs.declared.formats.FormatFault.{FormatFault};
ghost use Rattle.ga_format.specs.FormatOf.{FormatOf, ItemsOf};
ghost use Rattle.ga_format.specs.SoundFormats.{IsSound};

/// A text means one format or has one first fault, and not two.
pub fn one_answer()
    ensures { (text : List ℕ) (answer other : Result (List FormatItem) FormatFault) →
        FormatOf text answer → FormatOf text other → answer ≡ other }
{}

/// Every format gives a host, a date and a request, ends each field, and says nothing twice.
pub fn formats_are_sound()
    ensures { (text : List ℕ) (items : List FormatItem) → FormatOf text (Ok items) → IsSound items }
{}

/// Every text means a format or has a first fault, so that a refusal is always for a cause.
pub fn every_text_has_an_answer()
    ensures { (text : List ℕ) → (answer : Result (List FormatItem) FormatFault) × FormatOf text answer }
{}

/// After these items a text has one list of items or one first fault with a place, and not two.
pub fn one_list_of_items()
    ensures { (earlier : List FormatItem) (text : List ℕ) (answer other : Result (List FormatItem) FormatFault) →
        ItemsOf earlier text answer → ItemsOf earlier text other → answer ≡ other }
{}

/// After these items every text has items or a first fault with a place.
pub fn every_text_has_items()
    ensures { (earlier : List FormatItem) (text : List ℕ) → (answer : Result (List FormatItem) FormatFault) × ItemsOf earlier text answer }
{}
