//! What holds of entries and logs in general. Each function's contract is the law, and its body is empty.

ghost use Rattle.std.specs.Prelude.{◌≡◌, ◌↔◌, ℕ, List, Option, take};
ghost use Rattle.ga_base.specs.declared.entry.Entry.{Entry};
ghost use Rattle.ga_base.specs.declared.limits.TheConstants.{FRONT};
ghost use Rattle.ga_resume.specs.Entries.{Fits, IsChoice};

/// Whether an entry fits a log shows on the log's first `FRONT` bytes.
pub fn fits_by_front()
    ensures { (log : List ℕ) (end : ℕ) (entry : Entry) → Fits (take FRONT log) end entry ↔ Fits log end entry }
{}

/// Every log has a choice: it continues an entry of the list, or none.
pub fn a_choice_exists()
    ensures { (entries : List Entry) (front : List ℕ) (end : ℕ) → (place : Option ℕ) × (from : ℕ) × IsChoice entries front end place from }
{}

/// That choice is one: a log continues one entry of a list, or none.
pub fn one_choice()
    ensures { (entries : List Entry) (front : List ℕ) (end : ℕ) (place other : Option ℕ) (from begin : ℕ)
        → IsChoice entries front end place from → IsChoice entries front end other begin → (place ≡ other) × (from ≡ begin) }
{}
