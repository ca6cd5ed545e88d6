//! Laws of the definitions `WordsOf`, `ScanOf` and `JoinedOf`: functions that do nothing, each for the law that its contract states.

ghost use Rattle.std.specs.Prelude.{◌≡◌, ◌⊎◌, ◌↔◌, ◌≤◌, ◌++◌, [], ℕ, List, length, Option, Result, Err};
ghost use Rattle.ga_words.specs.declared.settings.Settings.{Settings};
ghost use Rattle.ga_words.specs.declared.fault.WordFault.{WordFault};
ghost use Rattle.ga_words.specs.declared.fault.WordFault.TheVariants.{Conflict, NoMemory};
ghost use Rattle.ga_words.specs.Joined.{AreConfWords, HasNoPlace, JoinedOf, NamesConf, ScanOf};
ghost use Rattle.ga_words.specs.Options.{IsFlag, IsOutside, Sets, Takes, TakesValue};
ghost use Rattle.ga_words.specs.WordsOf.{WordsOf, IsSame};

/// Words have one answer and not two.
pub fn one_reading()
    ensures { (words : List (List ℕ)) (answer other : Result Settings WordFault) →
        WordsOf words answer → WordsOf words other → IsSame answer other }
{
    ga_hosts::laws::one_range();
}

/// All words mean settings or have a fault, so that a refusal is always for a cause. Being out of memory is no fault of
/// words.
pub fn words_mean_something()
    ensures some { (words : List (List ℕ)) → (answer : Result Settings WordFault) × WordsOf words answer }
    ensures not_memory { (words : List (List ℕ)) → ¬ WordsOf words (Err NoMemory) }
{
    ga_hosts::laws::one_address();
}

/// By a value an option makes something of all settings, or the value is outside what it takes.
pub fn each_value_is_judged()
    ensures { (takes : Takes) (value : List ℕ) (old : Settings) →
        ((new : Settings) × Sets takes value old new) ⊎ IsOutside takes value }
{
    ga_hosts::laws::one_address();
}

/// Words name one configuration file or none, or have one first fault with a place, and not both.
pub fn one_scan()
    ensures some { (words : List (List ℕ)) → (answer : Result (Option (List ℕ)) WordFault) × ScanOf words answer }
    ensures one { (words : List (List ℕ)) (answer other : Result (Option (List ℕ)) WordFault) →
        ScanOf words answer → ScanOf words other → answer ≡ other }
{
    ga_hosts::laws::one_range();
    ga_hosts::laws::one_address();
}

/// Words that no fault has a place in have none after the words of a configuration file, and a conflict is among them. So they
/// have one answer with these, and after no words that which they have alone.
pub fn joined_words()
    ensures whole { (conf words : List (List ℕ)) (name : Option (List ℕ)) (fault : WordFault) →
        AreConfWords conf → NamesConf words name → WordsOf (conf ++ words) (Err fault) → HasNoPlace fault }
    ensures place { (conf words : List (List ℕ)) (name : Option (List ℕ)) (at : ℕ) →
        AreConfWords conf → NamesConf words name → WordsOf (conf ++ words) (Err (Conflict at)) → length conf ≤ at }
    ensures one { (conf words : List (List ℕ)) (answer other : Result Settings WordFault) →
        JoinedOf conf words answer → JoinedOf conf words other → IsSame answer other }
    ensures alone { (words : List (List ℕ)) (answer : Result Settings WordFault) → JoinedOf [] words answer ↔ WordsOf words answer }
{
    ga_hosts::laws::one_range();
}

/// An option is a flag or takes a value.
pub fn each_option_has_a_form()
    ensures { (takes : Takes) → IsFlag takes ⊎ TakesValue takes }
{}
