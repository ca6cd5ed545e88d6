//! Laws of what a configuration file says: functions that do nothing, each for the law that its contract states.

ghost use Rattle.std.specs.Prelude.{◌≡◌, ℕ, List};
ghost use Rattle.ga_conf.specs.ConfFile.{ConfGives, IsAnswered, IsBadLine};

use ga_words::laws::{each_option_has_a_form, each_value_is_judged};

/// Each file gives one list of words, or has one first bad line, and not both.
pub fn one_conf()
    ensures some { (bytes : List ℕ) → IsAnswered bytes }
    ensures words { (bytes : List ℕ) (one two : List (List ℕ)) → ConfGives bytes one → ConfGives bytes two → one ≡ two }
    ensures fault { (bytes : List ℕ) (one two : ℕ) → IsBadLine bytes one → IsBadLine bytes two → one ≡ two }
    ensures either { (bytes : List ℕ) (words : List (List ℕ)) (number : ℕ) → ConfGives bytes words → ¬ IsBadLine bytes number }
{
    each_value_is_judged();
    each_option_has_a_form();
}
