//! What holds of all words and of all databases that are merged. Each function's contract is the law.

ghost use Rattle.std.specs.Prelude.{◌≡◌, ◌++◌, ℕ, List, Some};
ghost use Rattle.ga_store.specs.Database.{DbValue};
ghost use Rattle.ga_summary.specs.LastDays.{trimmed};
ghost use Rattle.ga_summary.specs.Outcomes.{Outcome};
ghost use Rattle.ga_summary.specs.Sound.{IsSummary};
ghost use Rattle.ga_summary.specs.SummaryRows.{SummaryValue};
ghost use Rattle.ga_summary.specs.Sums.{IsSumOf};
ghost use Rattle.ga_dbtool.specs.Merged.{IsMergedDb};
ghost use Rattle.ga_dbtool.specs.Words.{AreBadAt, Say, Task};

use ga_summary::laws::{merged_sums, one_sum, some_merged, trimmed_merge, trimmed_sums};

/// Words are one task, or they stop at one place, and never both.
pub fn one_meaning()
    ensures task { (words : List (List ℕ)) (s t : Task) → Say words s → Say words t → s ≡ t }
    ensures place { (words : List (List ℕ)) (i j : ℕ) → AreBadAt words i → AreBadAt words j → i ≡ j }
    ensures apart { (words : List (List ℕ)) (task : Task) (at : ℕ) → Say words task → ¬ AreBadAt words at }
{}

/// Two databases that keep as many days, 0 for all, merge to the last days of the sum of both: where each has the last days of
/// the sum of some lines, the merged one has those of the sum of the lines of both, one after the other.
pub fn merged_databases()
    ensures { (n : ℕ) (xs ys : List Outcome) (x y s : SummaryValue) (a b new : DbValue) → IsSumOf xs x → IsSumOf ys y → IsSummary x → IsSummary y
        → a.keep ≡ Some n → a.summary ≡ trimmed n x → b.summary ≡ trimmed n y → IsMergedDb a b new
        → IsSumOf (xs ++ ys) s → new.summary ≡ trimmed n s }
{
    merged_sums();
    one_sum();
    some_merged();
    trimmed_merge();
    trimmed_sums();
}
