//! What holds of all sums of outcomes. Each function's contract is the law, and its body is empty.

ghost use Rattle.std.specs.Prelude.{◌≡◌, ◌↔◌, ℕ, true, List, Contains, ◌++◌};
ghost use Rattle.ga_base.specs.Layers.{day_key};
ghost use Rattle.ga_summary.specs.LastDays.{trimmed};
ghost use Rattle.ga_summary.specs.Outcomes.{Hit, Outcome, has_key, hits_of, totals_of};
ghost use Rattle.ga_summary.specs.SummaryParts.{IsFirstBad};
ghost use Rattle.ga_summary.specs.Dated.{AllDated};
ghost use Rattle.ga_summary.specs.SummaryRows.{IsInOrder, SummaryValue};
ghost use Rattle.ga_summary.specs.Sound.{AllCountable, HasRow, IsSound, IsSummary};
ghost use Rattle.ga_base.specs.Totals.{TotalsFit};
ghost use Rattle.ga_summary.specs.Sums.{IsSumOf, IsMerged};

/// The sums of two lists of outcomes, merged, are the sum of one list after the other.
pub fn merged_sums()
    ensures { (xs ys : List Outcome) (a b s : SummaryValue) → IsSumOf xs a → IsSumOf ys b → IsMerged a b s → IsSumOf (xs ++ ys) s }
{}

/// A list of outcomes has one sum.
pub fn one_sum()
    ensures { (xs : List Outcome) (a b : SummaryValue) → IsSumOf xs a → IsSumOf xs b → a ≡ b }
{}

/// Two summaries come to one when they are merged.
pub fn one_merged()
    ensures { (a b s t : SummaryValue) → IsMerged a b s → IsMerged a b t → s ≡ t }
{}

/// A list of outcomes has a sum, where each visitor is of the day of the keys that it is counted under.
pub fn some_sum()
    ensures { (xs : List Outcome) → AllDated xs → (s : SummaryValue) × IsSumOf xs s }
{}

/// Only such a list has one: the visitors of outcomes that have a sum are of the day of their keys.
pub fn only_dated_sums()
    ensures { (xs : List Outcome) (s : SummaryValue) → IsSumOf xs s → AllDated xs }
{}

/// Two summaries that are in order can be merged.
pub fn some_merged()
    ensures { (a b : SummaryValue) → IsInOrder a.rows → IsInOrder b.rows → (s : SummaryValue) × IsMerged a b s }
{}

/// A value is a summary, or it breaks first at one place.
pub fn one_first_bad()
    ensures one { (s : SummaryValue) (a b : ℕ) → IsFirstBad s a → IsFirstBad s b → a ≡ b }
    ensures apart { (s : SummaryValue) (at : ℕ) → IsSummary s → ¬ IsFirstBad s at }
{}

/// Where each counted outcome may be counted and the totals fit, the sum is sound.
pub fn sound_sums()
    ensures { (xs : List Outcome) (s : SummaryValue) → AllCountable xs → TotalsFit (totals_of xs) → IsSumOf xs s → IsSound s }
{}

/// Of two summaries together the last days are the same where the first was left with its last days before.
pub fn trimmed_merge()
    ensures { (n : ℕ) (a b both fewer : SummaryValue) → IsSummary a → IsSummary b → IsMerged a b both
        → IsMerged (trimmed n a) b fewer → trimmed n fewer ≡ trimmed n both }
{}

/// The last days of a summary are a summary, with its totals, and their last days are they.
pub fn trimmed_sums()
    ensures sound { (n : ℕ) (s : SummaryValue) → IsSummary s → IsSummary (trimmed n s) }
    ensures twice { (n : ℕ) (s : SummaryValue) → IsSummary s → trimmed n (trimmed n s) ≡ trimmed n s }
    ensures totals { (n : ℕ) (s : SummaryValue) → (trimmed n s).totals ≡ s.totals }
{}

/// The days of a sum are those of the lines that are counted.
pub fn counted_days()
    ensures { (xs : List Outcome) (s : SummaryValue) → IsSumOf xs s → (date : ℕ)
        → HasRow s.rows (day_key date) ↔ ((hit : Hit) × Contains (hits_of xs) hit × (has_key (day_key date) hit ≡ true)) }
{}
