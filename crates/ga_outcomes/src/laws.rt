//! What holds of the lines of all logs. Each function's contract is the law; what its body calls are the laws that it
//! rests on.

ghost use Rattle.std.specs.Prelude.{ℕ, List};
ghost use Rattle.ga_base.specs.declared.counts.Counter.{Counter};
ghost use Rattle.ga_base.specs.declared.counts.Totals.{Totals};
ghost use Rattle.ga_outcomes.specs.LineOutcomes.{CountsLines, FillsAmong, HaveOutcomes};
ghost use Rattle.ga_outcomes.specs.declared.setup.Setup.{Setup as TheSetup};
ghost use Rattle.ga_summary.specs.Outcomes.{Outcome};
ghost use Rattle.ga_summary.specs.SummaryRows.{SummaryValue};

use ga_line::laws::every_line_says_something;
use ga_panels::laws::some_list_of_keys;
use ga_summary::laws::some_sum;

/// There are no lines without outcomes.
pub fn some_outcomes()
    ensures { (setup : TheSetup) (all : List (List ℕ)) → ((outcomes : List Outcome) → HaveOutcomes setup all outcomes → ⊥) → ⊥ }
{
    every_line_says_something();
    some_list_of_keys();
}

/// There are no lines that neither have a sum nor fill a counter, whatever was counted before them.
pub fn some_count()
    ensures { (setup : TheSetup) (start : Totals) (all : List (List ℕ)) → ((sum : SummaryValue) → CountsLines setup start all sum → ⊥)
        → ((which : Counter) (total : ℕ) → FillsAmong setup start all which total → ⊥) → ⊥ }
{
    every_line_says_something();
    some_list_of_keys();
    some_sum();
}
