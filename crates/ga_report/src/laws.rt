//! What holds of all reports. Each function's contract is the law, and its body is empty.

ghost use Rattle.std.specs.Prelude.{◌≡◌, ℕ, Bool, List};
ghost use Rattle.ga_base.specs.declared.date_spec.DateSpec.{DateSpec};
ghost use Rattle.ga_report.specs.LastDays.{trimmed_source};
ghost use Rattle.ga_report.specs.OfSummary.{source_value};
ghost use Rattle.ga_report.specs.Reports.{IsReport};
ghost use Rattle.ga_report.specs.Source.{SameSource, SourceValue};
ghost use Rattle.ga_report.specs.declared.report.Report.{Report as TheReport};
ghost use Rattle.ga_summary.specs.LastDays.{trimmed};
ghost use Rattle.ga_summary.specs.SummaryRows.{SummaryValue};

/// A source of rows has one report with a set of panels, a number of rows a list, and days or parts of days in VISITORS.
pub fn one_report()
    ensures { (source : SourceValue) (set : List Bool) (most : ℕ) (spec : DateSpec) (a b : TheReport)
        → IsReport source set most spec a → IsReport source set most spec b → a ≡ b }
{}

/// Each source of rows has a report.
pub fn some_report()
    ensures { (source : SourceValue) (set : List Bool) (most : ℕ) (spec : DateSpec) → (report : TheReport) × IsReport source set most spec report }
{}

/// A source that has the rows of a summary has those of its last days, too.
pub fn trimmed_sources()
    ensures { (n : ℕ) (a : SourceValue) (s : SummaryValue) → SameSource a (source_value s) → SameSource (trimmed_source n a) (source_value (trimmed n s)) }
{}
