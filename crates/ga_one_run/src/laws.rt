//! What holds of all runs and reports. Each function's contract is the law; what its body calls are the laws that it
//! rests on.

ghost use Rattle.std.specs.Prelude.{◌≡◌, ℕ, List, Option, Result, Ok};
ghost use Rattle.ga_agents.specs.declared.row.Rule.{Rule};
ghost use Rattle.ga_base.specs.declared.counts.Counter.{Counter};
ghost use Rattle.ga_base.specs.declared.counts.Totals.{Totals};
ghost use Rattle.ga_disk.specs.Sides.{Sides};
ghost use Rattle.ga_line.specs.declared.setup.LineSetup.{LineSetup as TheSetup};
ghost use Rattle.ga_outcomes.specs.LineOutcomes.{CountsLines, FillsAmong};
ghost use Rattle.ga_ports.specs.Files.{FilesView};
ghost use Rattle.ga_ports.specs.Outs.{OutsView};
ghost use Rattle.ga_summary.specs.SummaryRows.{SummaryValue};
ghost use Rattle.ga_words.specs.Joined.{JoinedOf};
ghost use Rattle.ga_words.specs.declared.settings.Settings.{Settings as TheSettings};
ghost use Rattle.ga_one_run.specs.OneRun.{Alike, DifferInWorkers, HaveSameInputs, IsUntroubled, RunView, SidesAgree, run_of};
ghost use Rattle.ga_one_run.specs.Reports.{IsTextOf};
ghost use Rattle.ga_one_run.specs.Setups.{IsLineSetup, setup_of};
ghost use Rattle.ga_one_run.specs.Steps.Setups.{GivesLineSetup};
ghost use Rattle.ga_one_run.specs.Told.{Answers, InputsAreTold, Yield};
ghost use Rattle.ga_one_run.specs.Outside.{outside_of};
ghost use Rattle.ga_one_run.specs.declared.setups.SetupFault.{SetupFault as TheFault};
ghost use Rattle.ga_one_run.specs.declared.status.Status.{Status as TheStatus};

use ga_agents::laws::one_reading;
use ga_dates::laws::one_format;
use ga_disk::Disk;
use ga_line::laws::{one_meaning, one_shape};
use ga_logs::laws::{one_course, one_following, one_portion, read_as_told};
use ga_outcomes::laws::some_count;
use ga_panels::laws::one_list_of_keys;
use ga_report::laws::{one_report as one_report_of_rows, some_report};
use ga_resume::laws::a_choice_exists;
use ga_store::laws::{one_database, some_database};
use ga_summary::laws::{one_sum, some_merged};
use ga_words::laws::joined_words;

/// The formats of settings mean one thing: a way to read lines, or one refusal.
pub(crate) fn one_outcome()
    ensures { (s : TheSettings) (a b : Result TheSetup TheFault) → GivesLineSetup s a → GivesLineSetup s b → a ≡ b }
{
    one_format();
    one_shape();
}

/// Words say settings once at the most, after those of a configuration file, and the formats of these are read in one way.
pub fn one_setup()
    ensures { (conf words : List (List ℕ)) (s other : TheSettings) (a b : TheSetup) → JoinedOf conf words (Ok s) → JoinedOf conf words (Ok other)
        → IsLineSetup s a → IsLineSetup other b → (s ≡ other) × (a ≡ b) }
{
    one_outcome();
    joined_words();
}

/// Lines that are read as settings say have one sum, or fill one counter with one value, and not both.
pub fn one_count()
    ensures sum { (s : TheSettings) (line : TheSetup) (rules : List Rule) → IsLineSetup s line
        → (start : Totals) (all : List (List ℕ)) (a b : SummaryValue)
        → CountsLines (setup_of line s rules) start all a → CountsLines (setup_of line s rules) start all b → a ≡ b }
    ensures counter { (s : TheSettings) (line : TheSetup) (rules : List Rule) → IsLineSetup s line
        → (start : Totals) (all : List (List ℕ)) (which which' : Counter) (total total' : ℕ)
        → FillsAmong (setup_of line s rules) start all which total → FillsAmong (setup_of line s rules) start all which' total'
        → (which ≡ which') × (total ≡ total') }
    ensures apart { (s : TheSettings) (line : TheSetup) (rules : List Rule) → IsLineSetup s line
        → (start : Totals) (all : List (List ℕ)) (sum : SummaryValue) (which : Counter) (total : ℕ)
        → CountsLines (setup_of line s rules) start all sum → FillsAmong (setup_of line s rules) start all which total → ⊥ }
{
    one_meaning();
    one_list_of_keys();
    one_sum();
}

/// A summary is printed as one text.
pub fn one_text()
    ensures { (s : TheSettings) (sum : SummaryValue) (a b : List ℕ) → IsTextOf s sum a → IsTextOf s sum b → a ≡ b }
{
    one_report_of_rows();
}

/// Over told files and sides a run that the settings say has one answer: one status, and where it is done one text, one sum and
/// one list of entries.
pub fn one_answer()
    ensures { (s : TheSettings) (line : TheSetup) → IsLineSetup s line → (files : FilesView) (sides : Sides) (a b : TheStatus)
        (yielded other : Option Yield) → Answers line s files sides a yielded → Answers line s files sides b other
        → (a ≡ b) × (yielded ≡ other) }
{
    one_reading();
    one_count();
    one_course();
    one_database();
    one_portion();
    one_following();
    one_text();
}

/// There are no told files and no sides over which a run has no answer.
pub fn some_answer()
    ensures { (s : TheSettings) (line : TheSetup) (files : FilesView) (sides : Sides) → InputsAreTold s files
        → ((status : TheStatus) (yielded : Option Yield) → Answers line s files sides status yielded → ⊥) → ⊥ }
{
    one_reading();
    some_database();
    a_choice_exists();
    some_count();
    some_merged();
    some_report();
}

/// A run ends alike by any workers: two runs whose words, after those of their configuration files, say the same but for
/// `--jobs` and `--chunk-size`, over told files with the same contents and told sides that say one database or one damage, have one status, the same report in the same place, the
/// same bytes written to standard error, and the same database, where no count of a fault rose and no memory was wanted.
pub fn one_run_by_any_workers<D: Disk, E: Disk>()
    ensures { (conf words conf' words' : List (List ℕ)) (sides sides' : Sides) (files files' others others' : FilesView) (disk disk' : D) (other other' : E)
        (outs outs' targets targets' : OutsView) (status end : TheStatus)
        → let a : RunView = run_of (outside_of files (D.view disk) (D.images disk) outs) (outside_of files' (D.view disk') (D.images disk') outs') status in
        let b : RunView = run_of (outside_of others (E.view other) (E.images other) targets) (outside_of others' (E.view other') (E.images other') targets') end in
        DifferInWorkers conf words conf' words' → IsUntroubled conf words sides a → IsUntroubled conf' words' sides' b → SidesAgree sides sides'
        → HaveSameInputs conf words a b → Alike sides sides' a b }
{
    one_answer();
    one_database();
    joined_words();
    read_as_told();
}

/// Two runs with the same words, after the same of a configuration file, over told files with the same contents and told sides
/// that say one database or one damage, end alike where no count of a fault rose and no memory was wanted: with one status, the same report in the same place, the same
/// bytes written to standard error, and the same database. So a run is a function of the database that it finds, and not of the
/// bytes that hold it.
pub fn one_run<D: Disk, E: Disk>()
    ensures { (conf words : List (List ℕ)) (sides sides' : Sides) (files files' others others' : FilesView) (disk disk' : D) (other other' : E)
        (outs outs' targets targets' : OutsView) (status end : TheStatus)
        → let a : RunView = run_of (outside_of files (D.view disk) (D.images disk) outs) (outside_of files' (D.view disk') (D.images disk') outs') status in
        let b : RunView = run_of (outside_of others (E.view other) (E.images other) targets) (outside_of others' (E.view other') (E.images other') targets') end in
        IsUntroubled conf words sides a → IsUntroubled conf words sides' b → SidesAgree sides sides' → HaveSameInputs conf words a b
        → Alike sides sides' a b }
{
    one_answer();
    one_database();
    read_as_told();
}
