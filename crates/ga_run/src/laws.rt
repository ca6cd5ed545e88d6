//! What holds of all lists of steps. Each function's contract is the law; what its body calls are the laws that it rests on.

ghost use Rattle.std.specs.Prelude.{◌∷◌, ◌++◌, ℕ, [], List, Option};
ghost use Rattle.ga_run.specs.Headline.{Headline};
ghost use Rattle.ga_run.specs.History.{History, Steps, then_status};
ghost use Rattle.ga_run.specs.Parts.{Adjoin, AreOnePass, Part};
ghost use Rattle.ga_run.specs.declared.history.Step.{Step as TheStep};
ghost use Rattle.ga_run.specs.declared.history.World.{World as TheWorld};
ghost use Rattle.ga_one_run.specs.declared.status.Status.{Status as TheStatus};

use ga_conf::laws::one_conf;
use ga_disk::laws::{a_crash_is_settled, a_crash_leaves_an_image};
use ga_line::laws::lines_added;
use ga_logs::laws::read_as_told;
use ga_ports::laws::files_stay;
use ga_store::laws::one_database;
use ga_summary::laws::{merged_sums, trimmed_merge};
use ga_words::laws::{joined_words, one_scan};

/// Every list of steps in a world in which nothing stood before keeps the promise of `specs/Headline.antt`, step by step: the
/// database is that of the kept runs, a tracked run that is done printed exactly the report on the kept days of all their lines,
/// an acknowledged run is never taken back, and a run fails only by the causes of its status.
pub fn headline()
    ensures { (steps : List TheStep) (statuses : List TheStatus) (old new : TheWorld) → Headline steps statuses old new }
{
    one_database();
    merged_sums();
    trimmed_merge();
    read_as_told();
    one_scan();
    joined_words();
    one_conf();
    files_stay();
    a_crash_leaves_an_image();
    a_crash_is_settled();
}

/// A list of steps goes on by one step more: so a caller that makes steps one by one has a history of them.
pub fn histories_go_on()
    ensures { (steps : List TheStep) (statuses : List TheStatus) (old mid new : TheWorld) (step : TheStep)
        (status : Option TheStatus) → History steps statuses old mid → Steps step status mid new
        → History (steps ++ step ∷ []) (then_status statuses status) old new }
{}

/// Parts of a log that adjoin from its first byte on, and end after a line feed, have the lines of the log up to the end of the
/// last part, each once and in their order.
pub fn parts_are_one_pass()
    ensures { (log : List ℕ) (parts : List Part) → Adjoin log 0 parts → AreOnePass log parts }
{
    lines_added();
}
