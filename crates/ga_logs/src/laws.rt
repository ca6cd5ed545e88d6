//! What holds of the logs of a run in general. Each function's contract is the law; what its body calls are the laws that it
//! rests on.

ghost use Rattle.std.specs.Prelude.{◌≡◌, ◌≢◌, ◌↔◌, ◌++◌, ℕ, Bool, List, Option, None};
ghost use Rattle.ga_base.specs.declared.entry.Entry.{Entry};
ghost use Rattle.ga_ports.specs.Files.{Contents, FilesView};
ghost use Rattle.ga_logs.specs.Following.{AreSomeTold, AreTold, ReadsAll, ReadsSome};
ghost use Rattle.ga_logs.specs.Portions.{Follows, IsPortionOf};
ghost use Rattle.ga_resume.specs.declared.follow.Follow.{Follow as TheFollow};
ghost use Rattle.ga_logs.specs.declared.portion.Portion.{Portion as ThePortion};
ghost use Rattle.ga_batches.specs.Batches.{BatcherSeen, Feeds, held};
ghost use Rattle.ga_batches.specs.Fed.{IsFed};
ghost use Rattle.ga_batches.specs.Lines.{cut_lines};
ghost use Rattle.ga_logs.specs.Streams.{batch_lines};
ghost use Rattle.ga_line.specs.Lines.{lines};
ghost use Rattle.ga_outcomes.specs.LineOutcomes.{HaveOutcomes};
ghost use Rattle.ga_outcomes.specs.declared.setup.Setup.{Setup as TheSetup};
ghost use Rattle.ga_summary.specs.Outcomes.{Outcome};

use ga_batches::laws::{batches_are_its_stream, lines_are_cut_one_by_one};
use ga_line::laws::lines_added;
use ga_resume::laws::one_choice;

/// A run reads one portion of a log.
pub fn one_portion()
    ensures { (follow : TheFollow) (entries : List Entry) (log : List ℕ) (a b : ThePortion)
        → IsPortionOf follow entries log a → IsPortionOf follow entries log b → a ≡ b }
{
    one_choice();
}

/// A portion that is counted leaves one list of entries.
pub fn one_following()
    ensures { (follow : TheFollow) (portion : ThePortion) (old a b : List Entry)
        → Follows follow portion old a → Follows follow portion old b → a ≡ b }
{}

/// Logs whose contents are told have one list of portions, and leave one list of entries.
pub fn one_course()
    ensures { (follow : TheFollow) (contents : Option Contents) (names : List (List ℕ)) (old new other : List Entry) (a b : List ThePortion)
        → AreTold follow contents names old new a → AreTold follow contents names old other b → (a ≡ b) × (new ≡ other) }
{
    one_portion();
    one_following();
}

/// Where contents are told, logs that were read are read as told.
pub fn read_as_told()
    ensures all { (follow : TheFollow) (names : List (List ℕ)) (old new : List Entry) (files after : FilesView) (portions : List ThePortion)
        → ReadsAll follow names old new files after portions → files.contents ≢ None → AreTold follow files.contents names old new portions }
    ensures some { (follow : TheFollow) (names : List (List ℕ)) (old : List Entry) (files after : FilesView) (portions : List ThePortion)
        → ReadsSome follow names old files after portions → files.contents ≢ None → AreSomeTold follow files.contents names old portions }
{}

/// A text and the text with its lines as they are held have the same outcomes.
pub fn held_lines_come_to_the_same()
    ensures { (setup : TheSetup) (text : List ℕ) (keep : Bool) (outcomes : List Outcome)
        → HaveOutcomes setup (lines (cut_lines text) keep) outcomes ↔ HaveOutcomes setup (lines text keep) outcomes }
{
    lines_are_cut_one_by_one();
}

/// What a batcher holds once bytes were fed has the outcomes of what it held before and of these bytes, whatever follows,
/// whether or not the rest is kept, and however lines are read and counted.
pub fn fed_bytes_keep_their_outcomes()
    ensures { (setup : TheSetup) (old new : BatcherSeen) (bytes more : List ℕ) (keep : Bool) (outcomes : List Outcome) → Feeds bytes old new
        → HaveOutcomes setup (lines (held new ++ more) keep) outcomes ↔ HaveOutcomes setup (lines ((held old ++ bytes) ++ more) keep) outcomes }
{
    lines_are_cut_one_by_one();
}

/// However bytes are fed, and whenever a batch is taken, the lines of the batches and of what is still held have the outcomes
/// of the lines of all bytes that were fed.
pub fn batches_keep_their_lines()
    ensures { (setup : TheSetup) (stream : List ℕ) (batches : List (List ℕ)) (batcher : BatcherSeen) (keep : Bool) (outcomes : List Outcome)
        → IsFed stream batches batcher
        → HaveOutcomes setup (batch_lines batches ++ lines (held batcher) keep) outcomes ↔ HaveOutcomes setup (lines stream keep) outcomes }
{
    batches_are_its_stream();
    lines_added();
    lines_are_cut_one_by_one();
}
