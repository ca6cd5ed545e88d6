//! What holds of all lines of logs. Each function's contract is the law, and its body does nothing: it names the laws
//! of other crates that the law stands on.

ghost use Rattle.std.specs.Prelude.{◌≡◌, ℕ, List, Result};
ghost use Rattle.ga_base.specs.declared.formats.FormatFault.{FormatFault};
ghost use Rattle.ga_line.specs.declared.setup.Shape.{Shape as TheShape};
ghost use Rattle.ga_line.specs.ShapeTexts.{ShapeOf};
ghost use Rattle.ga_dates.specs.declared.kind.Kind.TheVariants.{Date, Time};
ghost use Rattle.ga_dates.specs.Items.{IsComplete};
ghost use Rattle.ga_line.specs.declared.setup.LineSetup.{LineSetup as TheSetup};
ghost use Rattle.ga_line.specs.Lines.{KeepsItsLines};
ghost use Rattle.ga_base.specs.Lines.{IsEnded};
ghost use Rattle.ga_line.specs.Records.{SaysOneThing, SaysSomething};

use ga_dates::laws::{one_date, one_date_and_time, one_time};
use ga_format::laws::{
    every_text_has_an_answer as every_plain_text, one_answer as one_plain_answer,
};
use ga_jsonlog::laws::{
    every_line_has_pieces, every_text_has_an_answer as every_json_text,
    one_answer as one_json_answer,
};
use ga_requests::laws::one_split;

/// The text of a log format means one format or has one first fault, and not two.
pub fn one_shape()
    ensures { (text : List ℕ) (answer other : Result TheShape FormatFault) →
        ShapeOf text answer → ShapeOf text other → answer ≡ other }
{
    one_plain_answer();
    one_json_answer();
}

/// The text of a log format means a format or has a first fault.
pub fn every_text_has_a_shape()
    ensures { (text : List ℕ) → (answer : Result TheShape FormatFault) × ShapeOf text answer }
{
    every_plain_text();
    every_json_text();
}

/// Where days and times are written by whole formats, a line says one thing: it is passed over, or fails, or is one record.
pub fn one_meaning()
    ensures { (setup : TheSetup) (line : List ℕ) → IsComplete Date setup.date → IsComplete Time setup.time → SaysOneThing setup line }
{
    one_split();
    one_date();
    one_time();
    one_date_and_time();
}

/// Every line says something, however it is read.
pub fn every_line_says_something()
    ensures { (setup : TheSetup) (line : List ℕ) → SaysSomething setup line }
{
    every_line_has_pieces();
}

/// The lines of a log that is added to are those that it had, and after them those of what is added, where the log
/// was empty or ended in a line feed.
pub fn lines_added()
    ensures { (text : List ℕ) → IsEnded text → KeepsItsLines text }
{}
