ghost use Rattle.std.specs.Prelude.{◌≡◌, ◌≤◌, ◌∷◌, ◌++◌, [], codes, decimal, map};
ghost use Rattle.ga_ports.specs.declared.outs.To.TheVariants.{Stderr};
ghost use Rattle.ga_ports.specs.Trace.{OutsTrace};
ghost use Rattle.ga_targets.specs.Printing.{ChangesOnly, TakesOrStops, joined};
ghost use Rattle.ga_one_run.specs.Statuses.{counter_name, fault_line, format_name, place_pieces, word_pieces};

use crate::{Status, Which};
use ga_base::{Counter, FormatFault};
use ga_ports::Outs;
use ga_targets::say;
use ga_words::WordFault;
use itoa::Buffer;

/// Writes the fault line of a status to standard error, nothing for `Done`. It takes no memory, and a fault of
/// standard error ends the line. `name` is that of the input or of the target that failed.
pub fn tell<O: Outs>(outs: &mut O, name: &[u8], status: &Status)
    ensures line { TakesOrStops (fault_line name.now status.now) (O.view outs.old).stderr (O.view outs.new).stderr }
    ensures others { ChangesOnly Stderr (O.view outs.old) (O.view outs.new) }
    ensures starved { (O.view outs.old).starved ≤ (O.view outs.new).starved }
    ensures calls { OutsTrace (O.view outs.old) (O.view outs.new) }
{
    match status {
        Status::Done => say(outs, &[]),
        Status::BadWords(fault) => tell_words(outs, fault),
        Status::BadConf { line } => {
            let file = b"goaccess: config file, line ";
            tell_number(outs, file, *line, b": not a setting\n")
        }
        Status::BadFormat { which, fault } => tell_format(outs, *which, fault),
        Status::BadRules { line } => {
            let file = b"goaccess: browsers file, line ";
            tell_number(outs, file, *line, b": not a rule\n")
        }
        Status::FileFault { .. } => say(outs, &[b"goaccess: ", name, b": read failed\n"]),
        Status::FileShort { at, .. } => tell_place(outs, name, b": short at ", *at, b"\n"),
        Status::DiskFault => say(outs, &[b"goaccess: database: device failed\n"]),
        Status::DbDamaged { side, at } => tell_damage(outs, *side, *at),
        Status::KeepDiffers { stored, given } => tell_days(outs, *stored, *given),
        Status::OutFault { at, .. } => {
            tell_place(outs, name, b": write failed after ", *at, b" bytes\n")
        }
        Status::CounterFull { which, total } => tell_counter(outs, *which, *total),
        Status::NoMemory => say(outs, &[b"goaccess: no memory\n"]),
    }
}

/// Writes the fault line of a format.
fn tell_format<O: Outs>(outs: &mut O, which: Which, fault: &FormatFault)
    ensures line { TakesOrStops (fault_line [] (Status.BadFormat which fault.now)) (O.view outs.old).stderr (O.view outs.new).stderr }
    ensures others { ChangesOnly Stderr (O.view outs.old) (O.view outs.new) }
    ensures starved { (O.view outs.old).starved ≤ (O.view outs.new).starved }
    ensures calls { OutsTrace (O.view outs.old) (O.view outs.new) }
{
    let format = format_name(which);
    let text = fault.text().as_bytes();
    match fault.leaf() {
        None => tell_in_text(outs, format, fault.place(), text),
        Some(leaf) => tell_in_leaf(outs, format, leaf, fault.place(), text),
    }
}

/// Writes the fault of a format at a place of its text, or without one.
fn tell_in_text<'a, O: Outs>(outs: &mut O, format: &'a [u8], place: Option<u64>, text: &'a [u8])
    ensures line { TakesOrStops (joined (codes "goaccess: " ∷ format.now ∷ (place_pieces place ++ codes ": " ∷ text.now ∷ codes "\n" ∷ [])))
        (O.view outs.old).stderr (O.view outs.new).stderr }
    ensures others { ChangesOnly Stderr (O.view outs.old) (O.view outs.new) }
    ensures starved { (O.view outs.old).starved ≤ (O.view outs.new).starved }
    ensures calls { OutsTrace (O.view outs.old) (O.view outs.new) }
{
    match place {
        None => say(outs, &[b"goaccess: ", format, b": ", text, b"\n"]),
        Some(at) => {
            let mut digits = Buffer::new();
            let at = digits.format(at).as_bytes();
            say(
                outs,
                &[b"goaccess: ", format, b", byte ", at, b": ", text, b"\n"],
            )
        }
    }
}

/// Writes the fault of a leaf of a JSON format at a place of the leaf's text, or without one.
fn tell_in_leaf<'a, O: Outs>(
    outs: &mut O,
    format: &'a [u8],
    leaf: u64,
    place: Option<u64>,
    text: &'a [u8],
)
    ensures line { TakesOrStops (joined (codes "goaccess: " ∷ format.now ∷ codes ", leaf " ∷ decimal leaf ∷ (place_pieces place ++ codes ": " ∷ text.now ∷ codes "\n" ∷ [])))
        (O.view outs.old).stderr (O.view outs.new).stderr }
    ensures others { ChangesOnly Stderr (O.view outs.old) (O.view outs.new) }
    ensures starved { (O.view outs.old).starved ≤ (O.view outs.new).starved }
    ensures calls { OutsTrace (O.view outs.old) (O.view outs.new) }
{
    let mut numbers = Buffer::new();
    let leaf = numbers.format(leaf).as_bytes();
    let head = b", leaf ";
    match place {
        None => say(
            outs,
            &[b"goaccess: ", format, head, leaf, b": ", text, b"\n"],
        ),
        Some(at) => {
            let mut digits = Buffer::new();
            let at = digits.format(at).as_bytes();
            say(
                outs,
                &[
                    b"goaccess: ",
                    format,
                    head,
                    leaf,
                    b", byte ",
                    at,
                    b": ",
                    text,
                    b"\n",
                ],
            )
        }
    }
}

/// Writes what happened to a file or a target at a place.
fn tell_place<'a, O: Outs>(outs: &mut O, name: &'a [u8], text: &'a [u8], at: u64, back: &'a [u8])
    ensures line { TakesOrStops (joined (codes "goaccess: " ∷ name.now ∷ text.now ∷ decimal at ∷ back.now ∷ [])) (O.view outs.old).stderr (O.view outs.new).stderr }
    ensures others { ChangesOnly Stderr (O.view outs.old) (O.view outs.new) }
    ensures starved { (O.view outs.old).starved ≤ (O.view outs.new).starved }
    ensures calls { OutsTrace (O.view outs.old) (O.view outs.new) }
{
    let mut digits = Buffer::new();
    let at = digits.format(at).as_bytes();
    say(outs, &[b"goaccess: ", name, text, at, back])
}

/// Writes the fault line of a full counter.
fn tell_counter<O: Outs>(outs: &mut O, which: Counter, total: u128)
    ensures line { TakesOrStops (fault_line [] (Status.CounterFull which total)) (O.view outs.old).stderr (O.view outs.new).stderr }
    ensures others { ChangesOnly Stderr (O.view outs.old) (O.view outs.new) }
    ensures starved { (O.view outs.old).starved ≤ (O.view outs.new).starved }
    ensures calls { OutsTrace (O.view outs.old) (O.view outs.new) }
{
    let mut digits = Buffer::new();
    let total = digits.format(total).as_bytes();
    let counter = counter_name(which);
    say(outs, &[b"goaccess: counter full: ", counter, total, b"\n"])
}

/// Writes the fault line of a damaged database.
fn tell_damage<O: Outs>(outs: &mut O, side: u32, at: u64)
    ensures line { TakesOrStops (joined (codes "goaccess: database: side " ∷ decimal side ∷ codes " damaged at " ∷ decimal at ∷ codes "\n" ∷ [])) (O.view outs.old).stderr (O.view outs.new).stderr }
    ensures others { ChangesOnly Stderr (O.view outs.old) (O.view outs.new) }
    ensures starved { (O.view outs.old).starved ≤ (O.view outs.new).starved }
    ensures calls { OutsTrace (O.view outs.old) (O.view outs.new) }
{
    let mut places = Buffer::new();
    let mut sides = Buffer::new();
    let at = places.format(at).as_bytes();
    let side = sides.format(side).as_bytes();
    let text = b"goaccess: database: side ";
    say(outs, &[text, side, b" damaged at ", at, b"\n"])
}

/// Writes the fault line of a database that keeps another number of days.
fn tell_days<O: Outs>(outs: &mut O, stored: u32, given: u32)
    ensures line { TakesOrStops (joined (codes "goaccess: keep-last: stored " ∷ decimal stored ∷ codes ", given " ∷ decimal given ∷ codes "\n" ∷ [])) (O.view outs.old).stderr (O.view outs.new).stderr }
    ensures others { ChangesOnly Stderr (O.view outs.old) (O.view outs.new) }
    ensures starved { (O.view outs.old).starved ≤ (O.view outs.new).starved }
    ensures calls { OutsTrace (O.view outs.old) (O.view outs.new) }
{
    let mut numbers = Buffer::new();
    let mut others = Buffer::new();
    let stored = numbers.format(stored).as_bytes();
    let given = others.format(given).as_bytes();
    let text = b"goaccess: keep-last: stored ";
    say(outs, &[text, stored, b", given ", given, b"\n"])
}

/// Writes the fault line of words.
fn tell_words<O: Outs>(outs: &mut O, fault: &WordFault)
    ensures line { TakesOrStops (joined (word_pieces fault.now)) (O.view outs.old).stderr (O.view outs.new).stderr }
    ensures others { ChangesOnly Stderr (O.view outs.old) (O.view outs.new) }
    ensures starved { (O.view outs.old).starved ≤ (O.view outs.new).starved }
    ensures calls { OutsTrace (O.view outs.old) (O.view outs.new) }
{
    let word = b"goaccess: word ";
    match fault {
        WordFault::UnknownOption { at } => tell_number(outs, word, *at, b": unknown option\n"),
        WordFault::MissingValue { at } => tell_number(outs, word, *at, b": value missing\n"),
        WordFault::BadValue { at } => tell_number(outs, word, *at, b": bad value\n"),
        WordFault::Conflict { at } => tell_number(outs, word, *at, b": conflict\n"),
        WordFault::NoFormat => say(outs, &[b"goaccess: no log format\n"]),
        WordFault::NoInput => say(outs, &[b"goaccess: no input\n"]),
        WordFault::NoMemory => say(outs, &[b"goaccess: no memory\n"]),
    }
}

/// Writes a text, a number and a text.
fn tell_number<O: Outs>(outs: &mut O, front: &[u8], number: u64, back: &[u8])
    ensures line { TakesOrStops (joined (front.now ∷ decimal number ∷ back.now ∷ [])) (O.view outs.old).stderr (O.view outs.new).stderr }
    ensures others { ChangesOnly Stderr (O.view outs.old) (O.view outs.new) }
    ensures starved { (O.view outs.old).starved ≤ (O.view outs.new).starved }
    ensures calls { OutsTrace (O.view outs.old) (O.view outs.new) }
{
    let mut digits = Buffer::new();
    let number = digits.format(number).as_bytes();
    say(outs, &[front, number, back])
}

fn counter_name(which: Counter) -> &'static [u8]
    ensures { result.now ≡ counter_name which }
{
    match which {
        Counter::Lines => b"lines ",
        Counter::Bytes => b"bytes ",
        Counter::Micros => b"micros ",
        Counter::Generations => b"generations ",
    }
}

fn format_name(which: Which) -> &'static [u8]
    ensures { result.now ≡ format_name which }
{
    match which {
        Which::Log => b"log format",
        Which::Date => b"date format",
        Which::Time => b"time format",
    }
}
