ghost use Rattle.std.specs.Prelude.{◌≡◌, ◌≤◌, ◌∷◌, [], codes, decimal};
ghost use Rattle.ga_ports.specs.declared.outs.To.TheVariants.{Stderr};
ghost use Rattle.ga_ports.specs.Trace.{OutsTrace};
ghost use Rattle.ga_targets.specs.Printing.{ChangesOnly, TakesOrStops, joined};
ghost use Rattle.ga_dbtool.specs.Statuses.{counter_name, fault_line};

use crate::DbStatus;
use ga_base::Counter;
use ga_ports::Outs;
use ga_targets::say;
use itoa::Buffer;

/// Writes the fault line of a status to standard error, nothing for `Done`. It takes no memory, and a fault of standard error
/// ends the line.
pub(crate) fn tell<O: Outs>(outs: &mut O, status: &DbStatus)
    ensures line { TakesOrStops (fault_line status.now) (O.view outs.old).stderr (O.view outs.new).stderr }
    ensures others { ChangesOnly Stderr (O.view outs.old) (O.view outs.new) }
    ensures starved { (O.view outs.old).starved ≤ (O.view outs.new).starved }
    ensures calls { OutsTrace (O.view outs.old) (O.view outs.new) }
{
    match status {
        DbStatus::Done => say(outs, &[]),
        DbStatus::BadWords { at } => { tell_number(outs, b"goaccess_db: word ", *at, b": usage\n") }
        DbStatus::DiskFault { db } => {
            let database = b"goaccess_db: database ";
            tell_number(outs, database, *db as u64, b": device failed\n")
        }
        DbStatus::OutFault { at, .. } => {
            let target = b"goaccess_db: standard output: write failed after ";
            tell_number(outs, target, *at, b" bytes\n")
        }
        DbStatus::CounterFull { which, total } => tell_counter(outs, *which, *total),
        DbStatus::DbDamaged { db, side, at } => tell_damage(outs, *db, *side, *at),
        DbStatus::NoMemory => say(outs, &[b"goaccess_db: no memory\n"]),
        DbStatus::KeepDiffers { stored, given } => {
            let days = b"goaccess_db: keep-last: stored ";
            tell_pair(
                outs,
                days,
                *stored as u64,
                b", given ",
                *given as u64,
                b"\n",
            )
        }
        DbStatus::SharedEntry { left, right } => {
            let entries = b"goaccess_db: entries ";
            tell_pair(outs, entries, *left, b" and ", *right, b" are one log\n")
        }
    }
}

/// Writes a text, a number and a text.
fn tell_number<O: Outs>(outs: &mut O, front: &[u8], number: u64, back: &[u8])
    ensures line { TakesOrStops (joined (front.now ∷ decimal number ∷ back.now ∷ [])) (O.view outs.old).stderr (O.view outs.new).stderr }
    ensures others { ChangesOnly Stderr (O.view outs.old) (O.view outs.new) }
    ensures starved { (O.view outs.old).starved ≤ (O.view outs.new).starved }
    ensures calls { OutsTrace (O.view outs.old) (O.view outs.new) }
{
    let mut digits = Buffer::new();
    let number = digits.format(number).as_bytes();
    say(outs, &[front, number, back])
}

/// Writes two numbers with a text before, between and after them.
fn tell_pair<'a, O: Outs>(
    outs: &mut O,
    front: &'a [u8],
    first: u64,
    middle: &'a [u8],
    second: u64,
    back: &'a [u8],
)
    ensures line { TakesOrStops (joined (front.now ∷ decimal first ∷ middle.now ∷ decimal second ∷ back.now ∷ [])) (O.view outs.old).stderr (O.view outs.new).stderr }
    ensures others { ChangesOnly Stderr (O.view outs.old) (O.view outs.new) }
    ensures starved { (O.view outs.old).starved ≤ (O.view outs.new).starved }
    ensures calls { OutsTrace (O.view outs.old) (O.view outs.new) }
{
    let mut firsts = Buffer::new();
    let mut seconds = Buffer::new();
    let first = firsts.format(first).as_bytes();
    let second = seconds.format(second).as_bytes();
    say(outs, &[front, first, middle, second, back])
}

/// Writes the fault line of a full counter.
fn tell_counter<O: Outs>(outs: &mut O, which: Counter, total: u128)
    ensures line { TakesOrStops (fault_line (DbStatus.CounterFull which total)) (O.view outs.old).stderr (O.view outs.new).stderr }
    ensures others { ChangesOnly Stderr (O.view outs.old) (O.view outs.new) }
    ensures starved { (O.view outs.old).starved ≤ (O.view outs.new).starved }
    ensures calls { OutsTrace (O.view outs.old) (O.view outs.new) }
{
    let mut digits = Buffer::new();
    let total = digits.format(total).as_bytes();
    let counter = counter_name(which);
    say(
        outs,
        &[b"goaccess_db: counter full: ", counter, total, b"\n"],
    )
}

/// Writes the fault line of a damaged database.
fn tell_damage<O: Outs>(outs: &mut O, db: u32, side: u32, at: u64)
    ensures line { TakesOrStops (fault_line (DbStatus.DbDamaged db side at)) (O.view outs.old).stderr (O.view outs.new).stderr }
    ensures others { ChangesOnly Stderr (O.view outs.old) (O.view outs.new) }
    ensures starved { (O.view outs.old).starved ≤ (O.view outs.new).starved }
    ensures calls { OutsTrace (O.view outs.old) (O.view outs.new) }
{
    let mut numbers = Buffer::new();
    let mut sides = Buffer::new();
    let mut places = Buffer::new();
    let db = numbers.format(db).as_bytes();
    let side = sides.format(side).as_bytes();
    let at = places.format(at).as_bytes();
    let text = b"goaccess_db: database ";
    say(
        outs,
        &[text, db, b": side ", side, b" damaged at ", at, b"\n"],
    )
}

/// What a fault line calls a counter.
fn counter_name(which: Counter) -> &'static [u8]
    ensures { result.now ≡ counter_name which }
{
    match which {
        Counter::Lines => b"lines ",
        Counter::Bytes => b"bytes ",
        Counter::Micros => b"micros ",
        Counter::Generations => b"generations ",
    }
}
