ghost use Rattle.std.specs.Prelude.{◌≡◌, ◌↔◌, ◌<◌, ◌≤◌, ℕ, List, Option, min, IfSome, IfNone, IsTrue};
ghost use Rattle.std.specs.Option.{option_copied, option_map};
ghost use Rattle.ga_line.specs.Fits.{Part};
ghost use Rattle.ga_line.specs.Steps.Fitting.{AreNoted, part_of};
ghost use Rattle.ga_line.specs.Records.{IsRefused, HasMinute, HasMoment, HasStatus, HasMicros, IsMicros, IsMissing, IsNoAddress, size_value};
ghost use Rattle.ga_line.specs.Steps.Valid.{HasNumbers, IsTooSlow};

use crate::LineSetup;
use crate::digits::{TOO_BIG, decimal_in, number_in, size_in};
use crate::fields::Fields;
use crate::status_code::status_in;
use ga_base::BIG;
use ga_dates::{TimeFormat, read_both, read_date, read_time};
use ga_hosts::is_address;

/// What a valid line says in numbers.
#[derive(Clone, Copy)]
pub(crate) struct Numbers {
    /// The day, `10000 * year + 100 * month + day`.
    pub date: u32,
    /// The minute of the day, from 0.
    pub minute: Option<u32>,
    /// The status code, 100 to 599, or 0.
    pub status: u32,
    /// The size of the answer in bytes.
    pub bytes: u64,
    /// The time that the answer took, in microseconds.
    pub micros: Option<u64>,
}

/// How many decimals of a millisecond, and of a second, are microseconds.
const OF_MILLISECOND: usize = 3;

const OF_SECOND: usize = 6;

/// The numbers that the fields of a line say. `None` where they are refused: a part that every line has to give is absent
/// or empty, the host is no address where it has to be one, the day or the time isn't spelt, the status is no status code, or the size or the time taken is above `BIG`.
pub(crate) fn numbers_of(setup: &LineSetup, fields: &Fields<'_>) -> Option<Numbers>
    ensures found { (parts : List Part) → AreNoted parts fields.now → IfSome result (HasNumbers setup.now parts) }
    ensures refused { (parts : List Part) → AreNoted parts fields.now → IfNone result (IsRefused setup.now parts) }
{
    if is_missing(fields.text(b'h')) || is_missing(fields.day()) || is_missing(fields.request()) {
        return None;
    }
    if is_no_address(fields.text(b'h'), setup.no_ip_validation) {
        return None;
    }
    let (date, minute) = moment_in(
        setup,
        fields.text(b'x'),
        fields.text(b'd'),
        fields.text(b't'),
    )?;
    let status = status_of(fields.text(b's'), setup.strict_status)?;
    let bytes = size_of(fields.text(b'b'))?;
    let micros = micros_of(fields.taken())?;
    Some(Numbers {
        date,
        minute,
        status,
        bytes,
        micros,
    })
}

/// Whether a field is absent or empty.
fn is_missing(text: Option<&[u8]>) -> bool
    ensures { IsTrue result ↔ IsMissing (option_copied text.entry) }
{
    match text {
        Some(bytes) => bytes.is_empty(),
        None => true,
    }
}

/// Whether the host is there and no address, where only addresses are hosts.
fn is_no_address(host: Option<&[u8]>, any: bool) -> bool
    ensures { IsTrue result ↔ IsNoAddress any (option_copied host.entry) }
{
    match host {
        Some(text) => !any && !is_address(text),
        None => false,
    }
}

/// The day and the minute that the texts of `%x`, `%d` and `%t` say. `None` where one of them isn't spelt.
fn moment_in(
    setup: &LineSetup,
    both: Option<&[u8]>,
    day: Option<&[u8]>,
    time: Option<&[u8]>,
) -> Option<(u32, Option<u32>)>
    ensures found { IfSome result (λ m. HasMoment setup.now (option_copied both.entry) (option_copied day.entry) (option_copied time.entry) m.0 m.1) }
    ensures none { IfNone result ((date : ℕ) (minute : Option ℕ) → ¬ HasMoment setup.now (option_copied both.entry) (option_copied day.entry) (option_copied time.entry) date minute) }
{
    match both {
        Some(text) => {
            let (date, minute) = read_both(&setup.date, &setup.time, text)?;
            Some((date, Some(minute)))
        }
        None => {
            let date = read_date(&setup.date, day?)?;
            Some((date, minute_in(&setup.time, time)?))
        }
    }
}

/// The minute that the text of `%t` says, and None where there is no text. No answer where it isn't spelt.
fn minute_in(times: &TimeFormat, time: Option<&[u8]>) -> Option<Option<u32>>
    ensures found { IfSome result (HasMinute times.now (option_copied time.entry)) }
    ensures none { IfNone result ((minute : Option ℕ) → ¬ HasMinute times.now (option_copied time.entry) minute) }
{
    match time {
        None => Some(None),
        Some(text) => Some(Some(read_time(times, text)?)),
    }
}

/// The status that a field says. `None` where it is no status code, and that is asked for strictly.
fn status_of(text: Option<&[u8]>, strict: bool) -> Option<u32>
    ensures found { IfSome result (HasStatus strict (option_copied text.entry)) }
    ensures none { IfNone result ((status : ℕ) → ¬ HasStatus strict (option_copied text.entry) status) }
{
    let Some(bytes) = text else {
        return Some(0);
    };
    match status_in(bytes) {
        Some(status) => Some(status),
        None if strict => None,
        None => Some(0),
    }
}

/// The size that a field says. `None` where it is above `BIG`.
fn size_of(text: Option<&[u8]>) -> Option<u64>
    ensures found { IfSome result (λ size. (size ≡ size_value (option_copied text.entry)) × (size ≤ BIG)) }
    ensures large { IfNone result (BIG < size_value (option_copied text.entry)) }
{
    match text {
        None => Some(0),
        Some(bytes) => up_to_big(size_in(bytes)),
    }
}

/// The number, unless it is above `BIG`.
fn up_to_big(number: u64) -> Option<u64>
    ensures found { IfSome result (λ n. (n ≡ number) × (number ≤ BIG)) }
    ensures large { IfNone result (BIG < number) }
{
    if number <= BIG { Some(number) } else { None }
}

/// The time that a field says, and None where it says none. No answer where it is above `BIG`.
fn micros_of(part: Option<(u8, &[u8])>) -> Option<Option<u64>>
    ensures found { IfSome result (λ micros. HasMicros (option_map part_of part.entry) micros × IfSome micros (λ m. m ≤ BIG)) }
    ensures large { IfNone result (IsTooSlow (option_map part_of part.entry)) }
{
    let Some((letter, text)) = part else {
        return Some(None);
    };
    match micros_in(letter, text) {
        None => Some(None),
        Some(micros) => Some(Some(up_to_big(micros)?)),
    }
}

/// The microseconds that the text of a field for the time taken writes, `TOO_BIG` where they are above `BIG`. `None` where
/// it is no such number.
fn micros_in(letter: u8, text: &[u8]) -> Option<u64>
    ensures found { IfSome result (λ n. (number : ℕ) × IsMicros (letter, text.now) number × (n ≡ min number TOO_BIG)) }
    ensures none { IfNone result ((number : ℕ) → ¬ IsMicros (letter, text.now) number) }
{
    match letter {
        b'D' => number_in(text),
        b'L' => decimal_in(text, OF_MILLISECOND),
        b'T' => decimal_in(text, OF_SECOND),
        _ => None,
    }
}
