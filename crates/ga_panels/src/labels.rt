ghost use Rattle.std.specs.Prelude.{◌≡◌, ◌+◌, ◌%◌, ◌/◌, ◌<◌, ◌≤◌, ◌∷◌, [], take};
ghost use Rattle.ga_panels.specs.Labels as labels;
ghost use Rattle.ga_panels.specs.Steps as steps;
ghost use Rattle.ga_panels.specs.Steps.{moment_of, tens_of};

use ga_base::{DateSpec, HourSpec};
use std::marker::Model;
use std::str::from_utf8_unchecked;

/// The minutes of an hour.
const HOUR: u32 = 60;

/// The digits of a day.
pub(crate) const DAY_LEN: usize = 8;

/// What represents the group of a MIME type that begins with `/` (own profile).
const UNKNOWN: &str = "Unknown";

/// Numbers written with `N` bytes, digits and colons. Contracts see the list of them.
#[derive(Debug, Drop)]
pub(crate) struct Digits<const N: usize> {
    bytes: [u8; N],
}

impl<const N: usize> Model for Digits<N> {
    ghost use Rattle.std.specs.Prelude.{List, ℕ};
    ghost use Rattle.std.specs.Str.{IsAscii};

    ghost Value = { List ℕ };

    ghost view = { λ d. d.bytes };

    ghost invariant = { λ d. IsAscii d.bytes };
}

impl<const N: usize> Digits<N> {
    /// The digits as text.
    pub(crate) fn as_str(&self) -> &str
        ensures { result.now ≡ self.now }
    {
        unsafe { from_utf8_unchecked(&self.bytes) }
    }

    /// The first of the digits as text.
    pub(crate) fn front(&self, len: usize) -> &str
        requires { len ≤ N }
        ensures { result.now ≡ take len self.now }
    {
        unsafe { from_utf8_unchecked(&self.bytes[..len]) }
    }
}

/// The three digits of a number.
pub(crate) fn three_digits(number: u32) -> Digits<3>
    ensures { result ≡ labels.three_digits number }
{
    Digits {
        bytes: [digit(number / 100), digit(number / 10), digit(number)],
    }
}

/// The digits of a day, of an hour and of a minute of it.
pub(crate) fn moment(date: u32, minute: u32) -> Digits<12>
    requires { minute < 1440 }
    ensures { result ≡ moment_of date minute }
{
    let (hour, minute) = (minute / HOUR, minute % HOUR);
    Digits {
        bytes: [
            digit(date / 10_000_000),
            digit(date / 1_000_000),
            digit(date / 100_000),
            digit(date / 10_000),
            digit(date / 1_000),
            digit(date / 100),
            digit(date / 10),
            digit(date),
            first_digit(hour),
            digit(hour),
            first_digit(minute),
            digit(minute),
        ],
    }
}

/// The tens of minutes of a minute of the day.
pub(crate) fn tens(minute: u32) -> Digits<5>
    requires { minute < 1440 }
    ensures { result ≡ tens_of minute }
{
    let hour = minute / HOUR;
    Digits {
        bytes: [
            first_digit(hour),
            digit(hour),
            b':',
            first_digit(minute % HOUR),
            b'0',
        ],
    }
}

/// How many of the digits of a moment VISITORS has as data.
pub(crate) fn moment_len(spec: DateSpec, has_time: bool) -> usize
    ensures { result ≡ steps.moment_len spec has_time }
{
    match spec {
        DateSpec::Hour if has_time => 10,
        DateSpec::Minute if has_time => 12,
        _ => DAY_LEN,
    }
}

/// How many bytes of tens of minutes VISIT_TIMES has as data.
pub(crate) fn tens_len(spec: HourSpec) -> usize
    ensures { result ≡ steps.tens_len spec }
{
    match spec {
        HourSpec::Hour => 2,
        HourSpec::Tens => 5,
    }
}

/// The first of the two digits of a number below 100.
fn first_digit(number: u32) -> u8
    requires { number < 100 }
    ensures value { result ≡ 48 + number / 10 }
    ensures small { result < 58 }
{
    b'0' + (number / 10) as u8
}

/// The last digit of a number.
fn digit(number: u32) -> u8
    ensures { result ≡ 48 + number % 10 }
{
    b'0' + (number % 10) as u8
}

/// The group of a status of 100 to 599.
pub(crate) fn status_group(status: u32) -> &'static str
    ensures { result.now ≡ labels.status_group status }
{
    match status / 100 {
        1 => "1xx Informational",
        2 => "2xx Success",
        3 => "3xx Redirection",
        4 => "4xx Client Errors",
        _ => "5xx Server Errors",
    }
}

/// The group of a MIME type: what stands before its first `/`, or all of it, or `Unknown` where that is empty.
pub(crate) fn mime_group(mime: &str) -> &str
    ensures { result.now ≡ labels.mime_group mime.now }
{
    let group = before_slash(mime);
    if group.is_empty() { UNKNOWN } else { group }
}

/// What stands before the first `/`, or all of the text where there is none.
fn before_slash(text: &str) -> &str
    ensures { result.now ≡ labels.before_slash text.now }
{
    match text.split_once('/') {
        Some((front, _)) => front,
        None => text,
    }
}
