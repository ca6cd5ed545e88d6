ghost use Rattle.std.specs.Prelude.{◌≡◌, ◌+◌, ◌*◌, ℕ, List, IfSome, IsSomeAnd, Some};
ghost use Rattle.ga_dates.specs.declared.date_parts.DateParts.{DateParts as PartsSpec};
ghost use Rattle.ga_dates.specs.Items.{AreOnce};
ghost use Rattle.ga_dates.specs.Calendar.{IsDay, number_of_day};
ghost use Rattle.ga_dates.specs.Spelling.{SpellsDate, SpellsTime, SpellsBoth};
ghost use Rattle.ga_dates.specs.Steps.Reading.{BeginsWith, AreSameParts};

use crate::calendar::is_day;
use crate::number::number_in;
use crate::{DateFormat, DateParts, Item, TimeFormat};

/// The day that the whole text spells by the format, as `10000 * year + 100 * month + day`. There is none where the text
/// isn't spelt by the format, and where the Gregorian calendar hasn't the day or its year isn't 1000 to 9999. Takes no memory.
pub fn read_date(format: &DateFormat, text: &[u8]) -> Option<u32>
    ensures found { IfSome result (SpellsDate format.now text.now) }
    ensures only { (date : ℕ) → SpellsDate format.now text.now date → result ≡ Some date }
{
    let (parts, rest) = read_parts(format.items(), text)?;
    if rest.is_empty() {
        day_number(&parts)
    } else {
        None
    }
}

/// The minute of the day that the whole text spells by the format, `60 * hour + minute`. There is none where the text isn't
/// spelt by the format. Takes no memory.
pub fn read_time(format: &TimeFormat, text: &[u8]) -> Option<u32>
    ensures found { IfSome result (SpellsTime format.now text.now) }
    ensures only { (minute : ℕ) → SpellsTime format.now text.now minute → result ≡ Some minute }
{
    let (parts, rest) = read_parts(format.items(), text)?;
    if rest.is_empty() {
        Some(minute_number(&parts))
    } else {
        None
    }
}

/// The day and the minute of a text that is a date by the one format, directly followed by a time by the other, as
/// `read_date` and `read_time` answer them. Takes no memory.
pub fn read_both(date: &DateFormat, time: &TimeFormat, text: &[u8]) -> Option<(u32, u32)>
    ensures found { IfSome result (λ both. SpellsBoth date.now time.now text.now both.0 both.1) }
    ensures only { (day minute : ℕ) → SpellsBoth date.now time.now text.now day minute → result ≡ Some (day, minute) }
{
    let (parts, rest) = read_parts(date.items(), text)?;
    let day = day_number(&parts)?;
    let minute = read_time(time, rest)?;
    Some((day, minute))
}

fn minute_number(parts: &DateParts) -> u32
    ensures { result ≡ 60 * parts.now.hour + parts.now.minute }
{
    60 * u32::from(parts.hour) + u32::from(parts.minute)
}

fn day_number(parts: &DateParts) -> Option<u32>
    ensures found { IfSome result (λ n. IsDay parts.now.year parts.now.month parts.now.day × (n ≡ number_of_day parts.now.year parts.now.month parts.now.day)) }
    ensures only { IsDay parts.now.year parts.now.month parts.now.day → result ≡ Some (number_of_day parts.now.year parts.now.month parts.now.day) }
{
    if is_day(parts.year, parts.month, parts.day) {
        Some(10000 * u32::from(parts.year) + 100 * u32::from(parts.month) + u32::from(parts.day))
    } else {
        None
    }
}

fn read_parts<'a>(items: &[Item], text: &'a [u8]) -> Option<(DateParts, &'a [u8])>
    requires { AreOnce items.now }
    ensures found { IfSome result (λ r. BeginsWith items.now r.0 text.now r.1.now) }
    ensures only { (parts : PartsSpec) (rest : List ℕ) → BeginsWith items.now parts text.now rest → IsSomeAnd result (λ r. (r.1.now ≡ rest) × AreSameParts items.now r.0 parts) }
{
    let mut parts = DateParts::NONE;
    let mut rest = text;
    for item in items {
        let (piece, more) = rest.split_at_checked(item.width())?;
        let number = number_in(*item, piece)?;
        parts.set_for(*item, number);
        rest = more;
    }
    Some((parts, rest))
}
