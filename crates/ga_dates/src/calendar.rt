ghost use Rattle.std.specs.Prelude.{◌↔◌, IsTrue};
ghost use Rattle.ga_dates.specs.Calendar.{IsDay};

use jiff_core::civil::Date;

/// The first and the last year of which days are read.
const YEARS: (u16, u16) = (1000, 9999);

/// No number of a month or of a day in a month is greater.
const MAX_DAY: u16 = 31;

/// Whether the Gregorian calendar has this day, and its year is 1000 to 9999.
pub(crate) fn is_day(year: u16, month: u16, day: u16) -> bool
    ensures { IsTrue result ↔ IsDay year month day }
{
    if year < YEARS.0 || year > YEARS.1 || month > MAX_DAY || day > MAX_DAY {
        return false;
    }
    Date::new(year as i16, month as i8, day as i8).is_ok()
}
