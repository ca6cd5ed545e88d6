ghost use Rattle.std.specs.Prelude.{◌≡◌};
ghost use Rattle.ga_dates.specs.Steps.Reading.{with_number, with_part};

use crate::{Item, Part};

/// The parts of a date and of a time of day: contracts name by them what a text spells. In the code a part that isn't given
/// is 0.
#[derive(Clone, Copy, Debug)]
pub struct DateParts {
    /// The day of the month.
    pub day: u16,
    /// The month, from 1.
    pub month: u16,
    /// The year.
    pub year: u16,
    /// The hour.
    pub hour: u16,
    /// The minute.
    pub minute: u16,
    /// The second.
    pub second: u16,
}

impl DateParts {
    /// No part is given.
    pub(crate) const NONE: DateParts = DateParts {
        day: 0,
        month: 0,
        year: 0,
        hour: 0,
        minute: 0,
        second: 0,
    };

    /// Sets the part that the item gives; a literal byte gives none.
    pub(crate) fn set_for(&mut self, item: Item, number: u16)
        ensures { self.new ≡ with_number item number self.old }
    {
        match item.part() {
            Some(part) => self.set(part, number),
            None => {}
        }
    }

    fn set(&mut self, part: Part, number: u16)
        ensures { self.new ≡ with_part part number self.old }
    {
        match part {
            Part::Day => self.day = number,
            Part::Month => self.month = number,
            Part::Year => self.year = number,
            Part::Hour => self.hour = number,
            Part::Minute => self.minute = number,
            Part::Second => self.second = number,
        }
    }
}
