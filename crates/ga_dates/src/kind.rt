ghost use Rattle.std.specs.Prelude.{◌≡◌};
ghost use Rattle.ga_dates.specs.Items.{needed_parts};

use crate::Part;

/// Whether a format is of dates or of times of day: contracts say by it which directives and which parts are meant.
#[derive(Clone, Copy, Debug)]
pub enum Kind {
    /// A date format gives day, month and year.
    Date,
    /// A time format gives hour and minute, and perhaps the second.
    Time,
}

impl Kind {
    /// The parts that every format of the kind has to give.
    pub(crate) fn needed_parts(self) -> &'static [Part]
        ensures { result.now ≡ needed_parts self }
    {
        match self {
            Kind::Date => &[Part::Day, Part::Month, Part::Year],
            Kind::Time => &[Part::Hour, Part::Minute],
        }
    }
}
