ghost use Rattle.std.specs.Prelude.{◌≡◌};
ghost use Rattle.ga_dates.specs.Items.{part_of, gives};
ghost use Rattle.ga_dates.specs.Steps.Reading.{width_of};

/// A part of a date or of a time of day.
#[derive(Clone, Copy, Debug, PartialEq, Eq)]
pub enum Part {
    /// The day of the month, 1 to 31.
    Day,
    /// The month, 1 to 12.
    Month,
    /// The year.
    Year,
    /// The hour, 0 to 23.
    Hour,
    /// The minute, 0 to 59.
    Minute,
    /// The second, 0 to 60.
    Second,
}

/// One item of a date or time format, after GoAccess's `--date-format` and `--time-format`.
#[derive(Clone, Copy, Debug)]
pub enum Item {
    /// This byte has to come next.
    Literal(u8),
    /// `%d`: the day in two digits.
    Day,
    /// `%e`: the day in two digits, or a space and a digit.
    SpacedDay,
    /// `%m`: the month in two digits.
    Month,
    /// `%b`: the month by its English name, cut to three letters, in any letter case.
    MonthName,
    /// `%Y`: the year in four digits.
    Year,
    /// `%y`: the year in two digits, 1969 to 2068.
    ShortYear,
    /// `%H`: the hour in two digits.
    Hour,
    /// `%M`: the minute in two digits.
    Minute,
    /// `%S`: the second in two digits, where 60 is a leap second.
    Second,
}

impl Item {
    /// The part that the item gives; a literal byte gives none.
    pub(crate) fn part(self) -> Option<Part>
        ensures { result ≡ part_of self }
    {
        match self {
            Item::Literal(_) => None,
            Item::Day | Item::SpacedDay => Some(Part::Day),
            Item::Month | Item::MonthName => Some(Part::Month),
            Item::Year | Item::ShortYear => Some(Part::Year),
            Item::Hour => Some(Part::Hour),
            Item::Minute => Some(Part::Minute),
            Item::Second => Some(Part::Second),
        }
    }

    /// Whether the item gives the part.
    pub(crate) fn gives(self, part: Part) -> bool
        ensures { result ≡ gives part self }
    {
        self.part() == Some(part)
    }

    /// How many bytes the item's spellings have.
    pub(crate) fn width(self) -> usize
        ensures { result ≡ width_of self }
    {
        match self {
            Item::Literal(_) => 1,
            Item::MonthName => 3,
            Item::Year => 4,
            _ => 2,
        }
    }
}
