ghost use Rattle.std.specs.Prelude.{◌≡◌};
ghost use Rattle.ga_resume.specs.Following.{keeps};

/// How a run follows its logs from the runs before it, by the entries that they left.
#[derive(Clone, Copy, Debug, PartialEq, Eq)]
pub enum Follow {
    /// Not at all: each log is read from its first byte to its size, and no entry changes.
    Whole,
    /// Each log is read from the offset of its entry to its size, and all of that is counted.
    ToEnd,
    /// The same, but what follows the last line feed is left for a later run.
    ToLastLine,
}

impl Follow {
    /// Whether what follows the last line feed of a log is counted, as a line.
    pub fn keeps(self) -> bool
        ensures { result ≡ keeps self }
    {
        self != Follow::ToLastLine
    }
}
