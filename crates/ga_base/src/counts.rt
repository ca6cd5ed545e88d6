ghost use Rattle.std.specs.Prelude.{◌≡◌};
ghost use Rattle.ga_base.specs.Totals.{LinesAdd, TotalsFit, totals_plus};

/// The greatest value of a counter, `2^62 - 1` (own profile).
pub const LIMIT: u64 = 4_611_686_018_427_387_903;

/// The greatest size in bytes and the greatest time in microseconds of one line, `10^18` (own profile).
pub const BIG: u64 = 1_000_000_000_000_000_000;

/// What is summed under one key.
#[derive(Clone, Copy, Debug, PartialEq, Eq)]
pub struct Sums {
    /// The number of lines.
    pub hits: u64,
    /// The sum of their sizes in bytes.
    pub bytes: u64,
    /// The sum of their times in microseconds.
    pub micros: u64,
    /// The greatest of their times.
    pub max_micros: u64,
}

/// What is counted over all lines. Lines are valid, failed or excluded.
#[derive(Clone, Copy, Debug, PartialEq, Eq)]
pub struct Totals {
    /// The number of lines.
    pub lines: u64,
    /// Those that failed.
    pub failed: u64,
    /// Those that were excluded.
    pub excluded: u64,
    /// Those that were counted.
    pub hits: u64,
    /// The sum of the counted lines' sizes in bytes.
    pub bytes: u64,
    /// The sum of the counted lines' times in microseconds.
    pub micros: u64,
}

impl Totals {
    /// The totals of no lines.
    pub const ZERO: Totals = Totals {
        lines: 0,
        failed: 0,
        excluded: 0,
        hits: 0,
        bytes: 0,
        micros: 0,
    };

    /// The totals of these lines and of `more`, each within its limit. The sum may pass a limit.
    pub fn plus(&self, more: &Totals) -> Totals
        requires fit { TotalsFit self.now × TotalsFit more.now }
        requires lines { LinesAdd self.now × LinesAdd more.now }
        ensures value { result ≡ totals_plus self.now more.now }
        ensures lines { LinesAdd result }
    {
        Totals {
            lines: self.lines + more.lines,
            failed: self.failed + more.failed,
            excluded: self.excluded + more.excluded,
            hits: self.hits + more.hits,
            bytes: self.bytes + more.bytes,
            micros: self.micros + more.micros,
        }
    }
}

/// What a summary says of one key.
#[derive(Clone, Copy, Debug, PartialEq, Eq)]
pub struct Amounts {
    /// The number of lines.
    pub hits: u64,
    /// The sum of their sizes in bytes.
    pub bytes: u64,
    /// The sum of their times in microseconds.
    pub micros: u64,
    /// The greatest of their times.
    pub max_micros: u64,
    /// The number of different visitors.
    pub visitors: u64,
}

/// A counter that can be full.
#[derive(Clone, Copy, Debug, PartialEq, Eq)]
pub enum Counter {
    /// All lines.
    Lines,
    /// Bytes of counted lines.
    Bytes,
    /// Microseconds of counted lines.
    Micros,
    /// Generations of the database.
    Generations,
}
