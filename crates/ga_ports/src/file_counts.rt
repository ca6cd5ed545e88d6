ghost use Rattle.std.specs.Prelude.{◌≡◌};
ghost use Rattle.ga_counters.specs.Counts.{raised};
ghost use Rattle.ga_ports.specs.Files as files;
ghost use Rattle.ga_ports.specs.Files.{asks, calls_once, fails_once, gives, measures};

/// The counts of a form of `Files`. Each stands still at `2^64 - 1`.
#[derive(Clone, Copy, Debug, PartialEq, Eq)]
pub struct FileCounts {
    /// The calls.
    pub calls: u64,
    /// The calls that failed.
    pub faults: u64,
    /// The bytes handed out.
    pub given: u64,
    /// The sum of the sizes answered.
    pub sizes: u64,
    /// The calls of `open`.
    pub asked: u64,
    /// The short reads.
    pub shorts: u64,
    /// The place of the last short read.
    pub short_at: u64,
    /// The calls of `open` for a name that is told to be absent.
    pub absent: u64,
}

impl FileCounts {
    /// All counts at 0.
    pub const ZERO: FileCounts = FileCounts {
        calls: 0,
        faults: 0,
        given: 0,
        sizes: 0,
        asked: 0,
        shorts: 0,
        short_at: 0,
        absent: 0,
    };

    /// Counts a call that succeeds.
    pub fn call(&mut self)
        ensures { self.new ≡ calls_once self.old }
    {
        self.calls = self.calls.saturating_add(1);
    }

    /// Counts a call that fails.
    pub fn fail(&mut self)
        ensures { self.new ≡ fails_once self.old }
    {
        self.calls = self.calls.saturating_add(1);
        self.faults = self.faults.saturating_add(1);
    }

    /// Counts an `open`, and whether its name is known to be absent.
    pub fn ask(&mut self, absent: bool)
        ensures { self.new ≡ asks absent self.old }
    {
        self.asked = self.asked.saturating_add(1);
        if absent {
            self.absent = self.absent.saturating_add(1);
        }
    }

    /// Counts a size that was answered.
    pub fn measure(&mut self, size: u64)
        ensures { self.new ≡ measures size self.old }
    {
        self.sizes = self.sizes.saturating_add(size);
    }

    /// Counts the bytes that a read gave from a place, and whether it was a short one.
    pub fn give(&mut self, short: bool, at: u64, count: usize)
        ensures { self.new ≡ gives short at count self.old }
    {
        self.given = self.given.saturating_add(count as u64);
        if short {
            self.shorts = self.shorts.saturating_add(1);
            self.short_at = at;
        }
    }
}

/// Whether a read gave nothing at a place below the size last answered, though there was room.
pub fn is_short(measured: Option<u64>, at: u64, room: usize, count: usize) -> bool
    ensures { result ≡ files.is_short measured at room count }
{
    match measured {
        Some(size) => at < size && room > 0 && count == 0,
        None => false,
    }
}
