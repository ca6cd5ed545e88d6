ghost use Rattle.std.specs.Prelude.{◌≡◌};
ghost use Rattle.ga_counters.specs.Counts.{raised};
ghost use Rattle.ga_disk.specs.Disk.{asks, calls_once, fails_once};

/// The counts of a form of `Disk`. Each stands still at `2^64 - 1`.
#[derive(Clone, Copy, Debug, PartialEq, Eq)]
pub struct DiskCounts {
    /// The calls.
    pub calls: u64,
    /// The calls that failed.
    pub faults: u64,
    /// The calls of `open`.
    pub opened: u64,
    /// The calls that failed for want of the form's own memory.
    pub starved: u64,
}

impl DiskCounts {
    /// All counts at 0.
    pub const ZERO: DiskCounts = DiskCounts {
        calls: 0,
        faults: 0,
        opened: 0,
        starved: 0,
    };

    /// Counts a call that succeeds.
    pub fn call(&mut self)
        ensures { self.new ≡ calls_once self.old }
    {
        self.calls = self.calls.saturating_add(1);
    }

    /// Counts a call that fails.
    pub fn fail(&mut self)
        ensures { self.new ≡ fails_once self.old.starved self.old }
    {
        self.calls = self.calls.saturating_add(1);
        self.faults = self.faults.saturating_add(1);
    }

    /// Counts a call that fails for want of the form's own memory.
    pub fn starve(&mut self)
        ensures { self.new ≡ fails_once (raised self.old.starved 1) self.old }
    {
        self.fail();
        self.starved = self.starved.saturating_add(1);
    }

    /// Counts an `open`.
    pub fn ask(&mut self)
        ensures { self.new ≡ asks self.old }
    {
        self.opened = self.opened.saturating_add(1);
    }
}
