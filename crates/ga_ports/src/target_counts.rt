ghost use Rattle.std.specs.Prelude.{◌≡◌};
ghost use Rattle.ga_counters.specs.Counts.{raised};

/// The counts of one target of `Outs`. Each stands still at `2^64 - 1`.
#[derive(Clone, Copy, Debug, PartialEq, Eq)]
pub struct TargetCounts {
    /// The bytes taken.
    pub taken: u64,
    /// The calls that failed.
    pub faults: u64,
}

impl TargetCounts {
    /// Both counts at 0.
    pub const ZERO: TargetCounts = TargetCounts {
        taken: 0,
        faults: 0,
    };

    /// Counts a call that fails.
    pub fn fail(&mut self)
        ensures { self.new ≡ record self.old { faults = raised self.old.faults 1 } }
    {
        self.faults = self.faults.saturating_add(1);
    }

    /// Counts bytes that were taken.
    pub fn take(&mut self, count: usize)
        ensures { self.new ≡ record self.old { taken = raised self.old.taken count } }
    {
        self.taken = self.taken.saturating_add(count as u64);
    }
}
