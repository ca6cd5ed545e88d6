ghost use Rattle.std.specs.Prelude.{◌≡◌};
ghost use Rattle.ga_workers.specs.Workers.{batch_limit};

/// How many bytes a batch has for each worker, at most (own profile).
pub const JOB_BATCH: u64 = 1_048_576;

/// How batches are counted: nothing that is counted depends on it.
#[derive(Clone, Copy, Debug, PartialEq, Eq)]
pub struct Workers {
    /// The number of workers, 1 to 16.
    pub jobs: u32,
    /// The most lines of a piece that one of them takes, 1 to 32768.
    pub chunk: u32,
}

impl Workers {
    /// How many bytes a batch of these workers has at most: `JOB_BATCH` for each.
    pub fn batch_limit(self) -> u64
        ensures { result ≡ batch_limit self }
    {
        u64::from(self.jobs) * JOB_BATCH
    }
}
