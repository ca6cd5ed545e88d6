/// The byte that ends a line.
pub const LINE_FEED: u8 = 10;

/// By how many of its first bytes a log is known again, at most (own profile).
pub const FRONT: u64 = 4096;

/// The most bytes of a batch of log lines (own profile).
pub const MAX_BATCH: usize = 16_777_216;

/// The most workers of a run (own profile).
pub const MAX_JOBS: u32 = 16;

/// The most lines that a worker takes at once (own profile).
pub const MAX_CHUNK: u32 = 32_768;
