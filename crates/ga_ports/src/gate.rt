use std::hint::spin_loop;
use std::marker::Sync;
use std::sync::atomic::{AtomicBool, Ordering};

/// How many times worker 0 looks whether worker 1 has passed, before it goes on.
const TURNS: u32 = 100_000_000;

/// What each worker of a batch passes once, right after it drew for the first time. Nothing that is counted depends on a gate:
/// by one that holds a worker a test sees that others are at work meanwhile.
pub trait Gate: Sync {
    /// Lets this worker through, now or after a while.
    fn pass(&self, worker: u32);
}

/// A gate at which nobody is held.
#[derive(Clone, Copy, Debug, PartialEq, Eq)]
pub struct NoGate;

impl NoGate {
    /// A gate at which nobody is held.
    pub fn new() -> NoGate {
        NoGate
    }
}

impl Gate for NoGate {
    fn pass(&self, _worker: u32) {}
}

/// A gate at which worker 0 waits for worker 1.
///
/// Worker 0 looks whether worker 1 has passed, at most 10^8 times, and goes on as soon as it sees that it has, or after the
/// last look. `met` says which: it is true only where worker 0 saw worker 1 pass. No other worker waits, and none but worker 1
/// is waited for. Another thread may change both fields at any time, so no clause can say what they hold: tests do.
#[derive(Drop)]
pub struct HoldGate {
    /// Worker 1 has passed.
    passed: AtomicBool,
    /// Worker 0 saw that it had.
    met: AtomicBool,
}

impl HoldGate {
    /// A gate that nobody has passed.
    pub fn new() -> HoldGate {
        HoldGate {
            passed: AtomicBool::new(false),
            met: AtomicBool::new(false),
        }
    }

    /// Whether worker 0 went on because worker 1 had passed. It stays false where worker 0 went on
    /// after its last look.
    pub fn met(&self) -> bool {
        self.met.load(Ordering::SeqCst)
    }

    /// Waits for worker 1, and notes whether it came.
    fn hold(&self) {
        for _ in 0..TURNS {
            if self.passed.load(Ordering::SeqCst) {
                self.met.store(true, Ordering::SeqCst);
                return;
            }
            spin_loop();
        }
    }
}

impl Gate for HoldGate {
    fn pass(&self, worker: u32) {
        match worker {
            0 => self.hold(),
            1 => self.passed.store(true, Ordering::SeqCst),
            _ => {}
        }
    }
}
