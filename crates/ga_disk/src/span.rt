ghost use Rattle.std.specs.Prelude.{◌≡◌};
ghost use Rattle.ga_disk.specs.SideState.{is_within};

/// Places from `start` on, and before `end`.
#[derive(Clone, Copy, Debug, PartialEq, Eq)]
pub struct Span {
    pub start: usize,
    pub end: usize,
}

impl Span {
    /// Whether a place is one of them.
    pub fn holds(&self, place: usize) -> bool
        ensures { result ≡ is_within place self.now }
    {
        self.start <= place && place < self.end
    }
}
