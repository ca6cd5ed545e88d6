ghost use Rattle.std.specs.Prelude.{◌≡◌, ◌<◌, length, slice_index};

use atomic_table::Closed;
use std::alloc::Global;
use std::marker::Model;

/// The sums and maxima of a table that no thread shares any more.
pub struct CountClosed {
    /// The words of the table: the sums, the maxima, and one that was never used.
    pub(crate) closed: Closed<(), Global>,
    /// How many sums there are.
    pub(crate) words: u32,
    /// How many maxima there are.
    pub(crate) maxima: u32,
}

impl Model for CountClosed {
    ghost use Rattle.std.specs.Prelude.{◌≡◌, ◌+◌, take, drop, length};
    ghost use Rattle.std.specs.Mem.Slots.{slots_items, slots_len, IsFull};
    ghost use Rattle.ga_counts.specs.Counts.{ClosedSeen};

    ghost Value = { ClosedSeen };

    ghost view = { λ c. record { sums = take c.words (slots_items c.closed.words); maxima = take c.maxima (drop c.words (slots_items c.closed.words)) } };

    ghost invariant = { λ c. IsFull c.closed.words × (slots_len c.closed.words ≡ c.words + c.maxima + 1) × (slots_len c.closed.slots ≡ 0) };
}

impl CountClosed {
    /// How many sums there are.
    pub fn words(&self) -> u32
        ensures { result ≡ length self.now.sums }
    {
        self.words
    }

    /// The sum at a word: all that was added there.
    pub fn sum(&self, word: u32) -> u64
        requires { word < length self.now.sums }
        ensures { result ≡ slice_index self.now.sums word }
    {
        self.closed.word(word as usize)
    }

    /// The maximum at a place: the greatest number to which it was raised, or 0.
    pub fn maximum(&self, place: u32) -> u64
        requires { place < length self.now.maxima }
        ensures { result ≡ slice_index self.now.maxima place }
    {
        self.closed.word(self.words as usize + place as usize)
    }
}

impl Drop for CountClosed {
    fn drop(self) {
        let CountClosed {
            closed,
            words: _,
            maxima: _,
        } = self;
        closed.free();
    }
}
