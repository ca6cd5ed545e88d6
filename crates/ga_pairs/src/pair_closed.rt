ghost use Rattle.std.specs.Prelude.{◌≡◌, ◌<◌, length, slice_index};
ghost use Rattle.ga_pairs.specs.Pairs.{used};

use atomic_table::Closed;
use std::alloc::Global;
use std::marker::Model;

/// The pairs of a set that no thread shares any more. Contracts see it as the row of its words: 0, or the word of a pair.
pub struct PairClosed {
    /// The words of the table.
    pub(crate) closed: Closed<(), Global>,
    /// How many cells there are.
    pub(crate) cells: u32,
    /// How many of them are not 0.
    pub(crate) pairs: u64,
}

impl Model for PairClosed {
    ghost use Rattle.std.specs.Prelude.{◌≡◌, ℕ, List};
    ghost use Rattle.std.specs.Mem.Slots.{slots_items, slots_len, IsFull};
    ghost use Rattle.ga_pairs.specs.Pairs.{used};

    ghost Value = { List ℕ };

    ghost view = { λ c. slots_items c.closed.words };

    ghost invariant = { λ c. IsFull c.closed.words × (slots_len c.closed.words ≡ c.cells) × (slots_len c.closed.slots ≡ 0) × (c.pairs ≡ used (slots_items c.closed.words)) };
}

impl PairClosed {
    /// The number of different pairs.
    pub fn len(&self) -> u64
        ensures { result ≡ used self.now }
    {
        self.pairs
    }

    /// The number of cells.
    pub fn cells(&self) -> u32
        ensures { result ≡ length self.now }
    {
        self.cells
    }

    /// The word of a cell: 0, or that of a pair.
    pub fn word(&self, at: u32) -> u64
        requires { at < length self.now }
        ensures { result ≡ slice_index self.now at }
    {
        self.closed.word(at as usize)
    }
}

impl Drop for PairClosed {
    fn drop(self) {
        let PairClosed {
            closed,
            cells: _,
            pairs: _,
        } = self;
        closed.free();
    }
}
