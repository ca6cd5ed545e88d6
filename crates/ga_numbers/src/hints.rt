use ga_base::NoMemory;
use std::alloc::Global;

/// This many slots there are once the first hint was set. More of them miss less often and cost more cache: with four times as
/// many, counting lines that all differ takes an eighth longer, and counting others no less.
const SLOTS: usize = 1 << 13;

/// A slot that nothing took.
const VACANT: Slot = Slot { tag: 0, number: 0 };

/// Where one item may stand.
#[derive(Clone, Copy)]
struct Slot {
    /// The upper half of its hash.
    tag: u32,
    /// Its number.
    number: u32,
}

/// Where items may stand, each by a hash. A hint is only where to look first: whoever takes one compares what is there.
/// Of two items with one slot the later has it.
#[derive(Drop)]
pub(crate) struct Hints {
    /// None before room was made, and then `SLOTS`.
    slots: Vec<Slot>,
}

impl Hints {
    /// No hints, which take no memory.
    pub(crate) fn new(alloc: Global) -> Hints {
        Hints {
            slots: Vec::new(alloc),
        }
    }

    /// The number that was set last for a hash like this one.
    pub(crate) fn get(&self, hash: u64) -> Option<u32> {
        let tag = tag_of(hash);
        match self.slots.get(slot_of(tag)) {
            Some(slot) if slot.tag == tag => Some(slot.number),
            _ => None,
        }
    }

    /// Makes the slots, where there is none.
    pub(crate) fn make_room(&mut self) -> Result<(), NoMemory> {
        if self.slots.is_empty() {
            self.slots = vec![in *self.slots.allocator(); VACANT; SLOTS]?;
        }
        Ok(())
    }

    /// Sets the number for a hash, where room was made.
    pub(crate) fn set(&mut self, hash: u64, number: u32) {
        let tag = tag_of(hash);
        if let Some(slot) = self.slots.get_mut(slot_of(tag)) {
            *slot = Slot { tag, number };
        }
    }
}

/// The upper half of a hash.
fn tag_of(hash: u64) -> u32 {
    (hash >> 32) as u32
}

/// The slot of a tag.
fn slot_of(tag: u32) -> usize {
    tag as usize % SLOTS
}
