ghost use Rattle.std.specs.Prelude.{◌≡◌, ◌↔◌, ◌<◌, IsTrue};
ghost use Rattle.ga_agents.specs.Steps.{HasAllPairs, IsSetOf, slot_of};

/// How many slots a set has.
const SLOTS: usize = 256;

/// What the first byte of a pair counts in its slot, so that pairs of the usual letters seldom share one.
const WEIGHT: usize = 31;

/// Which pairs of neighbouring bytes a text has, each noted at its slot. Pairs may share a slot, so a set can seem to have a
/// pair that the text lacks, but never lacks one that the text has.
#[derive(Drop)]
pub(crate) struct PairSet {
    /// Whether the text has a pair with the slot of each number.
    flags: [bool; SLOTS],
}

impl PairSet {
    /// The pairs of a text, each of them, and no other but for the slots that they share.
    pub(crate) fn of(text: &str) -> PairSet
        ensures { IsSetOf result text.now }
    {
        let bytes = text.as_bytes();
        let mut flags = [false; SLOTS];
        for i in 1..bytes.len() {
            flags[slot(bytes[i - 1], bytes[i])] = true;
        }
        PairSet { flags }
    }

    /// Whether each pair of a token is in the set.
    pub(crate) fn has_all(&self, token: &str) -> bool
        ensures { IsTrue result ↔ HasAllPairs self.now token.now }
    {
        let bytes = token.as_bytes();
        for i in 1..bytes.len() {
            if !self.flags[slot(bytes[i - 1], bytes[i])] {
                return false;
            }
        }
        true
    }
}

/// The slot of a pair of bytes.
fn slot(first: u8, second: u8) -> usize
    ensures slot { result ≡ slot_of first second }
    ensures within { result < SLOTS }
{
    (first as usize * WEIGHT + second as usize) % SLOTS
}
