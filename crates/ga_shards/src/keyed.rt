ghost use Rattle.std.specs.Prelude.{◌≡◌, ◌==◌};
ghost use Rattle.ga_shards.specs.Keys.{hash_of_nothing, keyed_with};

use std::hash::{BuildHasher, DefaultHasher, Hasher};

/// Makes hashers that begin with two words, so that who doesn't know them can't choose texts that collide. What is counted
/// doesn't depend on them: no contract of a dictionary or a numbering speaks of hashes.
#[derive(Clone, Copy)]
pub struct Keyed {
    /// A hasher that has read the two words.
    begun: DefaultHasher,
}

impl Keyed {
    /// Hashers that begin with these words.
    pub fn new(first: u64, second: u64) -> Keyed
        ensures { result ≡ keyed_with first second }
    {
        let mut begun = DefaultHasher::new();
        begun.write_u64(first);
        begun.write_u64(second);
        Keyed { begun }
    }

    /// Whether these hashers make of nothing what others make of it, as they do where their words are the same.
    pub fn begins_as(&self, other: &Keyed) -> bool
        ensures { result ≡ (hash_of_nothing self.now == hash_of_nothing other.now) }
    {
        self.begun.finish() == other.begun.finish()
    }
}

impl BuildHasher for Keyed {
    type Hasher = DefaultHasher;

    ghost build_hasher = { λ k. k.begun };

    fn build_hasher(&self) -> DefaultHasher {
        self.begun
    }
}
