ghost use Rattle.std.specs.Prelude.{◌≡◌};
ghost use Rattle.ga_shards.specs.Keys.{text_hash};

use std::hash::{FoldHasher, Hasher};

/// A cheap hash of a text, by std's `FoldHasher`, whose seed is fixed. It is for what only tells where to look first: who makes
/// texts that collide under it takes away what it saves, and nothing else.
pub fn text_hash(text: &[u8]) -> u64
    ensures { result ≡ text_hash text.now }
{
    let mut hasher = FoldHasher::default();
    hasher.write(text);
    hasher.finish()
}
