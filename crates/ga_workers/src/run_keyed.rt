ghost use Rattle.std.specs.Prelude.{◌≡◌};
ghost use Rattle.ga_workers.specs.KeyedBy.{keyed_from};

use ga_base::Totals;
use ga_shards::Keyed;
use std::hash::{DefaultHasher, Hasher};

/// How the maps of a run hash: by a digest of all of the batch that it counts first, of the size that its log answered, and of
/// the totals that it starts from. So texts that are chosen in advance to collide need the first batch to be known, a mebibyte
/// of a larger log. It holds against whoever adds lines to a log that others write too. It doesn't hold against whoever writes
/// the first mebibyte, or can read it: the size can be guessed, and the totals are zero without a database.
pub fn keyed_by(batch: &[u8], size: u64, start: &Totals) -> Keyed
    ensures { result ≡ keyed_from batch.now size start.now }
{
    let mut hasher = DefaultHasher::new();
    hasher.write(batch);
    hasher.write_u64(size);
    hasher.write_u64(start.lines);
    hasher.write_u64(start.failed);
    hasher.write_u64(start.excluded);
    hasher.write_u64(start.hits);
    hasher.write_u64(start.bytes);
    hasher.write_u64(start.micros);
    let first = hasher.finish();
    hasher.write_u64(first);
    Keyed::new(first, hasher.finish())
}
