ghost use Rattle.std.specs.Prelude.{◌≡◌, ◌<◌, ◌≤◌, IfOk, List, length, map};
ghost use Rattle.ga_report.specs.Steps.Alone.{AreBuckets, IsPartition, is_alone, bucket_at, noted_bucket};
ghost use Rattle.ga_report.specs.Steps.RowPlaces.{AreIndexes};
ghost use Rattle.ga_report.specs.Source.{SourceRow};

use crate::row_index::{Partition, RowIndex};
use ga_base::NoMemory;
use std::alloc::Global;
use std::marker::Model;

/// At least this many buckets for each row of a panel, so that most rows have one of their own.
const BUCKETS_PER_ROW: usize = 8;

/// More buckets take more memory than there is.
const MOST_BUCKETS: usize = 1 << 62;

/// How many rows of a panel are in each bucket: none, one, or more. A row's bucket is of a cheap hash of its label, so rows of
/// one item are in one bucket, and a row that is alone in its bucket is an item by itself. A hash of the standard library
/// serves: who makes labels that collide under it only has them looked at by the keyed one of a dictionary. There is one bucket
/// at least.
#[derive(Drop)]
pub(crate) struct Buckets {
    /// How many rows are in a bucket, at its number; 2 says two or more.
    counts: Vec<u8>,
}

impl Model for Buckets {
    ghost use Rattle.std.specs.Prelude.{ℕ, ◌≤◌, List, length};

    ghost Value = { List ℕ };

    ghost view = { λ m. m.counts.items };

    ghost invariant = { λ m. 1 ≤ length m.counts.items };
}

impl Buckets {
    /// The buckets of the hashes of these row indexes.
    pub(crate) fn of(alloc: Global, indexes: &[RowIndex]) -> Result<Buckets, NoMemory>
        ensures { IfOk result (λ buckets. AreBuckets (map (λ row_index. row_index.hash) indexes.now) buckets) }
    {
        let mut counts = vec![in alloc; 0u8; buckets_for(indexes.len())]?;
        for row_index in indexes {
            note(&mut counts, row_index.hash);
        }
        Ok(Buckets { counts })
    }

    /// Row indexes, split by whether a row is alone in its bucket.
    pub(crate) fn partition(
        &self,
        alloc: Global,
        indexes: &[RowIndex],
    ) -> Result<Partition, NoMemory>
        ensures { IfOk result (λ partition. (rows those : List SourceRow) → AreIndexes rows indexes.now those
            → IsPartition rows (is_alone self.now) those partition.passing.items partition.others.items) }
    {
        let mut partition = Partition::new(alloc);
        for row_index in indexes {
            if self.is_alone(row_index.hash) {
                partition.passing.push(*row_index)?;
            } else {
                partition.others.push(*row_index)?;
            }
        }
        Ok(partition)
    }

    /// Whether a row whose label has this hash is alone in its bucket.
    fn is_alone(&self, hash: u64) -> bool
        ensures { result ≡ is_alone self.now hash }
    {
        self.counts[bucket_of(hash, self.counts.len())] == 1
    }
}

/// How many buckets there are for this many rows: a power of two, so that the low bits of a hash may be any of them.
fn buckets_for(rows: usize) -> usize
    ensures { 1 ≤ result }
{
    rows.saturating_mul(BUCKETS_PER_ROW)
        .max(1)
        .min(MOST_BUCKETS)
        .next_power_of_two()
}

/// The bucket of a hash, of this many buckets: its low bits.
fn bucket_of(hash: u64, many: usize) -> usize
    requires { 1 ≤ many }
    ensures value { result ≡ bucket_at many hash }
    ensures within { result < many }
{
    (hash & (many as u64 - 1)) as usize
}

/// Counts a hash more in its bucket.
fn note(counts: &mut [u8], hash: u64)
    requires { 1 ≤ length counts.old }
    ensures { counts.new ≡ noted_bucket counts.old (bucket_at (length counts.old) hash) }
{
    let bucket = bucket_of(hash, counts.len());
    counts[bucket] = counts[bucket].saturating_add(1).min(2);
}
