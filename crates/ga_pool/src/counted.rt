ghost use Rattle.std.specs.Prelude.{◌≡◌, IfOk};
ghost use Rattle.ga_pool.specs.Stands.{StandsFor};
ghost use Rattle.ga_summary.specs.SummaryRows.{SummaryValue};
ghost use Rattle.ga_summary.specs.Sound.{IsSummary};

use crate::counted_rows::{rows_of, sorted_rows};
use crate::key_names::names_of_keys;
use ga_base::{Key, NoMemory, Totals, Visitor};
use ga_counts::CountClosed;
use ga_pairs::PairClosed;
use ga_shards::Numbering;
use ga_summary::{PartRows, Summary, SummaryParts};
use std::alloc::Global;

/// What was counted of a batch, in tables.
#[derive(Drop)]
pub struct Counted {
    /// The totals over its lines.
    pub totals: Totals,
    /// The number of each key that a line has.
    pub keys: Numbering<Key>,
    /// The number of each visitor of a key.
    pub visitors: Numbering<Visitor>,
    /// For each key its hits, bytes and micros, as three sums, and its greatest time, as a maximum.
    pub counts: CountClosed,
    /// The pairs of a key and a visitor of it, by their numbers.
    pub pairs: PairClosed,
}

impl Counted {
    /// The summary for which the tables stand. It takes the time of sorting the keys, and the names of each.
    pub fn summary(&self, alloc: Global) -> Result<Summary, NoMemory>
        requires { (s : SummaryValue) × IsSummary s × StandsFor self.now s }
        ensures { IfOk result (λ summary. (s : SummaryValue) → IsSummary s → StandsFor self.now s → summary ≡ s) }
    {
        let keys = self.keys.len();
        // How many visitors there are fits 32 bits, which the proof needs: the number itself isn't used.
        let _visitors = self.visitors.len();
        // A table has fewer words than this.
        if keys > u32::MAX / 3 {
            return Err(NoMemory);
        }
        let names = names_of_keys(alloc, keys, &self.visitors, &self.pairs)?;
        let rows = sorted_rows(rows_of(alloc, self, names)?);
        Summary::of_parts(SummaryParts {
            totals: self.totals,
            rows: PartRows::from(rows),
        })
    }
}
