ghost use Rattle.std.specs.Prelude.{◌≡◌};
ghost use Rattle.ga_keep.specs.RunDatabase.{IsBaseOf};
ghost use Rattle.ga_store.specs.Database.{empty_db};

use ga_base::Entries;
use ga_store::Db;
use ga_summary::Summary;
use std::alloc::Global;

/// What a run counts on from.
#[derive(Debug, Drop)]
pub struct Base {
    /// What was counted before.
    pub summary: Summary,
    /// How far each log was counted.
    pub entries: Entries,
}

impl Base {
    /// Nothing was counted before.
    pub fn empty(alloc: Global) -> Base
        ensures { IsBaseOf empty_db result }
    {
        let Db {
            summary,
            entries,
            ..
        } = Db::empty(alloc);
        Base { summary, entries }
    }
}
