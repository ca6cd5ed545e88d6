ghost use Rattle.std.specs.Prelude.{IfOk};
ghost use Rattle.ga_panels.specs.Facts.{CanHaveKeys};
ghost use Rattle.ga_panels.specs.Form.{AreKeysOfDay};
ghost use Rattle.ga_panels.specs.Table.{AreKeysOf};

use crate::{PanelSetup, RecordFacts};
use ga_base::{Keys, NoMemory, Record};
use std::alloc::Global;

/// The keys that a record is counted under, in rising order: those of its entries in the panels that are enabled, of their
/// groups, and of its day.
pub fn keys_of(alloc: Global, setup: &PanelSetup, rec: &Record) -> Result<Keys, NoMemory>
    requires { CanHaveKeys rec.now }
    ensures exact { IfOk result (AreKeysOf setup.now rec.now) }
    ensures form { IfOk result (AreKeysOfDay rec.now.date) }
{
    RecordFacts::of(alloc, setup, rec.as_ref())?.keys(alloc)
}
