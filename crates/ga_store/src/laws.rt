//! What holds of any two sides. Each function's contract is the law.

ghost use Rattle.std.specs.Prelude.{◌≡◌, ◌≤◌};
ghost use Rattle.ga_base.specs.declared.counts.TheConstants.{LIMIT};
ghost use Rattle.ga_disk.specs.Sides.{Sides};
ghost use Rattle.ga_store.specs.Database.{DbOf, Reading};
ghost use Rattle.ga_store.specs.declared.db.Db.{Db};

use ga_codec::laws::{one_delta_reading, one_reading};

/// Two sides say one thing: one database, or damage at one place.
pub fn one_database()
    ensures { (sides : Sides) (x y : Reading) → DbOf sides x → DbOf sides y → x ≡ y }
{
    one_reading();
    one_delta_reading();
}

/// There are no two sides that say nothing.
pub fn some_database()
    ensures { (sides : Sides) → ((reading : Reading) → DbOf sides reading → ⊥) → ⊥ }
{}

/// No database has a generation above `LIMIT`, however it was made.
pub fn numbered()
    ensures { (db : Db) → db.generation ≤ LIMIT }
{}
