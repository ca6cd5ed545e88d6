//! Laws of the definitions: functions that do no work, each for the law that its contract states.

ghost use Rattle.std.specs.Prelude.{◌≡◌, List, flat_map};
ghost use Rattle.ga_agents.specs.Classes.{AreNamed};
ghost use Rattle.ga_base.specs.declared.key.Key.{Key};
ghost use Rattle.ga_base.specs.declared.record.Record.{Record};
ghost use Rattle.ga_panels.specs.Facts.{CanHaveKeys, Facts};
ghost use Rattle.ga_base.specs.declared.panel.TheConstants.Panel.{ALL as ALL_PANELS};
ghost use Rattle.ga_panels.specs.Form.{AreKeysOfDay};
ghost use Rattle.ga_panels.specs.Table.{AreKeysOf, keys_in, table_keys};
ghost use Rattle.ga_panels.specs.declared.setup.PanelSetup.{PanelSetup};

use ga_agents::laws::{names, one_class};
use ga_requests::laws::{one_keyphrase, one_site};

/// A record has one list of keys.
pub fn one_list_of_keys()
    ensures { (setup : PanelSetup) (rec : Record) (one two : List Key) →
        AreKeysOf setup rec one → AreKeysOf setup rec two → one ≡ two }
{
    one_class();
    one_site();
    one_keyphrase();
}

/// There is no record without a list of keys.
pub fn some_list_of_keys()
    ensures { (setup : PanelSetup) (rec : Record) → ((keys : List Key) → AreKeysOf setup rec keys → ⊥) → ⊥ }
{
    one_class();
}

/// The keys of a record are keys of its day: they rise, each has its panel's form, the day's own is among them, and no
/// layer has two. The rules are those of a browsers file, in which each has a token and a category.
pub fn keys_are_of_the_day()
    ensures { (setup : PanelSetup) (rec : Record) (keys : List Key) → AreNamed setup.rules →
        CanHaveKeys rec → AreKeysOf setup rec keys → AreKeysOfDay rec.date keys }
{
    names();
}

/// The keys of a record are those that it has in each panel, one panel after another.
pub fn keys_are_those_of_each_panel()
    ensures { (setup : PanelSetup) (rec : Record) (facts : Facts) →
        flat_map (keys_in setup rec facts) ALL_PANELS ≡ table_keys setup rec facts }
{}
