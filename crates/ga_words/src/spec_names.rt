ghost use Rattle.std.specs.Prelude.{◌≡◌, option_map};
ghost use Rattle.std.specs.Map.{lookup};
ghost use Rattle.std.specs.Str.{bytes_eq};
ghost use Rattle.ga_words.specs.Options.{date_specs, hour_specs};
ghost use Rattle.ga_words.specs.Steps.Settings.{with_date_spec, with_hour_spec};

use crate::table_row::{TableRow, lookup};
use ga_base::{DateSpec, HourSpec};

/// How finely VISITORS tells days, by its names.
const DATE_SPECS: [TableRow<DateSpec>; 3] = [
    TableRow("date", DateSpec::Date),
    TableRow("hr", DateSpec::Hour),
    TableRow("min", DateSpec::Minute),
];

/// How finely VISIT_TIMES tells the time of the day, by its names.
const HOUR_SPECS: [TableRow<HourSpec>; 2] = [
    TableRow("hr", HourSpec::Hour),
    TableRow("min", HourSpec::Tens),
];

/// What a value of `--date-spec` names, byte for byte.
pub(crate) fn date_spec_named(name: &str) -> Option<DateSpec>
    ensures { option_map with_date_spec result ≡ lookup (λ word. bytes_eq word name.now) date_specs }
{
    lookup(&DATE_SPECS, name)
}

/// What a value of `--hour-spec` names, byte for byte.
pub(crate) fn hour_spec_named(name: &str) -> Option<HourSpec>
    ensures { option_map with_hour_spec result ≡ lookup (λ word. bytes_eq word name.now) hour_specs }
{
    lookup(&HOUR_SPECS, name)
}
