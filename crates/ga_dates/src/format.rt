ghost use Rattle.std.specs.Prelude.{◌≡◌, ℕ, List, IfOk, IfErr, Ok, Err};
ghost use Rattle.ga_dates.specs.declared.item.Item.{Item as ItemSpec};
ghost use Rattle.ga_dates.specs.declared.kind.Kind.TheVariants.{Date as DateKind, Time as TimeKind};
ghost use Rattle.ga_dates.specs.Grammar.{IsFormat, IsFaultAt, IsFormatFault, UnlessNoMemory};

use crate::compile::compile;
use crate::{Item, Kind};
use ga_base::{FormatFault, Text};
use std::alloc::Global;
use std::marker::Model;

/// The date format where none is given (own profile), as in `29/Feb/2024`.
pub const DEFAULT_DATE: &str = "%d/%b/%Y";

/// The time format where none is given (own profile), as in `23:50:00`.
pub const DEFAULT_TIME: &str = "%H:%M:%S";

/// What `compile_date` makes of a text such as `%d/%b/%Y`: items that give the day, the month and the year, each once.
/// Contracts see the list of the items.
#[derive(Debug, Drop)]
pub struct DateFormat {
    items: Vec<Item>,
}

impl Model for DateFormat {
    ghost use Rattle.std.specs.Prelude.{List};
    ghost use Rattle.ga_dates.specs.declared.item.Item.{Item};
    ghost use Rattle.ga_dates.specs.declared.kind.Kind.TheVariants.{Date};
    ghost use Rattle.ga_dates.specs.Items.{IsComplete};

    ghost Value = { List Item };

    ghost view = { λ f. f.items.items };

    ghost invariant = { λ f. IsComplete Date f.items.items };
}

/// What `compile_time` makes of a text such as `%H:%M:%S`: items that give the hour and the minute, and perhaps the
/// second, each once. Contracts see the list of the items.
#[derive(Debug, Drop)]
pub struct TimeFormat {
    items: Vec<Item>,
}

impl Model for TimeFormat {
    ghost use Rattle.std.specs.Prelude.{List};
    ghost use Rattle.ga_dates.specs.declared.item.Item.{Item};
    ghost use Rattle.ga_dates.specs.declared.kind.Kind.TheVariants.{Time};
    ghost use Rattle.ga_dates.specs.Items.{IsComplete};

    ghost Value = { List Item };

    ghost view = { λ f. f.items.items };

    ghost invariant = { λ f. IsComplete Time f.items.items };
}

impl DateFormat {
    ghost use Rattle.ga_dates.specs.declared.kind.Kind.TheVariants.{Date};
    ghost use Rattle.std.specs.Prelude.{◌≡◌};
    ghost use Rattle.ga_dates.specs.Items.{IsComplete};

    /// Lends the items, which give the day, the month and the year once each.
    pub fn items(&self) -> &[Item]
        ensures value { result.now ≡ self.now }
        ensures complete { IsComplete Date self.now }
    {
        &self.items
    }
}

impl TimeFormat {
    ghost use Rattle.ga_dates.specs.declared.kind.Kind.TheVariants.{Time};
    ghost use Rattle.std.specs.Prelude.{◌≡◌};
    ghost use Rattle.ga_dates.specs.Items.{IsComplete};

    /// Lends the items, which give the hour and the minute once each, and no part twice.
    pub fn items(&self) -> &[Item]
        ensures value { result.now ≡ self.now }
        ensures complete { IsComplete Time self.now }
    {
        &self.items
    }
}

/// The date format of a text such as `%d/%b/%Y`, by GoAccess's `--date-format`. Its directives are `%d` and `%e` for the day,
/// `%m` and `%b` for the month, `%Y` and `%y` for the year, `%F` for `%Y-%m-%d`, `%D` for `%m/%d/%y` and `%%` for a percent
/// sign; any other byte represents itself.
///
/// `BadDirective` has the place of the first `%` that begins none of these, or one that gives a part again, or where there is
/// none and the day, the month or the year isn't given, the text's length.
pub fn compile_date(alloc: Global, text: &Text) -> Result<DateFormat, FormatFault>
    // What is answered is the format that the text is, or its fault, or lack of memory;
    ensures format { IfOk result (IsFormat DateKind text.now) }
    ensures fault { IfErr result (IsFormatFault DateKind text.now) }

    // and each format and each fault is answered, unless memory runs out.
    ensures only_format { (items : List ItemSpec) → IsFormat DateKind text.now items → UnlessNoMemory result (Ok items) }
    ensures only_fault { (at : ℕ) → IsFaultAt DateKind text.now at → UnlessNoMemory result (Err (FormatFault.BadDirective at)) }
{
    Ok(DateFormat {
        items: compile(alloc, Kind::Date, text.bytes())?,
    })
}

/// The time format of a text such as `%H:%M:%S`, by GoAccess's `--time-format`. Its directives are `%H` for the hour, `%M` for
/// the minute, `%S` for the second, `%T` for `%H:%M:%S`, `%R` for `%H:%M` and `%%` for a percent sign; any other byte stands
/// for itself.
///
/// `BadDirective` has the place of the first `%` that begins none of these, or one that gives a part again, or where there is
/// none and the hour or the minute isn't given, the text's length.
pub fn compile_time(alloc: Global, text: &Text) -> Result<TimeFormat, FormatFault>
    // What is answered is the format that the text is, or its fault, or lack of memory;
    ensures format { IfOk result (IsFormat TimeKind text.now) }
    ensures fault { IfErr result (IsFormatFault TimeKind text.now) }

    // and each format and each fault is answered, unless memory runs out.
    ensures only_format { (items : List ItemSpec) → IsFormat TimeKind text.now items → UnlessNoMemory result (Ok items) }
    ensures only_fault { (at : ℕ) → IsFaultAt TimeKind text.now at → UnlessNoMemory result (Err (FormatFault.BadDirective at)) }
{
    Ok(TimeFormat {
        items: compile(alloc, Kind::Time, text.bytes())?,
    })
}
