//! Laws of date and time formats: functions that do nothing, each for the law that its contract states.

ghost use Rattle.std.specs.Prelude.{◌≡◌, ◌<◌, ℕ, List, Result};
ghost use Rattle.ga_base.specs.Days.{HasEightDigits};
ghost use Rattle.ga_base.specs.declared.formats.FormatFault.{FormatFault as FaultSpec};
ghost use Rattle.ga_dates.specs.declared.item.Item.{Item as ItemSpec};
ghost use Rattle.ga_dates.specs.declared.kind.Kind.{Kind as KindSpec};
ghost use Rattle.ga_dates.specs.declared.kind.Kind.TheVariants.{Date as DateKind, Time as TimeKind};
ghost use Rattle.ga_dates.specs.Grammar.{IsAnswer};
ghost use Rattle.ga_dates.specs.Items.{IsComplete};
ghost use Rattle.ga_dates.specs.Spelling.{SpellsBoth, SpellsDate, SpellsTime};

/// A text is one format of its kind or has one fault, and not two.
pub fn one_format()
    ensures { (kind : KindSpec) (text : List ℕ) (answer other : Result (List ItemSpec) FaultSpec) →
        IsAnswer kind text answer → IsAnswer kind text other → answer ≡ other }
{}

/// Every text is a format of its kind or has a fault, so that a refusal is always for a cause.
pub fn every_text_is_answered()
    ensures { (kind : KindSpec) (text : List ℕ) →
        (answer : Result (List ItemSpec) FaultSpec) × IsAnswer kind text answer }
{}

/// By a date format a text spells one date at most.
pub fn one_date()
    ensures { (items : List ItemSpec) → IsComplete DateKind items → (text : List ℕ) (date other : ℕ) →
        SpellsDate items text date → SpellsDate items text other → date ≡ other }
{}

/// By a time format a text spells one minute of the day at most.
pub fn one_time()
    ensures { (items : List ItemSpec) → IsComplete TimeKind items → (text : List ℕ) (minute other : ℕ) →
        SpellsTime items text minute → SpellsTime items text other → minute ≡ other }
{}

/// By a date format and a time format after it a text spells one date and one minute at most.
pub fn one_date_and_time()
    ensures { (dates times : List ItemSpec) → IsComplete DateKind dates → IsComplete TimeKind times →
        (text : List ℕ) (date minute other_date other_minute : ℕ) →
        SpellsBoth dates times text date minute → SpellsBoth dates times text other_date other_minute →
        (date ≡ other_date) × (minute ≡ other_minute) }
{}

/// A date that is spelt has eight digits, of which the first isn't 0.
pub fn dates_have_eight_digits()
    ensures { (items : List ItemSpec) (text : List ℕ) (date : ℕ) →
        SpellsDate items text date → HasEightDigits date }
{}

/// A minute that is spelt is one of the day's 1,440, from 0.
pub fn minutes_are_below_1440()
    ensures { (items : List ItemSpec) → IsComplete TimeKind items → (text : List ℕ) (minute : ℕ) →
        SpellsTime items text minute → minute < 1440 }
{}
