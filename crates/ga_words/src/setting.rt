ghost use Rattle.std.specs.Prelude.{◌≡◌, ◌∷◌, [], OnOk, IfErr};
ghost use Rattle.ga_words.specs.Options.{Sets};
ghost use Rattle.ga_words.specs.Steps.Settings.{IsValueFault, meaning, with_flag, with_format, with_number};
ghost use Rattle.ga_words.specs.Units.{AddsLogs};

use crate::options::{Flag, Format, Name, Number, Takes};
use crate::panel_names::panel_named;
use crate::spec_names::{date_spec_named, hour_spec_named};
use crate::values::{number_of, range_of, target_of};
use crate::{Output, Settings, WordFault};
use ga_base::{NoMemory, Text};
use std::alloc::Global;

/// The fewest and the most digits of a number.
const NUMBER_DIGITS: (usize, usize) = (1, 10);

/// The digits of a status code.
const STATUS_DIGITS: usize = 3;

/// The least and the greatest status code.
const STATUS_CODES: (u32, u32) = (100, 599);

/// Makes the setting of an option that takes this by its value, the word at `at` or its end.
pub(crate) fn set_value(
    alloc: Global,
    takes: Takes,
    value: &str,
    at: u64,
    settings: &mut Settings,
) -> Result<(), WordFault>
    ensures ok { OnOk result (Sets (meaning takes) value.now settings.old settings.new) }
    ensures fault { IfErr result (IsValueFault takes value.now at) }
{
    match takes {
        Takes::Flag(_) => Err(WordFault::BadValue { at }),
        Takes::Format(format) => set_format(alloc, format, value, settings),
        Takes::Name(name) => set_name(alloc, name, value, at, settings),
        Takes::Number(number, low, high) => {
            set_number_option(number, low, high, value, at, settings)
        }
        Takes::Status => add_status(value, at, settings),
        Takes::Target => set_target(alloc, value, at, settings),
        Takes::Addresses => add_range(value, at, settings),
        Takes::OfPanel(on) => set_panel(on, value, at, settings),
        Takes::DateSpec => set_date_spec(value, at, settings),
        Takes::HourSpec => set_hour_spec(value, at, settings),
    }
}

/// Makes the setting of a flag.
pub(crate) fn set_flag(flag: Flag, settings: &mut Settings)
    ensures { settings.new ≡ with_flag flag settings.old }
{
    match flag {
        Flag::AllStatic => settings.all_static = true,
        Flag::NoQuery => settings.no_query = true,
        Flag::IgnoreCrawlers => settings.ignore_crawlers = true,
        Flag::NoIpValidation => settings.no_ip_validation = true,
        Flag::NoStrictStatus => settings.strict_status = false,
        Flag::Count4xx => settings.count_4xx = true,
        Flag::As404 => settings.as_404 = true,
        Flag::DoubleDecode => settings.double_decode = true,
        Flag::Persist => settings.persist = true,
        Flag::Restore => settings.restore = true,
    }
}

/// Makes the setting of a format.
fn set_format(
    alloc: Global,
    format: Format,
    text: &str,
    settings: &mut Settings,
) -> Result<(), WordFault>
    ensures ok { OnOk result (settings.new ≡ with_format format text.now settings.old) }
    ensures fault { IfErr result (λ fault. fault ≡ WordFault.NoMemory) }
{
    let text = Text::of(alloc, text)?;
    match format {
        Format::Log => settings.log_format = Some(text),
        Format::Date => settings.date_format = text,
        Format::Time => settings.time_format = text,
    }
    Ok(())
}

/// Makes the setting of a name, which isn't empty.
fn set_name(
    alloc: Global,
    name: Name,
    value: &str,
    at: u64,
    settings: &mut Settings,
) -> Result<(), WordFault>
    ensures ok { OnOk result (Sets (meaning (Takes.Name name)) value.now settings.old settings.new) }
    ensures fault { IfErr result (IsValueFault (Takes.Name name) value.now at) }
{
    if value.is_empty() {
        return Err(WordFault::BadValue { at });
    }
    let text = Text::of(alloc, value)?;
    match name {
        Name::BrowsersFile => settings.browsers_file = Some(text),
        Name::ConfigFile => settings.config_file = Some(text),
        Name::StaticFile => settings.statics.push(text)?,
        Name::DbPath => settings.db_path = text,
    }
    Ok(())
}

/// Makes the setting of an option that takes a number from the one to the other.
fn set_number_option(
    number: Number,
    low: u32,
    high: u32,
    value: &str,
    at: u64,
    settings: &mut Settings,
) -> Result<(), WordFault>
    ensures ok { OnOk result (Sets (meaning (Takes.Number number low high)) value.now settings.old settings.new) }
    ensures fault { IfErr result (IsValueFault (Takes.Number number low high) value.now at) }
{
    let (shortest, longest) = NUMBER_DIGITS;
    let Some(n) = number_of(value, shortest, longest, low, high) else {
        return Err(WordFault::BadValue { at });
    };
    set_number(number, n, settings);
    Ok(())
}

/// Makes the setting of a number.
fn set_number(number: Number, n: u32, settings: &mut Settings)
    ensures { settings.new ≡ with_number number n settings.old }
{
    match number {
        Number::MaxItems => settings.max_items = n as u64,
        Number::Jobs => settings.jobs = n,
        Number::Chunk => settings.chunk = n,
        Number::Keep => settings.keep = n,
        Number::Generate => settings.generate = Some(n),
    }
}

/// Adds a status code.
fn add_status(value: &str, at: u64, settings: &mut Settings) -> Result<(), WordFault>
    ensures ok { OnOk result (Sets (meaning Takes.Status) value.now settings.old settings.new) }
    ensures fault { IfErr result (IsValueFault Takes.Status value.now at) }
{
    let (low, high) = STATUS_CODES;
    let Some(status) = number_of(value, STATUS_DIGITS, STATUS_DIGITS, low, high) else {
        return Err(WordFault::BadValue { at });
    };
    settings.ignore_status.push(status)?;
    Ok(())
}

/// Makes the setting of the report's target.
fn set_target(alloc: Global, value: &str, at: u64, settings: &mut Settings) -> Result<(), WordFault>
    ensures ok { OnOk result (Sets (meaning Takes.Target) value.now settings.old settings.new) }
    ensures fault { IfErr result (IsValueFault Takes.Target value.now at) }
{
    let Some((kind, name)) = target_of(value) else {
        return Err(WordFault::BadValue { at });
    };
    let name = Text::of(alloc, name)?;
    settings.output = Output { kind, name };
    Ok(())
}

/// Adds an address or a range of them.
fn add_range(value: &str, at: u64, settings: &mut Settings) -> Result<(), WordFault>
    ensures ok { OnOk result (Sets (meaning Takes.Addresses) value.now settings.old settings.new) }
    ensures fault { IfErr result (IsValueFault Takes.Addresses value.now at) }
{
    let Some(range) = range_of(value) else {
        return Err(WordFault::BadValue { at });
    };
    settings.ranges.push(range)?;
    Ok(())
}

/// Puts a panel in, or takes it out.
fn set_panel(on: bool, value: &str, at: u64, settings: &mut Settings) -> Result<(), WordFault>
    ensures ok { OnOk result (Sets (meaning (Takes.OfPanel on)) value.now settings.old settings.new) }
    ensures fault { IfErr result (IsValueFault (Takes.OfPanel on) value.now at) }
{
    let Some(panel) = panel_named(value) else {
        return Err(WordFault::BadValue { at });
    };
    settings.panels.set(panel, on);
    Ok(())
}

/// Makes the setting of how finely VISITORS tells days.
fn set_date_spec(value: &str, at: u64, settings: &mut Settings) -> Result<(), WordFault>
    ensures ok { OnOk result (Sets (meaning Takes.DateSpec) value.now settings.old settings.new) }
    ensures fault { IfErr result (IsValueFault Takes.DateSpec value.now at) }
{
    let Some(spec) = date_spec_named(value) else {
        return Err(WordFault::BadValue { at });
    };
    settings.date_spec = spec;
    Ok(())
}

/// Makes the setting of how finely VISIT_TIMES tells the time of the day.
fn set_hour_spec(value: &str, at: u64, settings: &mut Settings) -> Result<(), WordFault>
    ensures ok { OnOk result (Sets (meaning Takes.HourSpec) value.now settings.old settings.new) }
    ensures fault { IfErr result (IsValueFault Takes.HourSpec value.now at) }
{
    let Some(spec) = hour_spec_named(value) else {
        return Err(WordFault::BadValue { at });
    };
    settings.hour_spec = spec;
    Ok(())
}

/// Adds the name of a log.
pub(crate) fn add_log(log: &Text, settings: &mut Settings) -> Result<(), NoMemory>
    ensures { OnOk result (AddsLogs (log.now ∷ []) settings.old settings.new) }
{
    settings.logs.push(log.clone()?)
}
