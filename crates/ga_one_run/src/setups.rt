ghost use Rattle.std.specs.Prelude.{◌≡◌, ◌≢◌, IfOk, IfErr, Ok, Err};
ghost use Rattle.ga_base.specs.declared.formats.FormatFault.TheVariants.{NoMemory as FormatNoMemory};
ghost use Rattle.ga_dates.specs.Grammar.{IsAnswer};
ghost use Rattle.ga_dates.specs.declared.kind.Kind.TheVariants.{Date as DateKind, Time as TimeKind};
ghost use Rattle.ga_one_run.specs.Setups as spec;
ghost use Rattle.ga_one_run.specs.Setups.{IsLineSetup, LogMeans, panels_of};
ghost use Rattle.ga_one_run.specs.Steps.Setups.{IsRefusal, IsSetupFault};
ghost use Rattle.ga_one_run.specs.declared.setups.SetupFault.TheVariants.{NoMemory as SetupNoMemory};
ghost use Rattle.ga_one_run.specs.declared.status.Which.TheVariants.{Date as WhichDate, Log as WhichLog, Time as WhichTime};

use crate::Which;
use ga_agents::Rules;
use ga_base::{FormatFault, NoMemory, Text};
use ga_dates::{DateFormat, TimeFormat, compile_date, compile_time};
use ga_format::format_text;
use ga_line::{LineSetup, Shape, compile_shape};
use ga_panels::PanelSetup;
use ga_words::Settings;
use std::alloc::Global;

/// The name of the format of the lines that are read where no format is given.
const NO_FORMAT: &str = "COMBINED";

/// Why the settings give no setup.
#[derive(Clone, Copy, Debug, PartialEq, Eq)]
pub enum SetupFault {
    /// That format is refused, and those before it are good.
    Refused { which: Which, fault: FormatFault },
    /// Out of memory.
    NoMemory,
}

impl From<NoMemory> for SetupFault {
    ghost from_gives = { λ _ e. e ≡ SetupNoMemory };

    fn from(_: NoMemory) -> SetupFault {
        SetupFault::NoMemory
    }
}

/// How the lines of the logs are read, as the settings say.
pub fn line_setup(alloc: Global, settings: &Settings) -> Result<LineSetup, SetupFault>
    ensures ok { IfOk result (IsLineSetup settings.now) }
    ensures fault { IfErr result (IsSetupFault settings.now) }
{
    let format = log_format(alloc, format_word(settings))?;
    let date = date_format(alloc, &settings.date_format)?;
    let time = time_format(alloc, &settings.time_format)?;
    Ok(LineSetup {
        format,
        date,
        time,
        no_ip_validation: settings.no_ip_validation,
        strict_status: settings.strict_status,
        double_decode: settings.double_decode,
        no_query: settings.no_query,
    })
}

/// How records are counted, as the settings say and by these rules.
pub fn panel_setup(alloc: Global, settings: &Settings, rules: Rules) -> Result<PanelSetup, NoMemory>
    ensures { IfOk result (λ setup. setup ≡ panels_of settings.now rules) }
{
    Ok(PanelSetup {
        rules,
        ranges: settings.ranges.clone()?,
        statics: settings.statics.clone()?,
        all_static: settings.all_static,
        ignore_crawlers: settings.ignore_crawlers,
        ignore_status: settings.ignore_status.clone()?,
        panels: settings.panels,
        count_4xx: settings.count_4xx,
        as_404: settings.as_404,
        date_spec: settings.date_spec,
        hour_spec: settings.hour_spec,
    })
}

/// The log format, by its text or its name.
fn format_word(settings: &Settings) -> &str
    ensures { result.now ≡ spec.format_word settings.now }
{
    match &settings.log_format {
        Some(word) => word.as_str(),
        None => NO_FORMAT,
    }
}

/// The log format of a format text, plain or JSON, or of the name of one.
fn log_format(alloc: Global, word: &str) -> Result<Shape, SetupFault>
    ensures ok { IfOk result (λ shape. LogMeans word.now (Ok shape)) }
    ensures fault { IfErr result (IsRefusal WhichLog (λ fault. LogMeans word.now (Err fault))) }
{
    match compile_shape(alloc, &Text::of(alloc, format_text(word))?) {
        Ok(format) => Ok(format),
        Err(fault) => Err(refusal(Which::Log, fault)),
    }
}

fn date_format(alloc: Global, text: &Text) -> Result<DateFormat, SetupFault>
    ensures ok { IfOk result (λ items. IsAnswer DateKind text.now (Ok items)) }
    ensures fault { IfErr result (IsRefusal WhichDate (λ fault. IsAnswer DateKind text.now (Err fault))) }
{
    match compile_date(alloc, text) {
        Ok(format) => Ok(format),
        Err(fault) => Err(refusal(Which::Date, fault)),
    }
}

fn time_format(alloc: Global, text: &Text) -> Result<TimeFormat, SetupFault>
    ensures ok { IfOk result (λ items. IsAnswer TimeKind text.now (Ok items)) }
    ensures fault { IfErr result (IsRefusal WhichTime (λ fault. IsAnswer TimeKind text.now (Err fault))) }
{
    match compile_time(alloc, text) {
        Ok(format) => Ok(format),
        Err(fault) => Err(refusal(Which::Time, fault)),
    }
}

/// The refusal for a fault of a format.
fn refusal(which: Which, fault: FormatFault) -> SetupFault
    ensures refusal { IsRefusal which (λ other. (other ≡ fault) × (other ≢ FormatNoMemory)) result }
    ensures want { result ≡ SetupNoMemory → fault ≡ FormatNoMemory }
{
    match fault {
        FormatFault::NoMemory => SetupFault::NoMemory,
        _ => SetupFault::Refused { which, fault },
    }
}
