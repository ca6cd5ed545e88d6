ghost use Rattle.std.specs.Prelude.{◌≡◌, IfOk};
ghost use Rattle.ga_words.specs.Defaults.{defaults};

use ga_base::{DateSpec, HourSpec, Listing, NoMemory, PanelSet, Statuses, Text, Texts};
use ga_hosts::Ranges;
use std::alloc::Global;

/// The format of dates where no word gives one (own profile), as in `29/Feb/2024`.
const DATE_FORMAT: &str = "%d/%b/%Y";

/// The format of times where no word gives one (own profile), as in `23:50:00`.
const TIME_FORMAT: &str = "%H:%M:%S";

/// The folder of the database where no word names one.
const DB_PATH: &str = "/tmp";

/// The rows of a panel where no word says how many.
const MAX_ITEMS: u64 = 366;

/// The last days that a run keeps where no word says how many: all.
const KEEP: u32 = 0;

/// The jobs where no word says how many (own profile).
const JOBS: u32 = 1;

/// The lines that a job takes at once where no word says how many (own profile).
const CHUNK: u32 = 1_024;

/// The form of a report.
#[derive(Clone, Copy, Debug, PartialEq, Eq)]
pub enum Kind {
    /// One JSON value.
    Json,
    /// Rows of comma-separated values.
    Csv,
}

/// Where the report goes, and as what.
#[derive(Debug, PartialEq, Eq, Drop)]
pub struct Output {
    /// The form of the report.
    pub kind: Kind,
    /// The name of the file that takes it. It is empty for standard output.
    pub name: Text,
}

/// What a run does.
#[derive(Debug, Drop)]
pub struct Settings {
    /// The log format, its text or its name. `None` where none is given.
    pub log_format: Option<Text>,
    /// The format of the dates in a log.
    pub date_format: Text,
    /// The format of the times in a log.
    pub time_format: Text,
    /// Where the report goes.
    pub output: Output,
    /// The name of the browsers file, where one is given.
    pub browsers_file: Option<Text>,
    /// The name of the configuration file, where one is given. Its words stand before these.
    pub config_file: Option<Text>,
    /// The endings of static files beside the built-in ones.
    pub statics: Texts,
    /// Whether a file is static by the ending before its query string.
    pub all_static: bool,
    /// The addresses whose lines are excluded.
    pub ranges: Ranges,
    /// Whether query strings are taken off the URLs.
    pub no_query: bool,
    /// Whether the lines of crawlers are excluded.
    pub ignore_crawlers: bool,
    /// The status codes whose lines are excluded.
    pub ignore_status: Statuses,
    /// The panels of the report.
    pub panels: PanelSet,
    /// How finely VISITORS tells days.
    pub date_spec: DateSpec,
    /// How finely VISIT_TIMES tells the time of the day.
    pub hour_spec: HourSpec,
    /// Whether a host may be any text.
    pub no_ip_validation: bool,
    /// Whether a status code has to be one from 100 to 599.
    pub strict_status: bool,
    /// Whether clients that were answered with 400 to 499 count as visitors.
    pub count_4xx: bool,
    /// Whether the status 444 counts as 404.
    pub as_404: bool,
    /// Whether URLs are decoded twice.
    pub double_decode: bool,
    /// The most rows of a panel, 1 to 4,294,967,295.
    pub max_items: u64,
    /// How many jobs count lines at once, 1 to 16.
    pub jobs: u32,
    /// How many lines a job takes at once, 1 to 32,768.
    pub chunk: u32,
    /// Whether the run is kept in the database.
    pub persist: bool,
    /// Whether the report begins with what the database holds.
    pub restore: bool,
    /// How many of the last days the run shows and stores, 1 to 4,294,967,295, or 0 for all.
    pub keep: u32,
    /// The folder of the database.
    pub db_path: Text,
    /// How many lines are generated in place of logs, 1 to 1,000,000, where that is asked for.
    pub generate: Option<u32>,
    /// The names of the logs, in the order of the words.
    pub logs: Texts,
}

/// The settings of a run without words.
pub(crate) fn default_settings(alloc: Global) -> Result<Settings, NoMemory>
    ensures { IfOk result (λ s. s ≡ defaults) }
{
    Ok(Settings {
        log_format: None,
        date_format: Text::of(alloc, DATE_FORMAT)?,
        time_format: Text::of(alloc, TIME_FORMAT)?,
        output: Output {
            kind: Kind::Json,
            name: Text::new(),
        },
        browsers_file: None,
        config_file: None,
        statics: Texts::new(alloc),
        all_static: false,
        ranges: Ranges::new(alloc),
        no_query: false,
        ignore_crawlers: false,
        ignore_status: Listing::new(alloc),
        panels: PanelSet::all(),
        date_spec: DateSpec::Date,
        hour_spec: HourSpec::Hour,
        no_ip_validation: false,
        strict_status: true,
        count_4xx: false,
        as_404: false,
        double_decode: false,
        max_items: MAX_ITEMS,
        jobs: JOBS,
        chunk: CHUNK,
        persist: false,
        restore: false,
        keep: KEEP,
        db_path: Text::of(alloc, DB_PATH)?,
        generate: None,
        logs: Texts::new(alloc),
    })
}
