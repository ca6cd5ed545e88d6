//! Words, formats and generated lines.

use ga_base::{Bytes, FormatFault, FormatItem, LeafFault, Needed, NoMemory, Text, Texts};
use ga_conf::{ConfFault, read_conf};
use ga_dates::{
    DateFormat, TimeFormat, compile_date, compile_time, read_both, read_date, read_time,
};
use ga_format::{Format, compile};
use ga_generate::{generate, summary};
use ga_report::General;
use ga_words::{
    Kind, OptionForm, Output, Settings, WordFault, form_of, read_words, scan_words, takes_value,
};
use std::alloc::Global;

/// What words say.
pub fn settings_of(alloc: Global, words: &[Text]) -> Result<Settings, WordFault> {
    read_words(alloc, words)
}

/// The configuration file that words name.
pub fn file_of(alloc: Global, words: &[Text]) -> Result<Option<Text>, WordFault> {
    scan_words(alloc, words)
}

/// The words of a configuration file.
pub fn words_of(alloc: Global, bytes: &[u8]) -> Result<Texts, ConfFault> {
    read_conf(alloc, bytes)
}

/// Whether an option takes a value, and this one.
pub fn is_setting(alloc: Global, name: &str, value: &str) -> Result<bool, NoMemory> {
    match form_of(name) {
        Some(OptionForm::Value) => takes_value(alloc, name, value),
        Some(OptionForm::Flag) | None => Ok(false),
    }
}

/// The faults of configuration files.
pub const CONF_FAULTS: [ConfFault; 2] = [ConfFault::BadConf { line: 1 }, ConfFault::NoMemory];

/// The number of logs of settings.
pub fn logs_of(settings: &Settings) -> usize {
    let Settings {
        log_format: _,
        date_format: _,
        time_format: _,
        output: Output { kind: _, name: _ },
        browsers_file: _,
        config_file: _,
        statics: _,
        all_static: _,
        ranges: _,
        no_query: _,
        ignore_crawlers: _,
        ignore_status: _,
        panels: _,
        date_spec: _,
        hour_spec: _,
        no_ip_validation: _,
        strict_status: _,
        count_4xx: _,
        as_404: _,
        double_decode: _,
        max_items: _,
        jobs: _,
        chunk: _,
        persist: _,
        restore: _,
        keep: _,
        db_path: _,
        generate: _,
        logs,
    } = settings;
    logs.items().len()
}

/// The kinds of output.
pub const KINDS: [Kind; 2] = [Kind::Json, Kind::Csv];

/// The faults of words.
pub const WORD_FAULTS: [WordFault; 7] = [
    WordFault::UnknownOption { at: 0 },
    WordFault::MissingValue { at: 0 },
    WordFault::BadValue { at: 0 },
    WordFault::NoFormat,
    WordFault::NoInput,
    WordFault::Conflict { at: 0 },
    WordFault::NoMemory,
];

/// The faults of formats.
pub const FORMAT_FAULTS: [FormatFault; 11] = [
    FormatFault::UnknownSpecifier { at: 0 },
    FormatFault::Repeated { at: 0 },
    FormatFault::NoDelimiter { at: 0 },
    FormatFault::Missing {
        field: Needed::Host,
    },
    FormatFault::Missing {
        field: Needed::Date,
    },
    FormatFault::Missing {
        field: Needed::Request,
    },
    FormatFault::BadDirective { at: 0 },
    FormatFault::NotJson,
    FormatFault::BadShape { leaf: 0 },
    FormatFault::Leaf {
        leaf: 0,
        kind: LeafFault::Unknown,
        at: 0,
    },
    FormatFault::NoMemory,
];

/// What an item of a format is for.
pub fn byte_of(item: &FormatItem) -> Option<u8> {
    match item {
        FormatItem::Literal(byte) | FormatItem::Field(byte) => Some(*byte),
        FormatItem::Skip => None,
        FormatItem::Forwarded(bytes) => bytes.bytes().first().copied(),
    }
}

/// The format of a log.
pub fn format_of(alloc: Global, text: &Text) -> Result<Format, FormatFault> {
    compile(alloc, text)
}

/// Its items.
pub fn items(format: &Format) -> &[FormatItem] {
    format.items()
}

/// The format of a date.
pub fn date_format(alloc: Global, text: &Text) -> Result<DateFormat, FormatFault> {
    compile_date(alloc, text)
}

/// The format of a time.
pub fn time_format(alloc: Global, text: &Text) -> Result<TimeFormat, FormatFault> {
    compile_time(alloc, text)
}

/// A date by its format.
pub fn date_in(format: &DateFormat, text: &[u8]) -> Option<u32> {
    read_date(format, text)
}

/// A time by its format.
pub fn minute_in(format: &TimeFormat, text: &[u8]) -> Option<u32> {
    read_time(format, text)
}

/// A date and a time after it.
pub fn both_in(date: &DateFormat, time: &TimeFormat, text: &[u8]) -> Option<(u32, u32)> {
    read_both(date, time, text)
}

/// Generated lines.
pub fn generated(alloc: Global, n: u32) -> Result<Bytes, NoMemory> {
    generate(alloc, n)
}

/// What is printed of a report on them.
pub fn generated_summary(
    alloc: Global,
    n: u32,
    general: &General,
    json: &[u8],
) -> Result<Bytes, NoMemory> {
    summary(alloc, n, general, json)
}
