ghost use Rattle.std.specs.Prelude.{◌≡◌, option_map};
ghost use Rattle.ga_words.specs.Options.{takes_of};
ghost use Rattle.ga_words.specs.Steps.Settings.{meaning};

use crate::table_row::{TableRow, lookup};

/// What an option takes, with the setting that it makes.
#[derive(Clone, Copy)]
pub(crate) enum Takes {
    /// No value.
    Flag(Flag),
    /// A text, which may be empty.
    Format(Format),
    /// A text of at least one byte.
    Name(Name),
    /// A number from the one to the other.
    Number(Number, u32, u32),
    /// A status code.
    Status,
    /// Where the report goes.
    Target,
    /// An address or a range of them.
    Addresses,
    /// The name of a panel, which is put in where this is true, and taken out else.
    OfPanel(bool),
    /// How finely VISITORS tells days.
    DateSpec,
    /// How finely VISIT_TIMES tells the time of the day.
    HourSpec,
}

/// The settings that flags make.
#[derive(Clone, Copy)]
pub(crate) enum Flag {
    AllStatic,
    NoQuery,
    IgnoreCrawlers,
    NoIpValidation,
    NoStrictStatus,
    Count4xx,
    As404,
    DoubleDecode,
    Persist,
    Restore,
}

/// The settings that texts make which may be empty.
#[derive(Clone, Copy)]
pub(crate) enum Format {
    Log,
    Date,
    Time,
}

/// The settings that names make.
#[derive(Clone, Copy)]
pub(crate) enum Name {
    BrowsersFile,
    ConfigFile,
    StaticFile,
    DbPath,
}

/// The settings that numbers make.
#[derive(Clone, Copy)]
pub(crate) enum Number {
    MaxItems,
    Jobs,
    Chunk,
    Keep,
    Generate,
}

/// The options (own profile: the greatest numbers, and `--double-decode-url` and `--generate`).
const OPTIONS: [TableRow<Takes>; 30] = [
    TableRow("--log-format", Takes::Format(Format::Log)),
    TableRow("--date-format", Takes::Format(Format::Date)),
    TableRow("--time-format", Takes::Format(Format::Time)),
    TableRow("-o", Takes::Target),
    TableRow("--output", Takes::Target),
    TableRow("--browsers-file", Takes::Name(Name::BrowsersFile)),
    TableRow("--config-file", Takes::Name(Name::ConfigFile)),
    TableRow("--static-file", Takes::Name(Name::StaticFile)),
    TableRow("--all-static-files", Takes::Flag(Flag::AllStatic)),
    TableRow("--exclude-ip", Takes::Addresses),
    TableRow("--no-query-string", Takes::Flag(Flag::NoQuery)),
    TableRow("--ignore-crawlers", Takes::Flag(Flag::IgnoreCrawlers)),
    TableRow("--ignore-status", Takes::Status),
    TableRow("--ignore-panel", Takes::OfPanel(false)),
    TableRow("--enable-panel", Takes::OfPanel(true)),
    TableRow("--date-spec", Takes::DateSpec),
    TableRow("--hour-spec", Takes::HourSpec),
    TableRow("--no-ip-validation", Takes::Flag(Flag::NoIpValidation)),
    TableRow("--no-strict-status", Takes::Flag(Flag::NoStrictStatus)),
    TableRow("--4xx-to-unique-count", Takes::Flag(Flag::Count4xx)),
    TableRow("--444-as-404", Takes::Flag(Flag::As404)),
    TableRow("--double-decode-url", Takes::Flag(Flag::DoubleDecode)),
    TableRow(
        "--max-items",
        Takes::Number(Number::MaxItems, 1, 4_294_967_295),
    ),
    TableRow("--jobs", Takes::Number(Number::Jobs, 1, 16)),
    TableRow("--chunk-size", Takes::Number(Number::Chunk, 1, 32_768)),
    TableRow("--persist", Takes::Flag(Flag::Persist)),
    TableRow("--restore", Takes::Flag(Flag::Restore)),
    TableRow("--keep-last", Takes::Number(Number::Keep, 1, 4_294_967_295)),
    TableRow("--db-path", Takes::Name(Name::DbPath)),
    TableRow("--generate", Takes::Number(Number::Generate, 1, 1_000_000)),
];

/// What the option of this name takes, byte for byte.
pub(crate) fn option_named(name: &str) -> Option<Takes>
    ensures { option_map meaning result ≡ takes_of name.now }
{
    lookup(&OPTIONS, name)
}
