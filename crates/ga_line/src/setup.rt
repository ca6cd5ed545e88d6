use ga_dates::{DateFormat, TimeFormat};
use ga_format::Format;
use ga_jsonlog::JsonFormat;

/// What the lines of a log have to fit.
#[derive(Debug, Drop)]
pub enum Shape {
    /// The items of a format text.
    Plain(Format),
    /// A JSON format: a line is an object, and its text at each leaf has to fit the leaf's items.
    Json(JsonFormat),
}

/// How the lines of a log are read: what is made once and serves every line.
#[derive(Debug, Drop)]
pub struct LineSetup {
    /// What a line has to fit.
    pub format: Shape,
    /// The format of `%d`, and of the day in `%x`.
    pub date: DateFormat,
    /// The format of `%t`, and of the time in `%x`.
    pub time: TimeFormat,
    /// Whether the text of `%h` may be any but the empty one. Else it has to be an address, as that of `~h{C}` always has.
    pub no_ip_validation: bool,
    /// Whether a line fails whose status is there and is no status code.
    pub strict_status: bool,
    /// Whether URLs are percent-decoded twice, and not once.
    pub double_decode: bool,
    /// Whether the first `?` of a URL and what follows it are left out.
    pub no_query: bool,
}
