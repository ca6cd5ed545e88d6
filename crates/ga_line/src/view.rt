ghost use Rattle.std.specs.Prelude.{◌≡◌, IfOk};
ghost use Rattle.std.specs.Cow.{cow_str_bytes};
ghost use Rattle.ga_base.specs.Records.{record_in};
ghost use Rattle.ga_line.specs.Views.{line_in, record_of};

use ga_base::{Line, NoMemory, Record, RecordRef, Text};
use std::alloc::Global;
use std::borrow::CowStr;

/// What a line of a log says, with texts that are borrowed from the line where they can be.
#[derive(Drop)]
pub enum LineView<'a> {
    /// An empty line or a comment, which isn't counted.
    Skipped,
    /// A line that doesn't fit the format, or fits with a value that is refused.
    Failed,
    /// A valid line.
    Good(RecordView<'a>),
}

/// The values of one valid line, as `Record` has them. A text is borrowed from the line where it is there as UTF-8,
/// and owned where it was made: by U+FFFD for what isn't UTF-8, by decoding, or by joining path and query.
#[derive(Drop)]
pub struct RecordView<'a> {
    /// The client's address.
    pub host: CowStr<'a, Global>,
    /// The day, `10000 * year + 100 * month + day`.
    pub date: u32,
    /// The minute of the day, 0 to 1439.
    pub minute: Option<u32>,
    /// The request's method, a known one or empty.
    pub method: &'a str,
    /// The request's protocol, a known one or empty.
    pub protocol: &'a str,
    /// The URL that was asked for.
    pub url: CowStr<'a, Global>,
    /// The status code, 100 to 599, or 0.
    pub status: u32,
    /// The size of the answer in bytes.
    pub bytes: u64,
    /// The time that the answer took, in microseconds.
    pub micros: Option<u64>,
    /// The referring URL.
    pub referrer: CowStr<'a, Global>,
    /// The user agent.
    pub agent: CowStr<'a, Global>,
    /// The virtual host.
    pub vhost: CowStr<'a, Global>,
    /// The remote user.
    pub user: CowStr<'a, Global>,
    /// The cache status.
    pub cache: CowStr<'a, Global>,
    /// The MIME type of the answer.
    pub mime: CowStr<'a, Global>,
    /// The TLS version and cipher.
    pub tls: CowStr<'a, Global>,
}

impl<'a> LineView<'a> {
    /// The same line, owned. Only a record takes memory.
    pub fn into_line(self, alloc: Global) -> Result<Line, NoMemory>
        ensures { IfOk result (λ line. line ≡ line_in self.entry) }
    {
        match self {
            LineView::Skipped => Ok(Line::Skipped),
            LineView::Failed => Ok(Line::Failed),
            LineView::Good(view) => Ok(Line::Good(view.into_record(alloc)?)),
        }
    }
}

impl<'a> RecordView<'a> {
    /// The same values, with every text borrowed from this view.
    pub fn as_ref(&self) -> RecordRef<'_>
        ensures { record_in result ≡ record_of self.now }
    {
        RecordRef {
            host: self.host.as_str(),
            date: self.date,
            minute: self.minute,
            method: self.method,
            protocol: self.protocol,
            url: self.url.as_str(),
            status: self.status,
            bytes: self.bytes,
            micros: self.micros,
            referrer: self.referrer.as_str(),
            agent: self.agent.as_str(),
            vhost: self.vhost.as_str(),
            user: self.user.as_str(),
            cache: self.cache.as_str(),
            mime: self.mime.as_str(),
            tls: self.tls.as_str(),
        }
    }

    /// The same values, owned.
    pub fn into_record(self, alloc: Global) -> Result<Record, NoMemory>
        ensures { IfOk result (λ rec. rec ≡ record_of self.entry) }
    {
        let (method, protocol) = (
            Text::of(alloc, self.method)?,
            Text::of(alloc, self.protocol)?,
        );
        let (host, url, referrer, agent) = owned(
            alloc,
            self.host,
            self.url,
            self.referrer,
            self.agent,
        )?;
        let (vhost, user, cache, mime) = owned(
            alloc, self.vhost, self.user, self.cache, self.mime,
        )?;
        Ok(Record {
            host,
            date: self.date,
            minute: self.minute,
            method,
            protocol,
            url,
            status: self.status,
            bytes: self.bytes,
            micros: self.micros,
            referrer,
            agent,
            vhost,
            user,
            cache,
            mime,
            tls: Text::from_cow(alloc, self.tls)?,
        })
    }
}

/// Four texts, owned. One call has one early exit where four calls have four, each of which drops all that is at hand.
fn owned<'a>(
    alloc: Global,
    a: CowStr<'a, Global>,
    b: CowStr<'a, Global>,
    c: CowStr<'a, Global>,
    d: CowStr<'a, Global>,
) -> Result<(Text, Text, Text, Text), NoMemory>
    ensures { IfOk result (λ texts.
        texts ≡ (cow_str_bytes a.entry, cow_str_bytes b.entry, cow_str_bytes c.entry, cow_str_bytes d.entry)) }
{
    Ok((
        Text::from_cow(alloc, a)?,
        Text::from_cow(alloc, b)?,
        Text::from_cow(alloc, c)?,
        Text::from_cow(alloc, d)?,
    ))
}
