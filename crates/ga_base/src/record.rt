ghost use Rattle.std.specs.Prelude.{◌≡◌, IfOk};

use crate::{Listing, Text};
use std::alloc::AllocError;

/// The longest line that is read, in bytes. A longer one is a failed line (own profile).
pub const MAX_LINE: usize = 65_535;

/// A list of status codes.
pub type Statuses = Listing<u32>;

/// What a line of a log says.
#[derive(Debug, PartialEq, Eq, Clone, Drop)]
pub enum Line {
    /// An empty line or a comment, which isn't counted.
    Skipped,
    /// A line that doesn't fit the format, or fits with a value that is refused.
    Failed,
    /// A valid line.
    Good(Record),
}

/// The values of one valid line. An absent text is empty, an absent number 0 or None.
#[derive(Debug, PartialEq, Eq, Drop)]
pub struct Record {
    /// The client's address.
    pub host: Text,
    /// The day, `10000 * year + 100 * month + day`.
    pub date: u32,
    /// The minute of the day, 0 to 1439.
    pub minute: Option<u32>,
    /// The request's method.
    pub method: Text,
    /// The request's protocol.
    pub protocol: Text,
    /// The URL that was asked for.
    pub url: Text,
    /// The status code, 100 to 599, or 0.
    pub status: u32,
    /// The size of the answer in bytes.
    pub bytes: u64,
    /// The time that the answer took, in microseconds.
    pub micros: Option<u64>,
    /// The referring URL.
    pub referrer: Text,
    /// The user agent.
    pub agent: Text,
    /// The virtual host.
    pub vhost: Text,
    /// The remote user.
    pub user: Text,
    /// The cache status.
    pub cache: Text,
    /// The MIME type of the answer.
    pub mime: Text,
    /// The TLS version and cipher.
    pub tls: Text,
}

// By hand: a derived one has eleven early exits, each of which drops all texts before it, and costs most of a minute to prove.
impl Clone for Record {
    ghost is_clone = { λ s t. t ≡ s };

    fn clone(&self) -> Result<Record, AllocError> {
        let (cache, mime, tls) = (self.cache.clone()?, self.mime.clone()?, self.tls.clone()?);
        let (host, method, protocol, url) = copies(
            &self.host,
            &self.method,
            &self.protocol,
            &self.url,
        )?;
        let (referrer, agent, vhost, user) = copies(
            &self.referrer,
            &self.agent,
            &self.vhost,
            &self.user,
        )?;
        Ok(Record {
            host,
            date: self.date,
            minute: self.minute,
            method,
            protocol,
            url,
            status: self.status,
            bytes: self.bytes,
            micros: self.micros,
            referrer,
            agent,
            vhost,
            user,
            cache,
            mime,
            tls,
        })
    }
}

/// Copies of four texts.
fn copies(a: &Text, b: &Text, c: &Text, d: &Text) -> Result<(Text, Text, Text, Text), AllocError>
    ensures { IfOk result (λ texts. texts ≡ (a.now, b.now, c.now, d.now)) }
{
    Ok((a.clone()?, b.clone()?, c.clone()?, d.clone()?))
}
