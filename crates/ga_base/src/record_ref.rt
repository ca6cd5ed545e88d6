ghost use Rattle.std.specs.Prelude.{◌≡◌};
ghost use Rattle.ga_base.specs.Records.{record_in};

use crate::Record;

/// The values of one valid line, as `Record` has them, with texts that are borrowed.
#[derive(Clone, Copy, Debug, PartialEq, Eq)]
pub struct RecordRef<'a> {
    /// The client's address.
    pub host: &'a str,
    /// The day, `10000 * year + 100 * month + day`.
    pub date: u32,
    /// The minute of the day, 0 to 1439.
    pub minute: Option<u32>,
    /// The request's method.
    pub method: &'a str,
    /// The request's protocol.
    pub protocol: &'a str,
    /// The URL that was asked for.
    pub url: &'a str,
    /// The status code, 100 to 599, or 0.
    pub status: u32,
    /// The size of the answer in bytes.
    pub bytes: u64,
    /// The time that the answer took, in microseconds.
    pub micros: Option<u64>,
    /// The referring URL.
    pub referrer: &'a str,
    /// The user agent.
    pub agent: &'a str,
    /// The virtual host.
    pub vhost: &'a str,
    /// The remote user.
    pub user: &'a str,
    /// The cache status.
    pub cache: &'a str,
    /// The MIME type of the answer.
    pub mime: &'a str,
    /// The TLS version and cipher.
    pub tls: &'a str,
}

impl Record {
    /// The same values, with texts borrowed from this record.
    pub fn as_ref(&self) -> RecordRef<'_>
        ensures { record_in result ≡ self.now }
    {
        RecordRef {
            host: self.host.as_str(),
            date: self.date,
            minute: self.minute,
            method: self.method.as_str(),
            protocol: self.protocol.as_str(),
            url: self.url.as_str(),
            status: self.status,
            bytes: self.bytes,
            micros: self.micros,
            referrer: self.referrer.as_str(),
            agent: self.agent.as_str(),
            vhost: self.vhost.as_str(),
            user: self.user.as_str(),
            cache: self.cache.as_str(),
            mime: self.mime.as_str(),
            tls: self.tls.as_str(),
        }
    }
}
