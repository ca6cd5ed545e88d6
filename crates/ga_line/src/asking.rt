ghost use Rattle.std.specs.Prelude.{◌≡◌, ℕ, List};
ghost use Rattle.std.specs.Option.{option_copied};
ghost use Rattle.ga_requests.specs.Requests.{HasParts};
ghost use Rattle.ga_requests.specs.Tables.{IsMethod, IsProtocol};
ghost use Rattle.ga_line.specs.Fits.{Part};
ghost use Rattle.ga_line.specs.Steps.Fitting.{AreNoted};
ghost use Rattle.ga_line.specs.Records.{IfKnown, SaysRequest};
ghost use Rattle.ga_line.specs.Steps.Valid.{IsKnownText};

use crate::fields::Fields;
use ga_requests::{is_method, is_protocol, split_request};
use std::str::from_utf8_unchecked;

/// What was asked for, and how.
#[derive(Clone, Copy)]
pub(crate) struct Request<'a> {
    /// The method, a known one or empty.
    pub method: &'a str,
    /// The target, undecoded.
    pub target: &'a [u8],
    /// The protocol, a known one or empty.
    pub protocol: &'a str,
}

/// The request of a line with these fields.
pub(crate) fn request_of<'a>(fields: &Fields<'a>) -> Request<'a>
    ensures { (parts : List Part) → AreNoted parts fields.now →
        SaysRequest parts result.method.now result.target.now result.protocol.now }
{
    match fields.text(b'r') {
        Some(line) => split_in(line),
        None => Request {
            method: method_in(fields.text(b'm')),
            target: fields.text(b'U').unwrap_or(&[]),
            protocol: protocol_in(fields.text(b'H')),
        },
    }
}

/// The request that a request line says.
fn split_in(line: &[u8]) -> Request<'_>
    ensures { HasParts line.now result.method.now result.target.now result.protocol.now }
{
    let parts = split_request(line);
    Request {
        method: known_text(parts.method),
        target: parts.target,
        protocol: known_text(parts.protocol),
    }
}

/// A known method or protocol as text, and the empty text.
fn known_text(bytes: &[u8]) -> &str
    requires { IsKnownText bytes.now }
    ensures { result.now ≡ bytes.now }
{
    unsafe { from_utf8_unchecked(bytes) }
}

/// The text of `%m` where it is a known method, and the empty text else.
fn method_in(text: Option<&[u8]>) -> &str
    ensures { IfKnown IsMethod (option_copied text.entry) result.now }
{
    match text {
        Some(method) if is_method(method) => known_text(method),
        _ => "",
    }
}

/// The text of `%H` where it is a known protocol, and the empty text else.
fn protocol_in(text: Option<&[u8]>) -> &str
    ensures { IfKnown IsProtocol (option_copied text.entry) result.now }
{
    match text {
        Some(protocol) if is_protocol(protocol) => known_text(protocol),
        _ => "",
    }
}
