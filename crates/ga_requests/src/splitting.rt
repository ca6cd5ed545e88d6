ghost use Rattle.std.specs.Prelude.{IfSome, IfNone};
ghost use Rattle.ga_requests.specs.Requests.{HasParts, IsRequestLine, IsNoRequestLine};

use crate::tables::{is_method, is_protocol};
use memchr::{memchr, memrchr};

/// The byte between the parts of a request line.
const SPACE: u8 = b' ';

/// A request in its parts, each borrowed from it. A part that isn't given is empty.
#[derive(Clone, Copy, Debug, PartialEq, Eq)]
pub struct Parts<'a> {
    /// The method, as `GET`.
    pub method: &'a [u8],
    /// What was asked for, undecoded.
    pub target: &'a [u8],
    /// The protocol, as `HTTP/1.1`.
    pub protocol: &'a [u8],
}

/// Splits a request at its first and its last space into method, target and protocol (RFC 9112, section 3), where
/// it begins with a known method, ends in a known protocol and has a target of at least one byte, which may
/// hold spaces. Any other text is the target whole, with method and protocol empty.
pub fn split_request(text: &[u8]) -> Parts<'_>
    ensures { HasParts text.now result.method.now result.target.now result.protocol.now }
{
    match request_line(text) {
        Some(parts) => parts,
        None => Parts {
            method: &[],
            target: text,
            protocol: &[],
        },
    }
}

/// The parts of a request line, `None` for any other text.
fn request_line(text: &[u8]) -> Option<Parts<'_>>
    ensures found { IfSome result
        (λ parts. IsRequestLine text.now parts.method.now parts.target.now parts.protocol.now) }
    ensures other { IfNone result (IsNoRequestLine text.now) }
{
    let first = memchr(SPACE, text)?;
    let last = memrchr(SPACE, text)?;
    if last <= first + 1 {
        return None;
    }
    let method = &text[..first];
    let target = &text[first + 1..last];
    let protocol = &text[last + 1..];
    if is_method(method) && is_protocol(protocol) {
        Some(Parts {
            method,
            target,
            protocol,
        })
    } else {
        None
    }
}
