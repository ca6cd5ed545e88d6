ghost use Rattle.std.specs.Prelude.{◌≡◌, ◌↔◌, ◌<◌, ◌≤◌, IfOk, IsTrue, nat_eq};
ghost use Rattle.std.specs.Cow.{cow_str_bytes};
ghost use Rattle.std.specs.List.{list_any, ends_with};
ghost use Rattle.ga_requests.specs.Tables.{extensions};
ghost use Rattle.ga_requests.specs.Urls as spec;

use crate::before_byte::{QUESTION_MARK, before_byte};
use crate::tables::is_extension;
use ga_base::{NoMemory, Text, Texts};
use memchr::memrchr;
use percent_encoding::percent_decode;
use std::alloc::Global;
use std::borrow::{CowSlice, CowStr};

/// The byte that begins an extension.
const DOT: u8 = b'.';

/// What stands before the first `?` of a target or a URL, or all of it where there is none.
pub fn without_query(text: &[u8]) -> &[u8]
    ensures { result.now ≡ spec.without_query text.now }
{
    before_byte(text, QUESTION_MARK)
}

/// The text of a URL: the bytes are percent-decoded (URL Standard, section 1.3) `times` times, once or twice, and
/// what then isn't UTF-8 becomes U+FFFD, as std's lossy reading does. A `%` that begins no escape stays.
pub fn decode_url(alloc: Global, text: &[u8], times: u32) -> Result<Text, NoMemory>
    requires some { 0 < times }
    requires few { times ≤ 2 }
    ensures { IfOk result (λ url. url ≡ spec.url_text times text.now) }
{
    Text::from_cow(alloc, decoded_url(alloc, text, times)?)
}

/// The text of a URL, as `decode_url` gives it, borrowed where no byte is changed.
pub fn decoded_url(alloc: Global, text: &[u8], times: u32) -> Result<CowStr<'_, Global>, NoMemory>
    requires some { 0 < times }
    requires few { times ≤ 2 }
    ensures { IfOk result (λ url. cow_str_bytes url ≡ spec.url_text times text.now) }
{
    if times == 1 {
        return decoded_last(alloc, text);
    }
    match percent_decode(text).into_cow(alloc)? {
        CowSlice::Borrowed(once) => decoded_last(alloc, once),
        CowSlice::Owned(once) => Ok(CowStr::Owned(decoded_last(alloc, &once)?.into_owned(alloc)?)),
    }
}

/// The bytes percent-decoded once more, and made UTF-8.
fn decoded_last(alloc: Global, bytes: &[u8]) -> Result<CowStr<'_, Global>, NoMemory>
    ensures { IfOk result (λ url. cow_str_bytes url ≡ spec.url_text 1 bytes.now) }
{
    Ok(percent_decode(bytes).decode_utf8_lossy(alloc)?)
}

/// Whether a URL is of a static file: what stands before its first `?` ends in a known extension or in one of
/// `statics`, byte for byte. A URL that holds a `?` is of a static file only where `all`.
pub fn is_static(url: &Text, statics: &Texts, all: bool) -> bool
    ensures { IsTrue result ↔ spec.IsStatic url.now statics.now all }
{
    is_static_url(url.as_str(), statics.items(), all)
}

/// The same of a URL and of endings that are borrowed.
pub fn is_static_url(url: &str, statics: &[Text], all: bool) -> bool
    ensures { IsTrue result ↔ spec.IsStatic url.now statics.now all }
{
    let url = url.as_bytes();
    let path = without_query(url);
    if path.len() < url.len() && !all {
        return false;
    }
    has_extension(path) || ends_in_one_of(path, statics)
}

/// Whether the path ends in a known extension. An extension begins with its only dot, so that it is what the last
/// dot begins.
fn has_extension(path: &[u8]) -> bool
    ensures { IsTrue result ↔ spec.EndsInOneOf extensions path.now }
{
    match memrchr(DOT, path) {
        Some(dot) => is_extension(&path[dot..]),
        None => false,
    }
}

/// Whether the path ends in one of the texts.
fn ends_in_one_of(path: &[u8], statics: &[Text]) -> bool
    ensures { result ≡ list_any (λ suffix. ends_with nat_eq path.now suffix) statics.now }
{
    statics.iter().any(|suffix| path.ends_with(suffix.bytes()))
}
