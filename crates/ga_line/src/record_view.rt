ghost use Rattle.std.specs.Prelude.{◌≡◌, ℕ, List, [], IfOk, IsOk, unwrap_or};
ghost use Rattle.std.specs.Cow.{cow_str_bytes};
ghost use Rattle.std.specs.Option.{option_copied};
ghost use Rattle.std.specs.List.{Contains};
ghost use Rattle.std.specs.Str.{IsUtf8};
ghost use Rattle.std.specs.Str.Lossy.{utf8_lossy};
ghost use Rattle.ga_requests.specs.Urls.{url_text};
ghost use Rattle.ga_line.specs.Fits.{Part, field};
ghost use Rattle.ga_line.specs.Steps.Fitting.{AreNoted, IsLetter};
ghost use Rattle.ga_line.specs.Records.{HasTexts, decodings, kept_of, said, said_text, utf8_text, with_query};
ghost use Rattle.ga_line.specs.Steps.Valid.{AreOf, AreUtf8, IsLent};
ghost use Rattle.ga_line.specs.Views.{StandsInLine, percent_sign, record_of};

use crate::LineSetup;
use crate::asking::request_of;
use crate::fields::Fields;
use crate::numbers::Numbers;
use crate::view::RecordView;
use ga_base::NoMemory;
use ga_requests::{decoded_url, without_query};
use memchr::memchr;
use std::alloc::Global;
use std::borrow::CowStr;
use std::str::from_utf8;

/// What begins a query.
const QUESTION_MARK: u8 = b'?';

/// What begins an escape.
const PERCENT_SIGN: u8 = b'%';

/// What says nothing.
const ABSENT: &[u8] = b"-";

/// What a line with these fields and numbers says.
pub(crate) fn view_of<'a>(
    alloc: Global,
    setup: &LineSetup,
    fields: &Fields<'a>,
    numbers: Numbers,
) -> Result<RecordView<'a>, NoMemory>
    ensures numbers { IfOk result (λ view. AreOf numbers (record_of view)) }
    ensures texts { (parts : List Part) → AreNoted parts fields.now →
        IfOk result (λ view. HasTexts setup.now parts (record_of view)) }
    ensures lends { (parts : List Part) → AreNoted parts fields.now →
        StandsInLine setup.now parts → IsOk result }
{
    let request = request_of(fields);
    let query = bytes_unless_dash(fields.text(b'q'));
    Ok(RecordView {
        host: text_of(alloc, fields, b'h')?,
        date: numbers.date,
        minute: numbers.minute,
        method: request.method,
        protocol: request.protocol,
        url: url_of(alloc, setup, request.target, query)?,
        status: numbers.status,
        bytes: numbers.bytes,
        micros: numbers.micros,
        referrer: text_unless_dash(alloc, fields, b'R')?,
        agent: text_unless_dash(alloc, fields, b'u')?,
        vhost: text_unless_dash(alloc, fields, b'v')?,
        user: text_unless_dash(alloc, fields, b'e')?,
        cache: text_unless_dash(alloc, fields, b'C')?,
        mime: text_unless_dash(alloc, fields, b'M')?,
        tls: text_unless_dash(alloc, fields, b'K')?,
    })
}

/// The text of a field, empty where it is absent, with U+FFFD for what isn't UTF-8.
fn text_of<'a>(
    alloc: Global,
    fields: &Fields<'a>,
    letter: u8,
) -> Result<CowStr<'a, Global>, NoMemory>
    requires { IsLetter letter }
    ensures value { (parts : List Part) → AreNoted parts fields.now →
        IfOk result (λ text. cow_str_bytes text ≡ utf8_text (field letter parts)) }
    ensures lends { (parts : List Part) → AreNoted parts fields.now → AreUtf8 parts → IsOk result }
{
    utf8_in(alloc, fields.text(letter).unwrap_or(&[]))
}

/// The same of a field in which a dash says nothing.
fn text_unless_dash<'a>(
    alloc: Global,
    fields: &Fields<'a>,
    letter: u8,
) -> Result<CowStr<'a, Global>, NoMemory>
    requires { IsLetter letter }
    ensures value { (parts : List Part) → AreNoted parts fields.now →
        IfOk result (λ text. cow_str_bytes text ≡ said_text (field letter parts)) }
    ensures lends { (parts : List Part) → AreNoted parts fields.now → AreUtf8 parts → IsOk result }
{
    utf8_in(alloc, bytes_unless_dash(fields.text(letter)))
}

/// What a field says in which a dash says nothing: nothing where it is absent.
fn bytes_unless_dash(text: Option<&[u8]>) -> &[u8]
    ensures { result.now ≡ said (option_copied text.entry) }
{
    match text {
        Some(bytes) if bytes != ABSENT => bytes,
        _ => &[],
    }
}

/// The bytes as text: borrowed where they are UTF-8, and else with U+FFFD for what isn't.
fn utf8_in(alloc: Global, bytes: &[u8]) -> Result<CowStr<'_, Global>, NoMemory>
    ensures value { IfOk result (λ text. cow_str_bytes text ≡ utf8_lossy bytes.now) }
    ensures lends { IsUtf8 bytes.now → IsLent result }
{
    match from_utf8(bytes) {
        Ok(text) => Ok(CowStr::Borrowed(text)),
        Err(_) => Ok(CowStr::Owned(String::from_utf8_lossy(alloc, bytes)?)),
    }
}

/// The URL of a target and a query.
fn url_of<'a>(
    alloc: Global,
    setup: &LineSetup,
    target: &'a [u8],
    query: &'a [u8],
) -> Result<CowStr<'a, Global>, NoMemory>
    ensures value { IfOk result (λ url. cow_str_bytes url
        ≡ url_text (decodings setup.now) (kept_of setup.now (with_query target.now query.now))) }
    ensures lends { query.now ≡ [] → IsUtf8 (kept_of setup.now target.now) →
        ¬ Contains (kept_of setup.now target.now) percent_sign → IsOk result }
{
    if query.is_empty() {
        return decoded_in(alloc, setup, kept_in(setup, target));
    }
    let whole = join_query(alloc, target, query)?;
    let url = decoded_in(alloc, setup, kept_in(setup, &whole))?;
    Ok(CowStr::Owned(url.into_owned(alloc)?))
}

/// The bytes decoded as often as URLs are, and made UTF-8. Memory is taken only where they aren't UTF-8 or hold a percent sign.
fn decoded_in<'a>(
    alloc: Global,
    setup: &LineSetup,
    bytes: &'a [u8],
) -> Result<CowStr<'a, Global>, NoMemory>
    ensures value { IfOk result (λ url. cow_str_bytes url ≡ url_text (decodings setup.now) bytes.now) }
    ensures lends { IsUtf8 bytes.now → ¬ Contains bytes.now percent_sign → IsOk result }
{
    if memchr(PERCENT_SIGN, bytes).is_none() {
        return utf8_in(alloc, bytes);
    }
    let times = if setup.double_decode { 2 } else { 1 };
    decoded_url(alloc, bytes, times)
}

/// The target without its query where queries aren't asked for.
fn kept_in<'a>(setup: &LineSetup, target: &'a [u8]) -> &'a [u8]
    ensures { result.now ≡ kept_of setup.now target.now }
{
    if setup.no_query {
        without_query(target)
    } else {
        target
    }
}

/// A target with a query after it.
fn join_query(alloc: Global, target: &[u8], query: &[u8]) -> Result<Vec<u8>, NoMemory>
    ensures { IfOk result (λ url. url.items ≡ with_query target.now query.now) }
{
    let mut url = Vec::from_slice(alloc, target)?;
    if query.is_empty() {
        return Ok(url);
    }
    if query[0] != QUESTION_MARK {
        url.push(QUESTION_MARK)?;
    }
    url.extend_from_slice(query)?;
    Ok(url)
}
