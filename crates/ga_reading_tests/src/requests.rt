use ga_base::{Text, Texts};
use ga_cases::hold;
use ga_requests::{decode_url, is_static, keyphrase, referring_site, split_request};
use std::alloc::Global;
use std::test::Fail;

/// Requests, and the method, target and protocol of each.
const REQUESTS: &str = "\
## request lines
GET /a HTTP/1.1 => GET|/a|HTTP/1.1|
GET /a b HTTP/2.0 => GET|/a b|HTTP/2.0|
GET   HTTP/1.1 => GET| |HTTP/1.1|
GET /a HTTP/1.1 HTTP/2 => GET|/a HTTP/1.1|HTTP/2|
MKCALENDAR * HTTP/3 => MKCALENDAR|*|HTTP/3|
## texts that are none
 => |||
- => |-||
  => | ||
GET /a => |GET /a||
GET HTTP/1.1 => |GET HTTP/1.1||
 GET /a HTTP/1.1 => | GET /a HTTP/1.1||
GET /a HTTP/1.1  => |GET /a HTTP/1.1 ||
get /a HTTP/1.1 => |get /a HTTP/1.1||
GET /a HTTP/1.2 => |GET /a HTTP/1.2||
";

/// The parts of a request.
fn parts_said(alloc: Global, text: &str) -> Result<String, Fail> {
    let parts = split_request(text.as_bytes());
    let mut said = String::new(alloc);
    for part in [parts.method, parts.target, parts.protocol] {
        said.push_str(Text::from_utf8_lossy(alloc, part)?.as_str())?;
        said.push('|')?;
    }
    Ok(said)
}

#[test]
fn requests_are_split(rt: HostRuntime) -> Result<(), Fail> {
    hold(rt.alloc(), REQUESTS, parts_said)
}

/// URLs, and their texts after decoding once and twice.
const ESCAPES: &str = "\
## escapes of UTF-8
/caf%C3%A9 => /café => /café
/caf%c3%a9 => /café => /café
## escapes of escapes
/%2541 => /%41 => /A
/%%34%31 => /%41 => /A
/%25FF => /%FF => /\u{fffd}
## what stays
/%3Fa+b => /?a+b => /?a+b
/plain => /plain => /plain
## half an escape
/a%4 => /a%4 => /a%4
/a%4g => /a%4g => /a%4g
## bytes that aren't UTF-8
/%FF => /\u{fffd} => /\u{fffd}
/%E2%82/ => /\u{fffd}/ => /\u{fffd}/
/%FF%FE => /\u{fffd}\u{fffd} => /\u{fffd}\u{fffd}
";

/// A URL, decoded once and twice.
fn decoded(alloc: Global, url: &str) -> Result<String, Fail> {
    let once = decode_url(alloc, url.as_bytes(), 1)?;
    let twice = decode_url(alloc, url.as_bytes(), 2)?;
    Ok(format!(in alloc; "{} => {}", once.as_str(), twice.as_str())?)
}

#[test]
fn escapes_are_decoded(rt: HostRuntime) -> Result<(), Fail> {
    hold(rt.alloc(), ESCAPES, decoded)
}

/// URLs, and whether each is of a static file where queries aren't asked for, where they are, and with the endings `.own` and `~`
/// of the user's.
const URLS: &str = "\
## endings and queries
/a.css => true true true
/a.css?v=1 => false true false
/a?b.css => false false false
/a.css/b => false false false
/a.CSS => false false false
/a.min.js => true true true
/.woff2 => true true true
/a.woff3 => false false false
## the user's endings
/a.own => false false true
/a~ => false false true
/a.own?b => false false false
/a.own/b => false false false
";

/// Whether a URL is of a static file, in the three ways of the table.
fn is_static_said(alloc: Global, url: &str) -> Result<String, Fail> {
    let none = Texts::new(alloc);
    let mut own = Texts::new(alloc);
    own.push(Text::of(alloc, ".own")?)?;
    own.push(Text::of(alloc, "~")?)?;
    let url = Text::of(alloc, url)?;
    let (plain, asked) = (is_static(&url, &none, false), is_static(&url, &none, true));
    Ok(format!(in alloc; "{plain} {asked} {}", is_static(&url, &own, false))?)
}

#[test]
fn static_files_have_an_ending(rt: HostRuntime) -> Result<(), Fail> {
    hold(rt.alloc(), URLS, is_static_said)
}

/// Referrers, the site that each names, and the phrase that was searched for there.
const REFERRERS: &str = "\
## a search
https://www.google.com/search?hl=en&q=rust+hash%20map => [www.google.com][rust hash map]
## sites
http://example.org => [example.org]none
http://example.org:8080/a => [example.org:8080]none
https://www.google.com:443/search?q=a => [www.google.com:443][a]
http://example.org#a?b => [example.org]none
http://example.org?u=http://b.org/ => [example.org]none
http://bücher.example/ => [bücher.example]none
a/b://c => [c]none
## no site
http:///a => nonenone
example.org/a => nonenone
- => nonenone
 => nonenone
## phrases
https://www.google.com/search?q=a&q=b => [www.google.com][a]
https://www.google.com/search?q=&q=b => [www.google.com][b]
https://www.google.com/search?%71=a => [www.google.com][a]
https://www.google.com/?q=a#b => [www.google.com][a]
https://www.google.com/#a?q=b => [www.google.com][b]
https://www.google.com?q=a => [www.google.com][a]
https://www.google.co.uk/?q=caf%C3%A9 => [www.google.co.uk][café]
https://www.google.com/?q=%FF => [www.google.com][\u{fffd}]
## no phrase
https://www.google.com/search => [www.google.com]none
https://www.google.com/search?hl=q => [www.google.com]none
https://www.google.com/?q => [www.google.com]none
https://www.google.com/?Q=a => [www.google.com]none
https://www.google.com/#q=a => [www.google.com]none
https://www.google.com/?#q=a => [www.google.com]none
## sites that aren't Google's
https://example.org/google.com?q=a => [example.org]none
https://www.googlexcom/?q=a => [www.googlexcom]none
http://example.org/?u=https://www.google.com/&q=a => [example.org]none
";

/// A text that was found, in brackets.
fn bracketed(alloc: Global, found: Option<Text>) -> Result<String, Fail> {
    match found {
        Some(text) => Ok(format!(in alloc; "[{}]", text.as_str())?),
        None => Ok(String::from_str(alloc, "none")?),
    }
}

/// The site and the phrase of a referrer.
fn referrer_said(alloc: Global, referrer: &str) -> Result<String, Fail> {
    let referrer = Text::of(alloc, referrer)?;
    let mut said = bracketed(alloc, referring_site(alloc, &referrer)?)?;
    said.push_str(bracketed(alloc, keyphrase(alloc, &referrer)?)?.as_str())?;
    Ok(said)
}

#[test]
fn referrers_name_sites_and_phrases(rt: HostRuntime) -> Result<(), Fail> {
    hold(rt.alloc(), REFERRERS, referrer_said)
}
