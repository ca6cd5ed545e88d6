ghost use Rattle.std.specs.Prelude.{◌≡◌, ◌≢◌, [], ◌∷◌, IfOk, OnErr, IfSome, IfNone, Some, None, option_map};
ghost use Rattle.std.specs.List.{before_first};
ghost use Rattle.ga_requests.specs.Referrers.{SiteIs, ends_site, IsGoogle, KeyphraseIs};
ghost use Rattle.ga_requests.specs.Referrers.{query_of, pairs_of, PhraseIs};
ghost use Rattle.ga_requests.specs.Steps.{text_of};

use crate::before_byte::{NUMBER_SIGN, QUESTION_MARK, before_byte};
use form_urlencoded::{decode, raw_pairs};
use ga_base::{NoMemory, Text};
use memchr::{memchr, memchr3};
use std::alloc::Global;

/// What stands between the scheme and the site of a referrer.
const AUTHORITY_MARK: &str = "://";

/// What the sites of Google's search hold.
const GOOGLE: &str = "google.";

/// The name of the pair that holds what was searched for.
const PHRASE_NAME: &str = "q";

/// The byte that begins a path.
const SLASH: u8 = b'/';

/// What a referrer says of where a request came from. The site is a piece of the referrer itself.
#[derive(Debug, Drop)]
pub struct Referral<'a> {
    /// The site that it names, with its port, as `site_of` answers it.
    pub site: Option<&'a str>,
    /// The phrase that was searched for at that site, as `keyphrase` answers it.
    pub phrase: Option<Text>,
}

/// The site and the key phrase of a referrer by one look at it. The site is borrowed, and memory is asked for only
/// where the site is one of Google's and the query has a pair.
pub fn referral_of(alloc: Global, referrer: &str) -> Result<Referral<'_>, NoMemory>
    ensures site { IfOk result
        (λ referral. SiteIs referrer.now (option_map (λ site. site.now) referral.site)) }
    ensures phrase { IfOk result (λ referral. KeyphraseIs referrer.now referral.phrase) }
    ensures no_memory_site { OnErr result (IsGoogle referrer.now) }
    ensures no_memory_pair { OnErr result (pairs_of (query_of referrer.now) ≢ []) }
{
    let Some(site) = site_of(referrer) else {
        return Ok(Referral {
            site: None,
            phrase: None,
        });
    };
    if !site.contains(GOOGLE) {
        return Ok(Referral {
            site: Some(site),
            phrase: None,
        });
    }
    let phrase = first_phrase(alloc, query_in(referrer.as_bytes()))?;
    Ok(Referral {
        site: Some(site),
        phrase,
    })
}

/// The site that a referrer names, with its port, borrowed from it: what follows the first `://`, up to the
/// first `/`, `?`, `#` or the end (own profile). `None` exactly where there is no `://` or nothing is there.
pub fn site_of(referrer: &str) -> Option<&str>
    ensures some { IfSome result (λ site. SiteIs referrer.now (Some site.now)) }
    ensures none { IfNone result (SiteIs referrer.now None) }
{
    let (_, rest) = referrer.split_once(AUTHORITY_MARK)?;
    let site = site_in_front(rest);
    if site.is_empty() { None } else { Some(site) }
}

/// The site that a referrer names, as `site_of` answers it, in a text of its own.
pub fn referring_site(alloc: Global, referrer: &Text) -> Result<Option<Text>, NoMemory>
    ensures { IfOk result (SiteIs referrer.now) }
{
    match site_of(referrer.as_str()) {
        Some(site) => Ok(Some(Text::of(alloc, site)?)),
        None => Ok(None),
    }
}

/// The phrase that was searched for: where the referrer's site holds `google.`, the decoded value of the first pair
/// named `q` with a value that isn't empty, in what follows the first `?` of the whole referrer and before the
/// first `#` after it. The pairs are those of HTML forms (URL Standard, section 5). `None` exactly where the site holds
/// no `google.` or there is no such pair. Only Google's searches are looked at (own profile).
pub fn keyphrase(alloc: Global, referrer: &Text) -> Result<Option<Text>, NoMemory>
    ensures phrase { IfOk result (KeyphraseIs referrer.now) }
    ensures no_memory_site { OnErr result (IsGoogle referrer.now) }
    ensures no_memory_pair { OnErr result (pairs_of (query_of referrer.now) ≢ []) }
{
    let Referral { phrase, .. } = referral_of(alloc, referrer.as_str())?;
    Ok(phrase)
}

/// The site that begins the text.
fn site_in_front(rest: &str) -> &str
    ensures { result.now ≡ before_first ends_site rest.now }
{
    match memchr3(SLASH, QUESTION_MARK, NUMBER_SIGN, rest.as_bytes()) {
        Some(end) => &rest[..end],
        None => rest,
    }
}

/// The query of a referrer.
fn query_in(referrer: &[u8]) -> &[u8]
    ensures { result.now ≡ query_of referrer.now }
{
    match memchr(QUESTION_MARK, referrer) {
        Some(at) => before_byte(&referrer[at + 1..], NUMBER_SIGN),
        None => &[],
    }
}

/// The value of the query's first pair that is named `q` and has a value.
fn first_phrase(alloc: Global, query: &[u8]) -> Result<Option<Text>, NoMemory>
    ensures phrase { IfOk result (PhraseIs (pairs_of query.now)) }
    ensures no_memory { OnErr result (pairs_of query.now ≢ []) }
{
    for (name, value) in raw_pairs(query) {
        if let Some(phrase) = phrase_in(alloc, name, value)? {
            return Ok(Some(phrase));
        }
    }
    Ok(None)
}

/// The phrase in one pair that is still encoded.
fn phrase_in(alloc: Global, name: &[u8], value: &[u8]) -> Result<Option<Text>, NoMemory>
    ensures { IfOk result (PhraseIs ((text_of name.now, text_of value.now) ∷ [])) }
{
    if decode(alloc, name)?.as_str() != PHRASE_NAME {
        return Ok(None);
    }
    let phrase = decode(alloc, value)?;
    if phrase.as_str().is_empty() {
        return Ok(None);
    }
    Ok(Some(Text::from_string(alloc, phrase.into_owned(alloc)?)?))
}
