//! Addresses, requests, referrers and agents.

ghost use Rattle.std.specs.Prelude.{◌<◌, ◌≤◌};

use ga_agents::{Agent, RuleFault, Rules};
use ga_base::{NoMemory, Text, Texts};
use ga_hosts::{Address, BadRange, Range, Ranges, address_of, is_address};
use ga_requests::{Parts, decode_url, is_static, keyphrase, referring_site, split_request};
use std::alloc::Global;

/// An address of each family.
pub const ADDRESSES: [Address; 2] = [Address::V4(1), Address::V6(1)];

/// The address that a text is.
pub fn address_in(text: &[u8]) -> Option<Address> {
    address_of(text)
}

/// Whether a text is an address.
pub fn is_host(text: &[u8]) -> bool {
    is_address(text)
}

/// A range of addresses, and the place of its fault.
pub fn range_in(text: &[u8]) -> Result<Range, u64> {
    match Range::read(text) {
        Ok(Range { low, high }) => Ok(Range { low, high }),
        Err(BadRange { at }) => Err(at),
    }
}

/// No range.
pub fn no_range(alloc: Global) -> Ranges {
    Ranges::new(alloc)
}

/// A range more.
pub fn push_range(ranges: &mut Ranges, range: Range) -> Result<(), NoMemory> {
    ranges.push(range)
}

/// Whether a host is in one of these.
pub fn holds(ranges: &Ranges, host: &[u8]) -> bool {
    ranges.holds(host)
}

/// The parts of a request.
pub fn parts_of(text: &[u8]) -> (&[u8], &[u8], &[u8]) {
    let Parts {
        method,
        target,
        protocol,
    } = split_request(text);
    (method, target, protocol)
}

/// A URL, percent-decoded.
pub fn url_of(alloc: Global, text: &[u8], times: u32) -> Result<Text, NoMemory>
    requires some { 0 < times }
    requires few { times ≤ 2 }
{
    decode_url(alloc, text, times)
}

/// Whether a URL is that of a static file.
pub fn is_static_file(url: &Text, statics: &Texts, all: bool) -> bool {
    is_static(url, statics, all)
}

/// The site of a referrer.
pub fn site_of(alloc: Global, referrer: &Text) -> Result<Option<Text>, NoMemory> {
    referring_site(alloc, referrer)
}

/// The phrase of a referrer.
pub fn phrase_of(alloc: Global, referrer: &Text) -> Result<Option<Text>, NoMemory> {
    keyphrase(alloc, referrer)
}

/// The faults of a browsers file.
pub const RULE_FAULTS: [RuleFault; 2] = [RuleFault::RuleFault { line: 1 }, RuleFault::NoMemory];

/// The rules of a browsers file.
pub fn rules_in(alloc: Global, text: &[u8]) -> Result<Rules, RuleFault> {
    Rules::read(alloc, text)
}

/// The rules without one.
pub fn builtin_rules(alloc: Global) -> Rules {
    Rules::builtin(alloc)
}

/// What an agent is.
pub fn class_of(rules: &Rules, agent: &Text) -> Result<Agent, NoMemory> {
    rules.classify(agent)
}

/// Whether it is a crawler, by its class.
pub fn is_crawler_of(agent: &Agent) -> bool {
    let Agent {
        browser: _,
        category: _,
        system: _,
        system_group: _,
        crawler,
    } = agent;
    *crawler
}

/// Whether an agent is a crawler.
pub fn is_crawler(rules: &Rules, agent: &Text) -> bool {
    rules.is_crawler(agent)
}
