ghost use Rattle.std.specs.Prelude.{◌≤◌, IfSome};
ghost use Rattle.ga_base.specs.Records.{record_in};
ghost use Rattle.ga_panels.specs.Facts.{CanHaveKeys};

use ga_agents::Rules;
use ga_base::{DateSpec, HourSpec, Key, Panel, PanelSet, Record, RecordRef, Statuses, Text, Texts};
use ga_cases::hold;
use ga_hosts::{Range, Ranges};
use ga_panels::{PanelSetup, RecordFacts, is_excluded, keys_of, visitor_of};
use std::alloc::Global;
use std::test::Fail;

/// The day of the records.
const DAY: u32 = 20_240_229;

/// Records, and of each whether it is excluded, a visit or nobody's visit, and its keys: panel, parent, data, method and
/// protocol. A record's cells are the options that are given, host, minute, method, protocol, URL, status, referrer, agent,
/// virtual host, user, cache status, MIME type and TLS. Excluded are 198.51.100.0 to 198.51.100.9 and status 503.
const RECORDS: &str = "\
## all that a combined line says
|203.0.113.7|485|GET|HTTP/1.1|/index.html|200|https://www.example.org/start|Mozilla/5.0 (X11; Linux x86_64; rv:124.0) Gecko/20100101 Firefox/124.0||||| => visit Visitors,,20240229,,;Requests,,/index.html,GET,HTTP/1.1;Hosts,,203.0.113.7,,;Os,Linux,,,;Os,Linux,Linux,,;Browsers,Firefox,,,;Browsers,Firefox,Firefox/124.0,,;VisitTimes,,08,,;Referrers,,https://www.example.org/start,,;ReferringSites,,www.example.org,,;StatusCodes,2xx Success,,,;StatusCodes,2xx Success,200,,;
## virtual host, user, cache status, MIME type and TLS settings
|192.0.2.1|0|POST|HTTP/2.0|/form|201||curl/8.5|www.example.com|frank|HIT|text/html|TLSv1.2 => visit Visitors,,20240229,,;Requests,,/form,POST,HTTP/2.0;Hosts,,192.0.2.1,,;Os,Unknown,,,;Os,Unknown,Unknown,,;Browsers,Others,,,;Browsers,Others,curl/8.5,,;VisitTimes,,00,,;VirtualHosts,,www.example.com,,;StatusCodes,2xx Success,,,;StatusCodes,2xx Success,201,,;RemoteUser,,frank,,;CacheStatus,,HIT,,;MimeType,text,,,;MimeType,text,text/html,,;TlsType,,TLSv1.2,,;
## static files, and queries
|192.0.2.1|59|GET|HTTP/1.1|/a.css|304||||||| => visit Visitors,,20240229,,;RequestsStatic,,/a.css,GET,HTTP/1.1;Hosts,,192.0.2.1,,;VisitTimes,,00,,;StatusCodes,3xx Redirection,,,;StatusCodes,3xx Redirection,304,,;
|192.0.2.1|60|GET|HTTP/1.1|/a.css?v=1|200||||||| => visit Visitors,,20240229,,;Requests,,/a.css?v=1,GET,HTTP/1.1;Hosts,,192.0.2.1,,;VisitTimes,,01,,;StatusCodes,2xx Success,,,;StatusCodes,2xx Success,200,,;
all_static|192.0.2.1|1439|GET|HTTP/1.1|/a.css?v=1|200||||||| => visit Visitors,,20240229,,;RequestsStatic,,/a.css?v=1,GET,HTTP/1.1;Hosts,,192.0.2.1,,;VisitTimes,,23,,;StatusCodes,2xx Success,,,;StatusCodes,2xx Success,200,,;
## what was not found
|192.0.2.1||GET|HTTP/1.1|/x|404||||||| => nobody Visitors,,20240229,,;NotFound,,/x,GET,HTTP/1.1;Hosts,,192.0.2.1,,;StatusCodes,4xx Client Errors,,,;StatusCodes,4xx Client Errors,404,,;
count_4xx|192.0.2.1||GET|HTTP/1.1|/x|404||||||| => visit Visitors,,20240229,,;NotFound,,/x,GET,HTTP/1.1;Hosts,,192.0.2.1,,;StatusCodes,4xx Client Errors,,,;StatusCodes,4xx Client Errors,404,,;
|192.0.2.1||GET|HTTP/1.1|/a.css|404||||||| => nobody Visitors,,20240229,,;NotFound,,/a.css,GET,HTTP/1.1;Hosts,,192.0.2.1,,;StatusCodes,4xx Client Errors,,,;StatusCodes,4xx Client Errors,404,,;
## status 444
|192.0.2.1||||/x|444||||||| => nobody Visitors,,20240229,,;Requests,,/x,,;Hosts,,192.0.2.1,,;StatusCodes,4xx Client Errors,,,;StatusCodes,4xx Client Errors,444,,;
as_404|192.0.2.1||||/x|444||||||| => nobody Visitors,,20240229,,;NotFound,,/x,,;Hosts,,192.0.2.1,,;StatusCodes,4xx Client Errors,,,;StatusCodes,4xx Client Errors,444,,;
## few fields
|::1||||-|||||||| => visit Visitors,,20240229,,;Requests,,-,,;Hosts,,::1,,;
|192.0.2.1|||||100||||||| => visit Visitors,,20240229,,;Requests,,,,;Hosts,,192.0.2.1,,;StatusCodes,1xx Informational,,,;StatusCodes,1xx Informational,100,,;
|192.0.2.1||||/|500||||||| => visit Visitors,,20240229,,;Requests,,/,,;Hosts,,192.0.2.1,,;StatusCodes,5xx Server Errors,,,;StatusCodes,5xx Server Errors,500,,;
## crawlers, counted and excluded
|192.0.2.1||||/|||Mozilla/5.0 (compatible; Googlebot/2.1; +http://www.google.com/bot.html)||||| => visit Visitors,,20240229,,;Requests,,/,,;Hosts,,192.0.2.1,,;Os,Unknown,,,;Os,Unknown,Unknown,,;Browsers,Crawlers,,,;Browsers,Crawlers,Googlebot/2.1,,;
ignore_crawlers|192.0.2.1||||/|||Mozilla/5.0 (compatible; Googlebot/2.1; +http://www.google.com/bot.html)||||| => excluded 
ignore_crawlers|192.0.2.1||||/|||Foo Windows NT 6.1||||| => visit Visitors,,20240229,,;Requests,,/,,;Hosts,,192.0.2.1,,;Os,Windows,,,;Os,Windows,Windows 7,,;Browsers,Unknown,,,;Browsers,Unknown,Unknown,,;
## referrers
|192.0.2.1||||/||https://www.google.com/search?hl=en&q=rust+hash%20map|||||| => visit Visitors,,20240229,,;Requests,,/,,;Hosts,,192.0.2.1,,;Referrers,,https://www.google.com/search?hl=en&q=rust+hash%20map,,;ReferringSites,,www.google.com,,;Keyphrases,,rust hash map,,;
|192.0.2.1||||/||/local|||||| => visit Visitors,,20240229,,;Requests,,/,,;Hosts,,192.0.2.1,,;Referrers,,/local,,;
## MIME types
|192.0.2.1||||/|||||||/x| => visit Visitors,,20240229,,;Requests,,/,,;Hosts,,192.0.2.1,,;MimeType,Unknown,,,;MimeType,Unknown,/x,,;
|192.0.2.1||||/|||||||a/b/c| => visit Visitors,,20240229,,;Requests,,/,,;Hosts,,192.0.2.1,,;MimeType,a,,,;MimeType,a,a/b/c,,;
|192.0.2.1||||/|||||||html| => visit Visitors,,20240229,,;Requests,,/,,;Hosts,,192.0.2.1,,;MimeType,html,,,;MimeType,html,html,,;
## one panel alone
only_hosts|192.0.2.1|1|GET|HTTP/1.1|/|200|/r|curl/8.5||||a/b| => visit Visitors,,20240229,,;Hosts,,192.0.2.1,,;
## the hour and the minute of the day, and tens of minutes; without a time there is the day alone
only_hosts,by_hour|192.0.2.1|485||||||||||| => visit Visitors,,20240229,,;Visitors,20240229,2024022908,,;Hosts,,192.0.2.1,,;
only_hosts,by_minute|192.0.2.1|485||||||||||| => visit Visitors,,20240229,,;Visitors,20240229,202402290805,,;Hosts,,192.0.2.1,,;
only_hosts,by_minute|192.0.2.1|1439||||||||||| => visit Visitors,,20240229,,;Visitors,20240229,202402292359,,;Hosts,,192.0.2.1,,;
only_hosts,by_minute|192.0.2.1|||||||||||| => visit Visitors,,20240229,,;Hosts,,192.0.2.1,,;
by_tens|192.0.2.1|535|||/|||||||| => visit Visitors,,20240229,,;Requests,,/,,;Hosts,,192.0.2.1,,;VisitTimes,,08:50,,;
by_tens,by_hour|192.0.2.1|9|||/|||||||| => visit Visitors,,20240229,,;Visitors,20240229,2024022900,,;Requests,,/,,;Hosts,,192.0.2.1,,;VisitTimes,,00:00,,;
by_tens|192.0.2.1||||/|||||||| => visit Visitors,,20240229,,;Requests,,/,,;Hosts,,192.0.2.1,,;
## excluded addresses and statuses
|198.51.100.9||||/|200||||||| => excluded 
|198.51.100.10||||/|503||||||| => excluded 
|198.51.100.10||||/|||||||| => visit Visitors,,20240229,,;Requests,,/,,;Hosts,,198.51.100.10,,;
";

/// The first cell of a row, and what follows it.
fn cut(row: &str) -> (&str, &str) {
    row.split_once('|').unwrap_or((row, ""))
}

/// A number of these, where the text is one.
fn number(text: &str, least: u32, most: u32) -> Option<u32>
    ensures { IfSome result (λ n. (least ≤ n) × (n ≤ most)) }
{
    match text.parse() {
        Ok(number) if least <= number && number <= most => Some(number),
        _ => None,
    }
}

/// The record of a row, without the options before it.
fn record_of(row: &str) -> RecordRef<'_>
    ensures { CanHaveKeys (record_in result) }
{
    let (host, rest) = cut(row);
    let (minute, rest) = cut(rest);
    let (method, rest) = cut(rest);
    let (protocol, rest) = cut(rest);
    let (url, rest) = cut(rest);
    let (status, rest) = cut(rest);
    let (referrer, rest) = cut(rest);
    let (agent, rest) = cut(rest);
    let (vhost, rest) = cut(rest);
    let (user, rest) = cut(rest);
    let (cache, rest) = cut(rest);
    let (mime, tls) = cut(rest);
    RecordRef {
        host,
        date: DAY,
        minute: number(minute, 0, 1439),
        method,
        protocol,
        url,
        status: number(status, 100, 599).unwrap_or(0),
        bytes: 512,
        micros: None,
        referrer,
        agent,
        vhost,
        user,
        cache,
        mime,
        tls,
    }
}

/// The panels of a row's options.
fn panels_of(options: &str) -> PanelSet {
    if !options.contains("only_hosts") {
        return PanelSet::all();
    }
    let mut panels = PanelSet::none();
    panels.set(Panel::Hosts, true);
    panels
}

/// How finely a row's options tell days.
fn date_spec_of(options: &str) -> DateSpec {
    if options.contains("by_minute") {
        DateSpec::Minute
    } else if options.contains("by_hour") {
        DateSpec::Hour
    } else {
        DateSpec::Date
    }
}

/// How finely a row's options tell the time of the day.
fn hour_spec_of(options: &str) -> HourSpec {
    if options.contains("by_tens") {
        HourSpec::Tens
    } else {
        HourSpec::Hour
    }
}

/// The setup of a row's options.
fn setup_of(alloc: Global, options: &str) -> Result<PanelSetup, Fail> {
    let mut ranges = Ranges::new(alloc);
    if let Ok(range) = Range::read(b"198.51.100.0-198.51.100.9") {
        ranges.push(range)?;
    }
    let mut ignore_status = Statuses::new(alloc);
    ignore_status.push(503)?;
    Ok(PanelSetup {
        rules: Rules::builtin(alloc),
        ranges,
        statics: Texts::new(alloc),
        all_static: options.contains("all_static"),
        ignore_crawlers: options.contains("ignore_crawlers"),
        ignore_status,
        panels: panels_of(options),
        count_4xx: options.contains("count_4xx"),
        as_404: options.contains("as_404"),
        date_spec: date_spec_of(options),
        hour_spec: hour_spec_of(options),
    })
}

/// Adds a key, as the table writes it.
fn show(alloc: Global, key: &Key, shown: &mut String) -> Result<(), Fail> {
    let text = format!(in alloc;
        "{:?},{},{},{},{};",
        key.panel,
        key.parent.as_str(),
        key.label.as_str(),
        key.method.as_str(),
        key.protocol.as_str()
    )?;
    shown.push_str(text.as_str())?;
    Ok(())
}

/// Under which keys the record of a case is counted, and whether it is a visit.
fn said(alloc: Global, case: &str) -> Result<String, Fail> {
    let (options, row) = cut(case);
    let setup = setup_of(alloc, options)?;
    let facts = RecordFacts::of(alloc, &setup, record_of(row))?;
    if facts.is_excluded() {
        return Ok(String::from_str(alloc, "excluded ")?);
    }
    let who = if facts.is_visit() {
        "visit "
    } else {
        "nobody "
    };
    let mut shown = String::from_str(alloc, who)?;
    for key in facts.keys(alloc)?.items() {
        show(alloc, key, &mut shown)?;
    }
    Ok(shown)
}

#[test]
fn records_are_counted_under_their_keys(rt: HostRuntime) -> Result<(), Fail> {
    hold(rt.alloc(), RECORDS, said)
}

/// A record of a host alone.
fn record_from(host: Text) -> Record
    ensures { CanHaveKeys result }
{
    Record {
        host,
        date: DAY,
        minute: None,
        method: Text::new(),
        protocol: Text::new(),
        url: Text::new(),
        status: 404,
        bytes: 0,
        micros: None,
        referrer: Text::new(),
        agent: Text::new(),
        vhost: Text::new(),
        user: Text::new(),
        cache: Text::new(),
        mime: Text::new(),
        tls: Text::new(),
    }
}

#[test]
fn owned_records_are_told_of(rt: HostRuntime) -> Result<(), Fail> {
    let alloc = rt.alloc();
    let setup = setup_of(alloc, "count_4xx")?;
    let rec = record_from(Text::of(alloc, "192.0.2.1")?);
    assert!(rt; !is_excluded(&setup, &rec));
    assert!(rt; visitor_of(&setup, &rec)?.is_some());
    assert_eq!(rt; keys_of(alloc, &setup, &rec)?.items().len(), 5);
    Ok(())
}
