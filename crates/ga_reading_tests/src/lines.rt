use ga_base::{FormatFault, Line, Record, Text};
use ga_cases::hold;
use ga_dates::{DEFAULT_DATE, DEFAULT_TIME, compile_date, compile_time};
use ga_format::format_text;
use ga_line::{LineSetup, compile_shape, read_line};
use std::alloc::Global;
use std::test::Fail;

// Each table has lines of a log, and what each says: the host, the date, the minute, the method, the protocol, the URL, the status,
// the size, the time taken, the referrer, the agent, the virtual host, the user, the cache status, the MIME type and the TLS
// settings. In a line `!` represents a byte that no UTF-8 text has.

/// Lines in the common format.
const COMMON_LINES: &str = "\
## comments and empty lines
# note => skipped
 => skipped
## lines of a log
192.0.2.1 - - [01/Jan/2024:00:00:00 +0000] \"GET /a HTTP/1.1\" 200 10 => 192.0.2.1|20240101|Some(0)|GET|HTTP/1.1|/a|200|10|None|||||||
192.0.2.1 - - [01/Jan/2024:00:00:00 +0000] \"-\" 408 - => 192.0.2.1|20240101|Some(0)|||-|408|0|None|||||||
## a size with more after it, and none
h - - [01/Jan/2024:00:00:00 +0000] \"r\" 200 512 \"https://a.b/\" \"Mozilla/5.0\" => h|20240101|Some(0)|||r|200|0|None|||||||
h - - [01/Jan/2024:00:00:00 +0000] \"r\" 200 10  => h|20240101|Some(0)|||r|200|0|None|||||||
h - - [01/Jan/2024:00:00:00 +0000] \"r\" 200 => h|20240101|Some(0)|||r|200|0|None|||||||
## quotes within quotes, and no end of them
h - - [01/Jan/2024:00:00:00 +0000] \"GET /\\\" HTTP\" 200 7 => h|20240101|Some(0)|||GET /\\\" HTTP|200|7|None|||||||
h - - [01/Jan/2024:00:00:00 +0000] \"GET /a\\ => h|20240101|Some(0)|||GET /a\\|0|0|None|||||||
## bytes that aren't UTF-8
h - - [01/Jan/2024:00:00:00 +0000] \"!\r\" 200 0 => h|20240101|Some(0)|||\u{fffd}\r|200|0|None|||||||
## the greatest size
h - - [01/Jan/2024:00:00:00 +0000] \"r\" 200 1000000000000000000 => h|20240101|Some(0)|||r|200|1000000000000000000|None|||||||
h - - [01/Jan/2024:00:00:00 +0000] \"r\" 200 1000000000000000001 => failed
## lines without a field that each line has
192.0.2.1 => failed
h - - [:00:00:00 +0000] \"r\" 200 1 => failed
h - - [01/Jan/2024 => failed
h - - [01/Jan/2024:00:00:00 +0000] \"\" 200 1 => failed
h - - [01/Jan/2024:00:00:00 +0000]\"r\" 200 1 => failed
## a day that there isn't
h - - [31/Feb/2024:00:00:00 +0000] \"r\" 200 1 => failed
## the least status and the greatest
h - - [01/Jan/2024:00:00:00 +0000] \"r\" 100 1 => h|20240101|Some(0)|||r|100|1|None|||||||
h - - [01/Jan/2024:00:00:00 +0000] \"r\" 599 => h|20240101|Some(0)|||r|599|0|None|||||||
h - - [01/Jan/2024:00:00:00 +0000] \"r\" 99 1 => failed
h - - [01/Jan/2024:00:00:00 +0000] \"r\" 600 1 => failed
";

/// Lines in the combined format.
const COMBINED_LINES: &str = "\
## a referrer and an agent
203.0.113.7 - - [12/Mar/2024:08:05:09 +0000] \"GET /index.html HTTP/1.1\" 200 512 \"https://www.example.org/start\" \"Mozilla/5.0 (X11; Linux x86_64)\" => 203.0.113.7|20240312|Some(485)|GET|HTTP/1.1|/index.html|200|512|None|https://www.example.org/start|Mozilla/5.0 (X11; Linux x86_64)|||||
## neither
h - - [01/Jan/2024:00:00:00 +0000] \"r\" 200 10 => h|20240101|Some(0)|||r|200|10|None|||||||
## quotes within quotes, and dashes
h - - [01/Jan/2024:00:00:00 +0000] \"r\" 200 5 \"-\" \"Foo \\\"bar\\\" Baz\" => h|20240101|Some(0)|||r|200|5|None||Foo \\\"bar\\\" Baz|||||
h - - [01/Jan/2024:00:00:00 +0000] \"r\" 200 5 \"a\" \"-\" => h|20240101|Some(0)|||r|200|5|None|a||||||
h - - [01/Jan/2024:00:00:00 +0000] \"r\" 200 5 \"--\" \"!\" => h|20240101|Some(0)|||r|200|5|None|--|\u{fffd}|||||
";

/// Lines with the date and the time of day in one field.
const MOMENTS: &str = "\
## a date and a time in one field
h [20170801235000] \"r\" => h|20170801|Some(1430)|||r|0|0|None|||||||
h [20170801] \"r\" => failed
h [20170801246000] \"r\" => failed
";

/// Lines with the time of day in the last field.
const TIMES: &str = "\
## times of day, and none
h 01/Jan/2024 \"r\" 23:59:60 => h|20240101|Some(1439)|||r|0|0|None|||||||
h 01/Jan/2024 \"r => h|20240101|None|||r|0|0|None|||||||
h 01/Jan/2024 \"r\"  => failed
h 01/Jan/2024 \"r\" 24:00:00 => failed
";

/// Lines with the time that the answer took, in seconds.
const SECONDS: &str = "\
## seconds and parts of them
h 01/Jan/2024 \"r\" 0.1234567 => h|20240101|None|||r|0|0|Some(123456)|||||||
h 01/Jan/2024 \"r\" 2 => h|20240101|None|||r|0|0|Some(2000000)|||||||
## no number
h 01/Jan/2024 \"r\" .5 => h|20240101|None|||r|0|0|None|||||||
h 01/Jan/2024 \"r\" 5. => h|20240101|None|||r|0|0|None|||||||
## the greatest time
h 01/Jan/2024 \"r\" 1000000000000 => h|20240101|None|||r|0|0|Some(1000000000000000000)|||||||
h 01/Jan/2024 \"r\" 1000000000001 => failed
";

/// In milliseconds, with another field for microseconds after.
const MILLISECONDS: &str = "\
## milliseconds
h 01/Jan/2024 \"r\" 1.5 1 => h|20240101|None|||r|0|0|Some(1500)|||||||
h 01/Jan/2024 \"r\" 7 1 => h|20240101|None|||r|0|0|Some(7000)|||||||
";

/// In microseconds, with another field for milliseconds after.
const MICROSECONDS: &str = "\
## microseconds
h 01/Jan/2024 \"r\" 17 => h|20240101|None|||r|0|0|Some(17)|||||||
h 01/Jan/2024 \"r\" - 7 => h|20240101|None|||r|0|0|None|||||||
h 01/Jan/2024 \"r\" 1.5 => h|20240101|None|||r|0|0|None|||||||
";

/// Lines with the parts of the request.
const PARTS: &str = "\
## a query in a field of its own
h 01/Jan/2024 GET /a x=1 HTTP/1.1 => h|20240101|None|GET|HTTP/1.1|/a?x=1|0|0|None|||||||
h 01/Jan/2024 GET /a ?x=1 HTTP/1.1 => h|20240101|None|GET|HTTP/1.1|/a?x=1|0|0|None|||||||
h 01/Jan/2024 GET /a - HTTP/1.1 => h|20240101|None|GET|HTTP/1.1|/a|0|0|None|||||||
h 01/Jan/2024 GET ? ! HTTP/1.1 => h|20240101|None|GET|HTTP/1.1|??\u{fffd}|0|0|None|||||||
## what is no method or protocol
h 01/Jan/2024 get /a - HTTP/1.1 => h|20240101|None||HTTP/1.1|/a|0|0|None|||||||
h 01/Jan/2024 GET /a - http => h|20240101|None|GET||/a|0|0|None|||||||
## escapes in both
h 01/Jan/2024 GET /%61 %2f HTTP/2 => h|20240101|None|GET|HTTP/2|/a?/|0|0|None|||||||
## no URL
h 01/Jan/2024 GET  x=1 HTTP/1.1 => failed
";

/// A line with what describes the server.
const SERVER: &str = "\
## virtual host, user, cache status, MIME type and TLS settings
www.example.org \t\x0b 192.0.2.1\t01/Jan/2024|anna|HIT|text/html|TLSv1.3|/x => 192.0.2.1|20240101|None|||/x|0|0|None|||www.example.org|anna|HIT|text/html|TLSv1.3
";

/// Lines with a status that is no status code, where that is allowed.
const LENIENT: &str = "\
## a status that is none, where that is allowed
h 01/Jan/2024 \"r\" 404 => h|20240101|None|||r|404|0|None|||||||
h 01/Jan/2024 \"r\" x => h|20240101|None|||r|0|0|None|||||||
h 01/Jan/2024 \"r\" 600 => h|20240101|None|||r|0|0|None|||||||
";

/// Lines whose requests are split and decoded.
const REQUESTS: &str = "\
## requests, and texts that are none
h 01/Jan/2024 GET /a b HTTP/1.1 => h|20240101|None|GET|HTTP/1.1|/a b|0|0|None|||||||
h 01/Jan/2024 GET  HTTP/1.1 => h|20240101|None|||GET  HTTP/1.1|0|0|None|||||||
h 01/Jan/2024 GET /a HTTP/1.2 => h|20240101|None|||GET /a HTTP/1.2|0|0|None|||||||
## escapes, decoded once
h 01/Jan/2024 PROPFIND /%2541 HTTP/2.0 => h|20240101|None|PROPFIND|HTTP/2.0|/%41|0|0|None|||||||
h 01/Jan/2024 /a%3Fb?c => h|20240101|None|||/a?b?c|0|0|None|||||||
h 01/Jan/2024 /%ff%4 => h|20240101|None|||/\u{fffd}%4|0|0|None|||||||
";

/// The same where URLs are decoded twice.
const TWICE: &str = "\
## escapes, decoded twice
h 01/Jan/2024 GET /%2541 HTTP/1.0 => h|20240101|None|GET|HTTP/1.0|/A|0|0|None|||||||
h 01/Jan/2024 /%25ff%41 => h|20240101|None|||/\u{fffd}A|0|0|None|||||||
";

/// The same where queries are left out.
const NO_QUERY: &str = "\
## queries that are left out
h 01/Jan/2024 /a%3Fb?c => h|20240101|None|||/a?b|0|0|None|||||||
h 01/Jan/2024 GET /a?b?c HTTP/1.1 => h|20240101|None|GET|HTTP/1.1|/a|0|0|None|||||||
h 01/Jan/2024 ?x => h|20240101|None||||0|0|None|||||||
h 01/Jan/2024  => failed
";

/// Lines whose host has to be an address.
const ADDRESSES: &str = "\
## hosts that have to be addresses
192.0.2.1 01/Jan/2024 /a => 192.0.2.1|20240101|None|||/a|0|0|None|||||||
2001:DB8::1 01/Jan/2024 /a => 2001:DB8::1|20240101|None|||/a|0|0|None|||||||
h 01/Jan/2024 /a => failed
- 01/Jan/2024 /a => failed
192.0.2.01 01/Jan/2024 /a => failed
";

/// Lines whose host may be any text.
const ANY_HOSTS: &str = "\
## hosts of any text
h 01/Jan/2024 /a => h|20240101|None|||/a|0|0|None|||||||
- 01/Jan/2024 /a => -|20240101|None|||/a|0|0|None|||||||
 01/Jan/2024 /a => failed
";

/// Lines with a forwarded host before a blank, where commas and blanks separate the addresses.
const CHAINS: &str = "\
## the first of a chain of addresses
10.0.0.1, 192.0.2.7 - [01/Jan/2024:00:00:00 +0000] \"GET / HTTP/1.0\" 200 0 => 10.0.0.1|20240101|Some(0)|GET|HTTP/1.0|/|200|0|None|||||||
10.0.0.1 - [01/Jan/2024:00:00:00 +0000] \"GET / HTTP/1.0\" 200 0 => 10.0.0.1|20240101|Some(0)|GET|HTTP/1.0|/|200|0|None|||||||
2001:db8::1 ,,::ffff:192.0.2.7  10.0.0.3 - [01/Jan/2024:00:00:00 +0000] \"/\" 200 0 => 2001:db8::1|20240101|Some(0)|||/|200|0|None|||||||
## where a chain ends
10.0.0.1 x, 10.0.0.2 [01/Jan/2024:00:00:00 +0000] \"/\" 200 0 => 10.0.0.1|20240101|Some(0)|||/|200|0|None|||||||
## no chain that ends before the format goes on
10.0.0.1,  - [01/Jan/2024:00:00:00 +0000] \"/\" 200 0 => failed
unknown, 10.0.0.1 - [01/Jan/2024:00:00:00 +0000] \"/\" 200 0 => failed
 10.0.0.1 - [01/Jan/2024:00:00:00 +0000] \"/\" 200 0 => failed
10.0.0.1x - [01/Jan/2024:00:00:00 +0000] \"/\" 200 0 => failed
10.0.0.1 => failed
";

/// Lines with a forwarded host before a bar, which is no comma or blank.
const ENTRIES: &str = "\
## the first address among other entries
unknown, 10.0.0.1|01/Jan/2024 /a => 10.0.0.1|20240101|None|||/a|0|0|None|||||||
10.0.0.256,2001:db8::1 10.0.0.2|01/Jan/2024 /a => 2001:db8::1|20240101|None|||/a|0|0|None|||||||
, 10.0.0.1, |01/Jan/2024 /a => 10.0.0.1|20240101|None|||/a|0|0|None|||||||
## no address among them
unknown, -|01/Jan/2024 /a => failed
|01/Jan/2024 /a => failed
10.0.0.1 => failed
";

/// Lines that a forwarded host ends.
const LAST_HOSTS: &str = "\
## a chain that ends the line
01/Jan/2024 /a|10.0.0.1, 10.0.0.2, and more => 10.0.0.1|20240101|None|||/a|0|0|None|||||||
01/Jan/2024 /a|::1 => ::1|20240101|None|||/a|0|0|None|||||||
## no chain
01/Jan/2024 /a|10.0.0.1x => failed
01/Jan/2024 /a| => failed
01/Jan/2024 /a => failed
";

/// Lines with a forwarded host before a field that the line may end before.
const EARLY_HOSTS: &str = "\
## a chain before a comma
01/Jan/2024 /a|10.0.0.1,10.0.0.2 => 10.0.0.1|20240101|None|||/a|0|0|None|||||||
01/Jan/2024 /a|10.0.0.1,,7 => 10.0.0.1|20240101|None|||/a|0|0|None|||||||
01/Jan/2024 /a|10.0.0.1,7 => 10.0.0.1|20240101|None|||/a|0|7|None|||||||
";

/// The JSON format of the lines below.
const JSON: &str = r#"{"ip":"%h","t":"%d:%t %^","req":{"m":"%m","u":"%U"},"st":"%s","ua":["%u"]}"#;

/// Lines that are JSON objects.
const OBJECTS: &str = r#"## objects with all members, in any order, and more
{"ip":"192.0.2.1","t":"01/Jan/2024:00:00:00 +0000","req":{"m":"GET","u":"/a"},"st":200,"ua":["curl/8.0"]} => 192.0.2.1|20240101|Some(0)|GET||/a|200|0|None||curl/8.0|||||
 {"ua":["a\u00e9","b"],"req":{"u":"\/b","x":{}},"st":"404","t":"01/Jan/2024:00:00:00 +0000","ip":"h"} => h|20240101|Some(0)|||/b|404|0|None||aé|||||
## the last of equal members
{"ip":"g","t":"01/Jan/2024:00:00:00 +0000","req":{"u":"/a"},"ip":"h"} => h|20240101|Some(0)|||/a|0|0|None|||||||
## values without a text
{"ip":"h","t":"01/Jan/2024:00:00:00 +0000","req":{"u":"/a","m":null},"st":200.0,"ua":[]} => h|20240101|Some(0)|||/a|0|0|None|||||||
{"ip":true,"t":"01/Jan/2024:00:00:00 +0000","req":{"u":18446744073709551615}} => true|20240101|Some(0)|||18446744073709551615|0|0|None|||||||
{"ip":"h","t":"01/Jan/2024:00:00:00 +0000","req":{"u":18446744073709551616}} => failed
## objects that lack a part, and what is none
{"ip":"h","t":"01/Jan/2024:00:00:00 +0000","st":200} => failed
{"ip":"h","t":"01/Jan/2024:00:00:00 +0000","req":["/a"]} => failed
{"ip":"h","t":"01/Jan/2024:00:00:00 +0000","req":{"u":"/a"},"n":1e400} => failed
{"ip":"h","t":"01/Jan/2024:00:00:00 +0000","req":{"u":"/a!"}} => failed
["h"] => failed
# {} => skipped
"#;

/// Lines in which an earlier leaf has the time taken.
const LATER_TIMES: &str = r#"## the first time taken of the format
{"a":"7","b":"h 01/Jan/2024 /a","c":"2"} => h|20240101|None|||/a|0|0|Some(7)|||||||
{"b":"h 01/Jan/2024 /a","c":"2"} => h|20240101|None|||/a|0|0|None|||||||
"#;

/// The tables, with the options under which their lines are read, and their formats.
const TABLES: [(&str, &str, &str); 21] = [
    ("", "COMMON", COMMON_LINES),
    ("", "COMBINED", COMBINED_LINES),
    ("digits", "%h [%x] \"%r\"", MOMENTS),
    ("", "%h %d \"%r\" %t", TIMES),
    ("", "%h %d \"%r\" %T", SECONDS),
    ("", "%h %d \"%r\" %L %D", MILLISECONDS),
    ("", "%h %d \"%r\" %D %L", MICROSECONDS),
    ("", "%h %d %m %U %q %H", PARTS),
    ("", "%v %~%h\\t%d|%e|%C|%M|%K|%r", SERVER),
    ("lenient", "%h %d \"%r\" %s", LENIENT),
    ("", "%h %d %r", REQUESTS),
    ("twice", "%h %d %r", TWICE),
    ("no query", "%h %d %r", NO_QUERY),
    ("addresses", "%h %d %r", ADDRESSES),
    ("", "%h %d %r", ANY_HOSTS),
    ("", "~h{, } %^[%d:%t %^] \"%r\" %s %b", CHAINS),
    ("", "~h{, }|%d %r", ENTRIES),
    ("", "%d %r|~h{, }", LAST_HOSTS),
    ("", "%d %r|~h{,},%b", EARLY_HOSTS),
    ("", JSON, OBJECTS),
    (
        "",
        "{\"a\":\"%D\",\"b\":\"%h %d %U\",\"c\":\"%T\"}",
        LATER_TIMES,
    ),
];

/// The formats of dates and times under these options.
fn formats_of(options: &str) -> (&'static str, &'static str) {
    match options {
        "digits" => ("%Y%m%d", "%H%M%S"),
        _ => (DEFAULT_DATE, DEFAULT_TIME),
    }
}

/// The setup of a log format under these options. Without any a host may be any text.
fn setup_of(alloc: Global, options: &str, format: &str) -> Result<LineSetup, FormatFault> {
    let (date, time) = formats_of(options);
    let format = compile_shape(alloc, &Text::of(alloc, format_text(format))?)?;
    let date = compile_date(alloc, &Text::of(alloc, date)?)?;
    let time = compile_time(alloc, &Text::of(alloc, time)?)?;
    Ok(LineSetup {
        format,
        date,
        time,
        no_ip_validation: options != "addresses",
        strict_status: options != "lenient",
        double_decode: options == "twice",
        no_query: options == "no query",
    })
}

/// The bytes of a line of the tables.
fn bytes_of(alloc: Global, line: &str) -> Result<Vec<u8>, Fail> {
    let mut bytes = Vec::new(alloc);
    for byte in line.bytes() {
        bytes.push(if byte == b'!' { 0xff } else { byte })?;
    }
    Ok(bytes)
}

/// What a record has, as the tables write it.
fn shown(alloc: Global, rec: &Record) -> Result<String, Fail> {
    let mut text = format!(in alloc; "{}|{}|{:?}", rec.host.as_str(), rec.date, rec.minute)?;
    for part in [&rec.method, &rec.protocol, &rec.url] {
        text.push('|')?;
        text.push_str(part.as_str())?;
    }
    text.push_str(format!(in alloc; "|{}|{}|{:?}", rec.status, rec.bytes, rec.micros)?.as_str())?;
    for part in [
        &rec.referrer,
        &rec.agent,
        &rec.vhost,
        &rec.user,
        &rec.cache,
        &rec.mime,
        &rec.tls,
    ] {
        text.push('|')?;
        text.push_str(part.as_str())?;
    }
    Ok(text)
}

/// What a line says.
fn said(alloc: Global, setup: &LineSetup, line: &str) -> Result<String, Fail> {
    match read_line(alloc, setup, &bytes_of(alloc, line)?)? {
        Line::Skipped => Ok(String::from_str(alloc, "skipped")?),
        Line::Failed => Ok(String::from_str(alloc, "failed")?),
        Line::Good(rec) => shown(alloc, &rec),
    }
}

#[test]
fn lines_say_records(rt: HostRuntime) -> Result<(), Fail> {
    let alloc = rt.alloc();
    for (options, format, table) in TABLES {
        let setup = setup_of(alloc, options, format)?;
        hold(alloc, table, |alloc, line| said(alloc, &setup, line))?;
    }
    Ok(())
}
