use ga_base::Text;
use ga_cases::hold;
use ga_jsonlog::{JsonFormat, JsonPath, PathStep, compile_json};
use std::alloc::Global;
use std::test::Fail;

/// JSON formats, and the leaves of each or its first fault. A leaf is shown as the way to it, with `[0]` for the first element of a list, and the
/// number of its items.
const FORMATS: &str = r#"## texts that are no JSON object
{ => not JSON
{"a":"%h"} x => not JSON
{'a':"%h"} => not JSON
## values that are no leaf
{"a":1} => leaf 0: bad shape
{"a":[]} => leaf 0: bad shape
{"a":["%h","%d"]} => leaf 0: bad shape
{"b":null,"a":"%h"} => leaf 1: bad shape
{"a":1,"b":"%z"} => leaf 0: bad shape
{"b":1,"a":"%z"} => leaf 0, byte 0: unknown specifier
## texts of leaves
{"a":"%h%d"} => leaf 0, byte 0: no delimiter
{"a":"%h","b":"- %h"} => leaf 1, byte 2: repeated
{"r":"%r","m":"%m"} => leaf 1, byte 0: repeated
{"b":"%h%z","a":"%h"} => leaf 1, byte 0: repeated
## formats without a host, a date or a request
{} => no host
{"a":{}} => no host
{"ip":"%h","t":"%d"} => no request
## formats, with members by their names, and the last of equal ones
{"ip":"%h","t":"%d:%t %^","req":{"m":"%m","u":"%U"},"st":"%s","ua":["%u"]} => ip 1; req.m 1; req.u 1; st 1; t 5; ua[0] 1;
{"a":1,"b":[["%h %r"]],"a":"%d"} => a 1; b[0][0] 3;
"#;

/// What a format means.
fn said(alloc: Global, format: &str) -> Result<String, Fail> {
    match compile_json(alloc, &Text::of(alloc, format)?) {
        Ok(format) => shown(alloc, &format),
        Err(fault) => Ok(format!(in alloc; "{fault}")?),
    }
}

#[test]
fn json_formats_mean_their_leaves_or_their_first_fault(rt: HostRuntime) -> Result<(), Fail> {
    hold(rt.alloc(), FORMATS, said)
}

/// The leaves of a format, as the table writes them.
fn shown(alloc: Global, format: &JsonFormat) -> Result<String, Fail> {
    let mut text = String::new(alloc);
    for (at, leaf) in format.leaves().iter().enumerate() {
        if at > 0 {
            text.push(' ')?;
        }
        show_path(&mut text, &leaf.path)?;
        let items = format!(in alloc; " {};", leaf.items.items().len())?;
        text.push_str(items.as_str())?;
    }
    Ok(text)
}

/// Adds a path.
fn show_path(text: &mut String, path: &JsonPath) -> Result<(), Fail> {
    for (at, step) in path.items().iter().enumerate() {
        match step {
            PathStep::First => text.push_str("[0]")?,
            PathStep::Member(name) => {
                if at > 0 {
                    text.push('.')?;
                }
                text.push_str(name.as_str())?;
            }
        }
    }
    Ok(())
}
