use ga_base::{FormatItem, Text};
use ga_cases::hold;
use ga_format::{compile, format_text};
use std::alloc::Global;
use std::test::Fail;

/// Log formats, and the items of each or its first fault. An item is shown as the literal byte, `<tab>`, `<x>` for a field `%x`,
/// `<~>`, or `<h,>` for `~h{,}`.
const FORMATS: &str = r#"## specifiers that there aren't
% => byte 0: unknown specifier
%z => byte 0: unknown specifier
%h %d %r% => byte 8: unknown specifier
~h{ => byte 0: unknown specifier
~h{} => byte 0: unknown specifier
~h{}} => byte 0: unknown specifier
~h{,}%z => byte 5: unknown specifier
%z%h%h %h => byte 0: unknown specifier
## fields that are given again
%x %d => byte 3: repeated
%d %x => byte 3: repeated
%x %t => byte 3: repeated
%t %x => byte 3: repeated
%r %m => byte 3: repeated
%r %U => byte 3: repeated
%h ~h{,} => byte 3: repeated
~h{,} %h => byte 6: repeated
~h{,} ~h{;} => byte 6: repeated
%h %h%d => byte 3: repeated
%b %s %b => byte 6: repeated
%R %u %K %M %R => byte 12: repeated
%^ %~%^ %D %D %T %T %L %L %u %u => byte 29: repeated
## fields directly followed by a field
%h%d "%r" => byte 0: no delimiter
%h%h => byte 0: no delimiter
%^%~ => byte 0: no delimiter
%h%~ %d %r => byte 0: no delimiter
%d~h{,} %r => byte 0: no delimiter
## formats without a host
 => no host
common => no host
%r %d => no host
## formats without a date
%h => no date
%h "%r" => no date
%h %t %U => no date
## formats without a request
~h{,} %x => no request
%h %d %m %q %H => no request
## formats with host, date and request
%h %d %r => <h> <d> <r>
~h{, } %x %U => <h, > <x> <U>
%~%h %d %r => <~><h> <d> <r>
%~%~%^ %^ %h %d %U %D %D %T %T %L %L => <~><~><^> <^> <h> <d> <U> <D> <D> <T> <T> <L> <L>
%h %d %t %m %U %q %H => <h> <d> <t> <m> <U> <q> <H>
~h %h ~{%d} %r => ~h <h> ~{<d>} <r>
\%h\n%d\t%r => \<h>\n<d><tab><r>
~h{\t%{} %d %r => <h\t%{> <d> <r>
## named formats
COMMON => <h> <^>[<d>:<t> <^>] "<r>" <s> <b>
COMBINED => <h> <^>[<d>:<t> <^>] "<r>" <s> <b> "<R>" "<u>"
VCOMMON => <v>:<^> <h> <^>[<d>:<t> <^>] "<r>" <s> <b>
VCOMBINED => <v>:<^> <h> <^>[<d>:<t> <^>] "<r>" <s> <b> "<R>" "<u>"
## a name in small letters is text
common %h %d %r => common <h> <d> <r>
"#;

/// What a format means.
fn said(alloc: Global, format: &str) -> Result<String, Fail> {
    match compile(alloc, &Text::of(alloc, format_text(format))?) {
        Ok(format) => shown(alloc, format.items()),
        Err(fault) => Ok(format!(in alloc; "{fault}")?),
    }
}

#[test]
fn formats_mean_their_items_or_their_first_fault(rt: HostRuntime) -> Result<(), Fail> {
    hold(rt.alloc(), FORMATS, said)
}

/// The items of a format, as the table writes them.
fn shown(alloc: Global, items: &[FormatItem]) -> Result<String, Fail> {
    let mut text = String::new(alloc);
    for item in items {
        show(&mut text, item)?;
    }
    Ok(text)
}

/// Adds an item.
fn show(text: &mut String, item: &FormatItem) -> Result<(), Fail> {
    match item {
        FormatItem::Literal(b'\t') => text.push_str("<tab>")?,
        FormatItem::Literal(byte) => text.push(char::from(*byte))?,
        FormatItem::Skip => text.push_str("<~>")?,
        FormatItem::Field(letter) => {
            text.push('<')?;
            text.push(char::from(*letter))?;
            text.push('>')?;
        }
        FormatItem::Forwarded(separators) => {
            text.push_str("<h")?;
            for byte in separators.bytes() {
                text.push(char::from(*byte))?;
            }
            text.push('>')?;
        }
    }
    Ok(())
}
