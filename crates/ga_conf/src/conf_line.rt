ghost use Rattle.std.specs.Prelude.{◌↔◌, IsTrue, MatchOption};
ghost use Rattle.ga_conf.specs.ConfFile.{IsReadable};
ghost use Rattle.ga_conf.specs.Steps.{BeginsNothing, SaysLine};

use crate::blanks::{after_blanks, before_blanks, cut_at_blank};

/// The longest line of a configuration file, in bytes without its end (own profile).
const MAX_CONF_LINE: usize = 4_096;

/// The byte that begins a comment.
const COMMENT: u8 = b'#';

/// A line of a configuration file.
#[derive(Clone, Copy)]
pub(crate) enum ConfLine<'a> {
    /// A line of blanks alone, or a comment.
    PassedOver,
    /// A name and its value.
    Setting { name: &'a str, value: &'a str },
}

/// What a line says, given without its end. `None` where it is no text, or too long.
pub(crate) fn conf_line(line: &[u8]) -> Option<ConfLine<'_>>
    ensures { MatchOption result (¬ IsReadable line.now) (λ says. IsReadable line.now × SaysLine line.now says) }
{
    if line.len() > MAX_CONF_LINE {
        return None;
    }
    let text = str::from_utf8(line).ok()?;
    Some(line_of_text(text))
}

/// What a line says that is text.
fn line_of_text(line: &str) -> ConfLine<'_>
    ensures { SaysLine line.now result }
{
    let text = before_blanks(after_blanks(line));
    if is_nothing(text.as_bytes()) {
        return ConfLine::PassedOver;
    }
    let (name, rest) = cut_at_blank(text);
    ConfLine::Setting {
        name,
        value: after_blanks(rest),
    }
}

/// Whether a line is empty or a comment, once the blanks before it are taken off.
fn is_nothing(text: &[u8]) -> bool
    ensures { IsTrue result ↔ BeginsNothing text.now }
{
    match text.first() {
        None => true,
        Some(b) => *b == COMMENT,
    }
}
