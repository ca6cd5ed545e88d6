ghost use Rattle.std.specs.Prelude.{◌≡◌, position};
ghost use Rattle.ga_conf.specs.ConfFile as spec;
ghost use Rattle.ga_conf.specs.Steps.{DropsBlanks, IsCutAtBlank, SkipsBlanks, is_other};

/// What follows the blanks with which a text begins.
pub(crate) fn after_blanks(text: &str) -> &str
    ensures { SkipsBlanks text.now result.now }
{
    match first_other(text.as_bytes()) {
        Some(at) => &text[at..],
        None => "",
    }
}

/// What stands before the blanks with which a text ends.
pub(crate) fn before_blanks(text: &str) -> &str
    ensures { DropsBlanks text.now result.now }
{
    let bytes = text.as_bytes();
    let mut end = bytes.len();
    while end > 0 && is_blank(bytes[end - 1]) {
        end -= 1;
    }
    &text[..end]
}

/// What stands before the first blank of a text, and what begins there.
pub(crate) fn cut_at_blank(text: &str) -> (&str, &str)
    ensures { IsCutAtBlank text.now result.0.now result.1.now }
{
    match first_blank(text.as_bytes()) {
        Some(at) => (&text[..at], &text[at..]),
        None => (text, ""),
    }
}

/// The place of the first byte that is no blank.
fn first_other(bytes: &[u8]) -> Option<usize>
    ensures { result ≡ position is_other bytes.now }
{
    bytes.iter().position(|b| !is_blank(*b))
}

/// The place of the first blank.
fn first_blank(bytes: &[u8]) -> Option<usize>
    ensures { result ≡ position spec.is_blank bytes.now }
{
    bytes.iter().position(|b| is_blank(*b))
}

/// Whether a byte is a blank: a space or a tab.
fn is_blank(b: u8) -> bool
    ensures { result ≡ spec.is_blank b }
{
    b == b' ' || b == b'\t'
}
