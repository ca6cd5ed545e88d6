ghost use Rattle.std.specs.Prelude.{◌≡◌, ◌==◌};
ghost use Rattle.std.specs.List.{before_first};

use memchr::memchr;

/// The byte that begins a query.
pub(crate) const QUESTION_MARK: u8 = b'?';

/// The byte that begins a fragment.
pub(crate) const NUMBER_SIGN: u8 = b'#';

/// What stands before the first byte `stop`, or all of the text where there is none.
pub(crate) fn before_byte(text: &[u8], stop: u8) -> &[u8]
    ensures { result.now ≡ before_first (λ b. b == stop) text.now }
{
    match memchr(stop, text) {
        Some(at) => &text[..at],
        None => text,
    }
}
