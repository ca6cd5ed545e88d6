ghost use Rattle.std.specs.Prelude.{◌≡◌, ◌<◌, ◌∷◌, ℕ, List, IfSome, IfNone, length, take, slice_index};
ghost use Rattle.ga_line.specs.Fits.{EndsAt, NeverEnds, IsFree};

use bstr::ByteSlice;
use memchr::memchr2;

const QUOTE: u8 = b'"';

const BACKSLASH: u8 = b'\\';

/// The text of the field that begins `rest` and ends at the byte `stop`, and what is left from that byte on. `None`
/// where the line ends before the field does.
pub(crate) fn cut_at<'a>(rest: &'a [u8], stop: u8) -> Option<(&'a [u8], &'a [u8])>
    ensures found { IfSome result (λ cut. (after : List ℕ) × EndsAt stop rest.now cut.0.now after × (cut.1.now ≡ stop ∷ after)) }
    ensures none { IfNone result (NeverEnds stop rest.now) }
{
    let end = end_in(rest, stop)?;
    Some((&rest[..end], &rest[end..]))
}

/// The first place at which a field that ends at the byte `stop` can end.
fn end_in(rest: &[u8], stop: u8) -> Option<usize>
    ensures within { IfSome result (λ end. end < length rest.now) }
    ensures stops { IfSome result (λ end. slice_index rest.now end ≡ stop) }
    ensures first { IfSome result (λ end. IsFree stop (take end rest.now)) }
    ensures none { IfNone result (NeverEnds stop rest.now) }
{
    if stop == QUOTE {
        quote_in(rest)
    } else {
        rest.find_byte(stop)
    }
}

/// The place of the first double quote that isn't after a backslash. A backslash and the byte after it are
/// passed over together.
fn quote_in(rest: &[u8]) -> Option<usize>
    ensures within { IfSome result (λ end. end < length rest.now) }
    ensures stops { IfSome result (λ end. slice_index rest.now end ≡ QUOTE) }
    ensures first { IfSome result (λ end. IsFree QUOTE (take end rest.now)) }
    ensures none { IfNone result (NeverEnds QUOTE rest.now) }
{
    let mut from = 0;
    while from < rest.len() {
        let at = from + memchr2(QUOTE, BACKSLASH, &rest[from..])?;
        if rest[at] == QUOTE {
            return Some(at);
        }
        from = at + 2;
    }
    None
}
