ghost use Rattle.std.specs.Prelude.{◌≡◌, ◌≢◌, ◌⊎◌, [], ◌++◌, ◌==◌, codes, position, IfOk, IfErr};
ghost use Rattle.ga_base.specs.declared.formats.FormatFault.{FormatFault};
ghost use Rattle.ga_format.specs.Units.{FormatUnit, IsUnknown, item_of};
ghost use Rattle.ga_format.specs.Steps.Checks.{GivesUnit};

use ga_base::{Bytes, FormatFault, FormatItem};
use std::alloc::Global;

/// The letters that may follow a percent sign.
const LETTERS: &[u8] = b"xtdveChrmUqHsbRuKMDTL^~";

/// Reads the unit at the front of a text that isn't empty: its item, and the text after it. `at` is its place.
pub(crate) fn read_unit(
    alloc: Global,
    text: &[u8],
    at: u64,
) -> Result<(FormatItem, &[u8]), FormatFault>
    requires { text.now ≢ [] }
    ensures unit { IfOk result (λ read. GivesUnit text.now read.0 read.1.now) }
    ensures fault { IfErr result (λ fault. (fault ≡ FormatFault.NoMemory) ⊎ ((fault ≡ FormatFault.UnknownSpecifier at) × IsUnknown text.now)) }
{
    if let Some(after) = text.strip_prefix(b"%") {
        return read_specifier(after, at);
    }
    if let Some(after) = text.strip_prefix(b"~h{") {
        return read_forwarded(alloc, after, at);
    }
    if let Some(after) = text.strip_prefix(b"\\t") {
        return Ok((FormatItem::Literal(b'\t'), after));
    }
    match text.split_first() {
        Some((byte, after)) => Ok((FormatItem::Literal(*byte), after)),
        None => unreachable!(),
    }
}

/// Reads what follows a percent sign: a letter that is named.
fn read_specifier(text: &[u8], at: u64) -> Result<(FormatItem, &[u8]), FormatFault>
    ensures unit { IfOk result (λ read. GivesUnit (codes "%" ++ text.now) read.0 read.1.now) }
    ensures fault { IfErr result (λ fault. (fault ≡ FormatFault.UnknownSpecifier at) × IsUnknown (codes "%" ++ text.now)) }
{
    let Some((letter, after)) = text.split_first() else {
        return Err(FormatFault::UnknownSpecifier { at });
    };
    if !LETTERS.contains(letter) {
        return Err(FormatFault::UnknownSpecifier { at });
    }
    Ok((specifier_item(*letter), after))
}

/// The item of a percent sign and this letter.
fn specifier_item(letter: u8) -> FormatItem
    ensures { result ≡ item_of (FormatUnit.Specifier letter) }
{
    if letter == b'~' {
        FormatItem::Skip
    } else {
        FormatItem::Field(letter)
    }
}

/// Reads what follows `~h{`: the separators, which run to the first `}`.
fn read_forwarded(alloc: Global, text: &[u8], at: u64) -> Result<(FormatItem, &[u8]), FormatFault>
    ensures unit { IfOk result (λ read. GivesUnit (codes "~h{" ++ text.now) read.0 read.1.now) }
    ensures fault { IfErr result (λ fault. (fault ≡ FormatFault.NoMemory) ⊎ ((fault ≡ FormatFault.UnknownSpecifier at) × IsUnknown (codes "~h{" ++ text.now))) }
{
    let Some(end) = closing_brace(text) else {
        return Err(FormatFault::UnknownSpecifier { at });
    };
    if end == 0 {
        return Err(FormatFault::UnknownSpecifier { at });
    }
    let separators = Bytes::of(alloc, &text[..end])?;
    Ok((FormatItem::Forwarded(separators), &text[end + 1..]))
}

/// Where the first `}` stands.
fn closing_brace(text: &[u8]) -> Option<usize>
    ensures { result ≡ position (λ byte. byte == 125) text.now }
{
    text.iter().position(|byte| *byte == b'}')
}
