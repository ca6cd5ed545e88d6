ghost use Rattle.std.specs.Prelude.{◌≡◌, ℕ, List, ◌∷◌, ◌++◌, IfSome, IfNone, IsTrue, IsFalse, slice_get};
ghost use Rattle.std.specs.Option.{option_copied};
ghost use Rattle.ga_line.specs.Fits.{Part, Fits, SkipsSpace, is_space};
ghost use Rattle.ga_line.specs.Steps.Fitting.{AreNoted, EndsBefore, EndsLine};

use crate::cut_field::cut_at;
use crate::fields::Fields;
use crate::forwarded::forwarded_in;
use ga_base::FormatItem;

/// Whether a line fits the items of a format, in their order. Notes the line's fields after those that are noted where it
/// does; else what is noted says nothing.
pub(crate) fn fit<'a>(items: &[FormatItem], line: &'a [u8], fields: &mut Fields<'a>) -> bool
    ensures fits { IsTrue result → (parts : List Part) × Fits items.now line.now parts ×
        ((first : List Part) → AreNoted first fields.old → AreNoted (first ++ parts) fields.new) }
    ensures misfit { IsFalse result → (parts : List Part) → ¬ Fits items.now line.now parts }
{
    let mut rest = line;
    for (at, item) in items.iter().enumerate() {
        match item {
            FormatItem::Literal(byte) => match after_byte(rest, *byte) {
                Some(after) => rest = after,
                None => return false,
            },
            FormatItem::Skip => rest = after_space(rest),
            FormatItem::Field(letter) => match field_in(rest, item_at(items, at + 1)) {
                Some((text, after)) => {
                    fields.note(*letter, text);
                    rest = after;
                }
                None => {
                    fields.note(*letter, rest);
                    return true;
                }
            },
            FormatItem::Forwarded(separators) => {
                let next = item_at(items, at + 1);
                let Some(field) = forwarded_in(rest, separators.bytes(), next) else {
                    return false;
                };
                fields.note_host(field.host);
                match field.after {
                    Some(after) => rest = after,
                    None => return true,
                }
            }
        }
    }
    true
}

/// The item at a place, if there is one.
fn item_at(items: &[FormatItem], at: usize) -> Option<&FormatItem>
    ensures { option_copied result ≡ slice_get items.now at }
{
    items.get(at)
}

/// The field that begins `rest` and goes up to the literal that the next item is, and what is left from that byte on.
/// `None` where the field goes up to the end of the line.
fn field_in<'a>(rest: &'a [u8], next: Option<&FormatItem>) -> Option<(&'a [u8], &'a [u8])>
    ensures found { IfSome result (λ cut. EndsBefore (option_copied next.entry) rest.now cut.0.now cut.1.now) }
    ensures none { IfNone result (EndsLine (option_copied next.entry) rest.now) }
{
    match next {
        Some(FormatItem::Literal(stop)) => cut_at(rest, *stop),
        _ => None,
    }
}

/// What follows the byte that begins `rest`. `None` where another byte does, or none.
fn after_byte(rest: &[u8], byte: u8) -> Option<&[u8]>
    ensures found { IfSome result (λ after. rest.now ≡ byte ∷ after.now) }
    ensures none { IfNone result ((after : List ℕ) → rest.now ≡ byte ∷ after → ⊥) }
{
    match rest.split_first() {
        Some((first, after)) if *first == byte => Some(after),
        _ => None,
    }
}

/// What follows the white space that begins `rest`.
fn after_space(rest: &[u8]) -> &[u8]
    ensures { SkipsSpace rest.now result.now }
{
    for (at, byte) in rest.iter().enumerate() {
        if !is_space(*byte) {
            return &rest[at..];
        }
    }
    &[]
}

/// Whether the byte is white space, as C's `isspace` has it.
fn is_space(byte: u8) -> bool
    ensures { result ≡ is_space byte }
{
    matches!(byte, b'\t'..=b'\r' | b' ')
}
