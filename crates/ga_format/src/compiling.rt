ghost use Rattle.std.specs.Prelude.{◌≡◌, ◌⊎◌, ◌++◌, [], false, List, Result, Ok, Err, IfOk, IfErr, OnOk};
ghost use Rattle.ga_base.specs.declared.formats.FormatItem.{FormatItem};
ghost use Rattle.ga_base.specs.declared.formats.FormatFault.{FormatFault};
ghost use Rattle.ga_format.specs.FormatOf.{AreItems, FormatOf, IsFirstPlaced, ItemsOf};
ghost use Rattle.ga_format.specs.Steps.Checks.{Ends, IsRefused};
ghost use Rattle.ga_format.specs.FieldKinds.{repeats};

use crate::field_kinds::{first_missing, is_field, is_literal, repeats_after};
use crate::format::Format;
use crate::units::read_unit;
use ga_base::{FormatFault, FormatItem, Listing, Text};
use std::alloc::Global;

/// The items of a format text, in its order. They needn't give all that a format needs.
pub type FormatItems = Listing<FormatItem>;

/// Compiles a format text to its items.
///
/// An error is the first fault, with its place as a byte of the text, from 0: an unknown specifier, a specifier that
/// may not follow the earlier ones, or a field that no literal ends, in this order at one place; and if there is
/// none, the first of host, date and request that no item gives. `NoMemory` is lack of memory, and the
/// faults of date formats and of JSON formats are never answered.
pub fn compile(alloc: Global, text: &Text) -> Result<Format, FormatFault>
    ensures format { IfOk result (λ format. FormatOf text.now (Ok format)) }
    ensures fault { IfErr result (λ fault. (fault ≡ FormatFault.NoMemory) ⊎ FormatOf text.now (Err fault)) }
    ensures only { (answer : Result (List FormatItem) FormatFault) → FormatOf text.now answer → (result ≡ Err FormatFault.NoMemory) ⊎ (result ≡ answer) }
{
    compile_bytes(alloc, text.bytes())
}

/// The items of a format text, which needn't give a host, a date and a request.
///
/// An error is the first of the faults of `compile` that have a place, or `NoMemory`.
pub fn items_of(alloc: Global, text: &Text) -> Result<FormatItems, FormatFault>
    ensures items { IfOk result (λ items. ItemsOf [] text.now (Ok items)) }
    ensures fault { IfErr result (λ fault. (fault ≡ FormatFault.NoMemory) ⊎ ItemsOf [] text.now (Err fault)) }
    ensures only { (answer : Result (List FormatItem) FormatFault) → ItemsOf [] text.now answer → (result ≡ Err FormatFault.NoMemory) ⊎ (result ≡ answer) }
{
    items_after(alloc, &[], text)
}

/// The items of a format text that comes after these items: a specifier may not repeat one of them either.
pub fn items_after(
    alloc: Global,
    earlier: &[FormatItem],
    text: &Text,
) -> Result<FormatItems, FormatFault>
    ensures items { IfOk result (λ items. ItemsOf earlier.now text.now (Ok items)) }
    ensures fault { IfErr result (λ fault. (fault ≡ FormatFault.NoMemory) ⊎ ItemsOf earlier.now text.now (Err fault)) }
    ensures only { (answer : Result (List FormatItem) FormatFault) → ItemsOf earlier.now text.now answer → (result ≡ Err FormatFault.NoMemory) ⊎ (result ≡ answer) }
{
    items_in(alloc, earlier, text.bytes())
}

fn items_in(alloc: Global, earlier: &[FormatItem], text: &[u8]) -> Result<FormatItems, FormatFault>
    ensures items { IfOk result (λ items. ItemsOf earlier.now text.now (Ok items)) }
    ensures fault { IfErr result (λ fault. (fault ≡ FormatFault.NoMemory) ⊎ ItemsOf earlier.now text.now (Err fault)) }
{
    Ok(FormatItems::from(read_items(alloc, earlier, text)?))
}

fn compile_bytes(alloc: Global, text: &[u8]) -> Result<Format, FormatFault>
    ensures format { IfOk result (λ format. FormatOf text.now (Ok format)) }
    ensures fault { IfErr result (λ fault. (fault ≡ FormatFault.NoMemory) ⊎ FormatOf text.now (Err fault)) }
{
    let items = read_items(alloc, &[], text)?;
    match first_missing(&items) {
        Some(field) => Err(FormatFault::Missing { field }),
        None => Ok(Format::new(items)),
    }
}

/// Reads the items of a text that comes after these items, up to its end or its first fault that has a place.
fn read_items(
    alloc: Global,
    earlier: &[FormatItem],
    text: &[u8],
) -> Result<Vec<FormatItem>, FormatFault>
    ensures whole { IfOk result (λ items. AreItems earlier.now text.now items.items) }
    ensures fault { IfErr result (λ fault. (fault ≡ FormatFault.NoMemory) ⊎ IsFirstPlaced earlier.now text.now fault) }
{
    let mut items = Vec::new(alloc);
    let mut field = None;
    let mut rest = text;
    while !rest.is_empty() {
        let at = (text.len() - rest.len()) as u64;
        let (item, after) = read_unit(alloc, rest, at)?;
        check(earlier, &items, field, &item, at)?;
        field = is_field(&item).then_some(at);
        items.push(item)?;
        rest = after;
    }
    Ok(items)
}

/// Refuses an item that may not follow the earlier items and then these. `field` is the place of the field that it has to end, and `at` its own.
fn check(
    earlier: &[FormatItem],
    items: &[FormatItem],
    field: Option<u64>,
    item: &FormatItem,
    at: u64,
) -> Result<(), FormatFault>
    ensures ok { OnOk result (Ends field item.now × (repeats (earlier.now ++ items.now) item.now ≡ false)) }
    ensures fault { IfErr result (IsRefused (earlier.now ++ items.now) field item.now at) }
{
    if let Some(open) = field
        && !is_literal(item)
    {
        return Err(FormatFault::NoDelimiter { at: open });
    }
    if repeats_after(earlier, items, item) {
        return Err(FormatFault::Repeated { at });
    }
    Ok(())
}
