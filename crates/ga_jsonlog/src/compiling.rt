ghost use Rattle.std.specs.Prelude.{◌≡◌, ◌⊎◌, ◌++◌, [], List, Result, Ok, Err, IfOk, IfErr, OnOk};
ghost use Rattle.ga_base.specs.declared.formats.FormatFault.{FormatFault};
ghost use Rattle.ga_format.specs.FormatOf.{ItemsOf};
ghost use Rattle.ga_jsonlog.specs.declared.leaf.JsonLeaf.{JsonLeaf as TheLeaf};
ghost use Rattle.ga_jsonlog.specs.JsonFormats.{AreLeaves, JsonFormatOf, all_items};
ghost use Rattle.ga_jsonlog.specs.Steps.{IsLeafFault, IsPlaceFault, IsFaultIn};

use crate::leaf::copy_path;
use crate::object::read_object;
use crate::places::{Place, places_of};
use crate::{JsonFormat, JsonLeaf};
use ga_base::{FormatFault, FormatItem, LeafFault, NoMemory, Text};
use ga_format::laws::one_list_of_items;
use ga_format::{FormatItems, first_missing, items_after};
use std::alloc::Global;

/// The leaves of a format, and the items of all of them.
#[derive(Drop)]
struct Leaves {
    /// The leaves, in their order.
    leaves: Vec<JsonLeaf>,
    /// Their items, one leaf's after the other's.
    given: Vec<FormatItem>,
}

/// Compiles a JSON format to its leaves.
///
/// An error is `NotJson` where the text is no JSON object; else what stands at the first leaf's place that isn't good, by the
/// number of leaves before it: a `BadShape`, or the first of the faults of `ga_format::items_after` in a leaf's text, after the items
/// of all earlier leaves; and if there is none, the first of host, date and request that no leaf gives. `NoMemory` is lack of memory.
pub fn compile_json(alloc: Global, text: &Text) -> Result<JsonFormat, FormatFault>
    ensures format { IfOk result (λ leaves. JsonFormatOf text.now (Ok leaves)) }
    ensures fault { IfErr result (λ fault. (fault ≡ FormatFault.NoMemory) ⊎ JsonFormatOf text.now (Err fault)) }
    ensures only { (answer : Result (List TheLeaf) FormatFault) → JsonFormatOf text.now answer → (result ≡ Err FormatFault.NoMemory) ⊎ (result ≡ answer) }
{
    one_list_of_items();
    compile_bytes(alloc, text.bytes())
}

fn compile_bytes(alloc: Global, text: &[u8]) -> Result<JsonFormat, FormatFault>
    ensures format { IfOk result (λ leaves. JsonFormatOf text.now (Ok leaves)) }
    ensures fault { IfErr result (λ fault. (fault ≡ FormatFault.NoMemory) ⊎ JsonFormatOf text.now (Err fault)) }
{
    let Some(value) = read_object(alloc, text)? else {
        return Err(FormatFault::NotJson);
    };
    let places = places_of(alloc, &value)?;
    let read = read_leaves(alloc, &places)?;
    match first_missing(&read.given) {
        Some(field) => Err(FormatFault::Missing { field }),
        None => Ok(JsonFormat::new(read.leaves)),
    }
}

/// Reads the leaves at these places, up to the first place that isn't good.
fn read_leaves(alloc: Global, places: &[Place]) -> Result<Leaves, FormatFault>
    ensures leaves { IfOk result (λ read. AreLeaves [] places.now read.leaves.items × (read.given.items ≡ all_items read.leaves.items)) }
    ensures fault { IfErr result (λ fault. (fault ≡ FormatFault.NoMemory) ⊎ IsPlaceFault places.now fault) }
{
    let mut leaves = Vec::new(alloc);
    let mut given = Vec::new(alloc);
    for (number, place) in places.iter().enumerate() {
        match place {
            Place::Bad => {
                return Err(FormatFault::BadShape {
                    leaf: number as u64,
                });
            }
            Place::Leaf { path, text } => {
                let items = read_leaf(alloc, &given, text, number as u64)?;
                add_items(&mut given, items.items())?;
                let path = copy_path(path)?;
                leaves.push(JsonLeaf { path, items })?;
            }
        }
    }
    Ok(Leaves { leaves, given })
}

/// The items of a leaf's text after those of the earlier leaves, by the leaf's number.
fn read_leaf(
    alloc: Global,
    given: &[FormatItem],
    text: &Text,
    leaf: u64,
) -> Result<FormatItems, FormatFault>
    ensures items { IfOk result (λ items. ItemsOf given.now text.now (Ok items)) }
    ensures fault { IfErr result (λ fault. (fault ≡ FormatFault.NoMemory) ⊎ IsLeafFault given.now text.now leaf fault) }
{
    match items_after(alloc, given, text) {
        Ok(items) => Ok(items),
        Err(fault) => Err(fault_in(leaf, fault)),
    }
}

/// The fault of a leaf's text as one of the format.
fn fault_in(leaf: u64, fault: FormatFault) -> FormatFault
    ensures { IsFaultIn leaf fault result }
{
    let (kind, at) = match fault {
        FormatFault::UnknownSpecifier { at } => (LeafFault::Unknown, at),
        FormatFault::Repeated { at } => (LeafFault::Repeated, at),
        FormatFault::NoDelimiter { at } => (LeafFault::NoDelimiter, at),
        _ => return FormatFault::NoMemory,
    };
    FormatFault::Leaf { leaf, kind, at }
}

/// Adds copies of these items.
fn add_items(given: &mut Vec<FormatItem>, items: &[FormatItem]) -> Result<(), NoMemory>
    ensures { OnOk result (given.new.items ≡ given.old.items ++ items.now) }
{
    for item in items {
        given.push(item.clone()?)?;
    }
    Ok(())
}
