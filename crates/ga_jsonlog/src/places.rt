ghost use Rattle.std.specs.Prelude.{◌≡◌, ◌++◌, ◌∷◌, [], IfOk, OnOk};
ghost use Rattle.serde_json.specs.View.{items_view, members_view, view};
ghost use Rattle.ga_jsonlog.specs.Places.{items_places, members_places, places as places_in};

use crate::{JsonPath, PathStep};
use ga_base::{NoMemory, Text};
use serde_json::{Map, Value};
use std::alloc::Global;

/// What stands where a leaf of a JSON format may come.
#[derive(Debug, Drop)]
pub(crate) enum Place {
    /// A text, with the way to it.
    Leaf { path: JsonPath, text: Text },
    /// What is neither a text, nor an object, nor a list of one element.
    Bad,
}

/// The places of a value, in their order.
pub(crate) fn places_of(alloc: Global, value: &Value) -> Result<Vec<Place>, NoMemory>
    ensures { IfOk result (λ places. places.items ≡ places_in [] (view value.now)) }
{
    let mut places = Vec::new(alloc);
    push_places(alloc, value, &JsonPath::new(alloc), &mut places)?;
    Ok(places)
}

/// Adds the places of a value to which this path leads.
#[cycle(places)]
fn push_places(
    alloc: Global,
    value: &Value,
    path: &JsonPath,
    places: &mut Vec<Place>,
) -> Result<(), NoMemory>
    ensures { OnOk result (places.new.items ≡ places.old.items ++ places_in path.now (view value.now)) }
{
    match value {
        Value::String(text) => push_leaf(alloc, path, text.as_str(), places),
        Value::Array(items) => push_items(alloc, items, path, places),
        Value::Object(members) => push_members(alloc, members, path, places),
        Value::Null | Value::Bool(_) | Value::Number(_) => push_bad(places),
    }
}

/// Adds the places of a list: those of its only element.
#[cycle(places)]
fn push_items(
    alloc: Global,
    items: &Vec<Value>,
    path: &JsonPath,
    places: &mut Vec<Place>,
) -> Result<(), NoMemory>
    ensures { OnOk result (places.new.items ≡ places.old.items ++ items_places path.now (items_view items.now.items)) }
{
    if items.len() != 1 {
        return push_bad(places);
    }
    let below = path_to(path, PathStep::First)?;
    for item in items {
        push_places(alloc, item, &below, places)?;
    }
    Ok(())
}

/// Adds the places of an object: those of its members, in the order of their names.
#[cycle(places)]
fn push_members(
    alloc: Global,
    members: &Map<String, Value>,
    path: &JsonPath,
    places: &mut Vec<Place>,
) -> Result<(), NoMemory>
    ensures { OnOk result (places.new.items ≡ places.old.items ++ members_places path.now (members_view members.now.entries)) }
{
    for (name, member) in members.iter() {
        let below = path_to(path, PathStep::Member(Text::of(alloc, name.as_str())?))?;
        push_places(alloc, member, &below, places)?;
    }
    Ok(())
}

/// The path with one step more.
fn path_to(path: &JsonPath, step: PathStep) -> Result<JsonPath, NoMemory>
    ensures { IfOk result (λ longer. longer ≡ path.now ++ step ∷ []) }
{
    let mut longer = path.clone()?;
    longer.push(step)?;
    Ok(longer)
}

/// Adds a text.
fn push_leaf(
    alloc: Global,
    path: &JsonPath,
    text: &str,
    places: &mut Vec<Place>,
) -> Result<(), NoMemory>
    ensures { OnOk result (places.new.items ≡ places.old.items ++ Place.Leaf path.now text.now ∷ []) }
{
    let leaf = Place::Leaf {
        path: path.clone()?,
        text: Text::of(alloc, text)?,
    };
    places.push(leaf)?;
    Ok(())
}

/// Adds what is no place for a leaf.
fn push_bad(places: &mut Vec<Place>) -> Result<(), NoMemory>
    ensures { OnOk result (places.new.items ≡ places.old.items ++ Place.Bad ∷ []) }
{
    places.push(Place::Bad)?;
    Ok(())
}
