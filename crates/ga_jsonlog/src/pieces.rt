ghost use Rattle.std.specs.Prelude.{◌≡◌, IfOk};
ghost use Rattle.std.specs.Option.{option_and_then, option_map};
ghost use Rattle.serde_json.specs.View.{view};
ghost use Rattle.ga_jsonlog.specs.Pieces.{PiecesOf, is_written, piece_of as piece_in, step_in, value_at as value_in};

use crate::object::read_object;
use crate::{JsonFormat, PathStep};
use ga_base::{Listing, NoMemory, Text};
use serde_json::Value;
use std::alloc::Global;

/// What a line has at the leaves of a JSON format.
#[derive(Debug, Drop)]
pub enum Pieces {
    /// The line is no JSON object.
    NoObject,
    /// The text at each leaf, in their order. `None` where the line has none there.
    Leaves(Listing<Option<Text>>),
}

/// The texts that a line has at the leaves of a format.
///
/// A leaf's text is the value at its place: a text as it is, a whole number or a truth value as JSON writes it. There is none
/// where the line has no value there, or has null, an object, a list or a number that isn't whole. Of a list the first element
/// counts, and of equal members the last.
pub fn pieces_of(alloc: Global, format: &JsonFormat, line: &[u8]) -> Result<Pieces, NoMemory>
    ensures { IfOk result (PiecesOf format.now line.now) }
{
    let Some(value) = read_object(alloc, line)? else {
        return Ok(Pieces::NoObject);
    };
    let leaves = format.leaves();
    let mut pieces = Vec::with_capacity(alloc, leaves.len())?;
    for leaf in leaves {
        pieces.push(piece_at(alloc, &value, leaf.path.items())?)?;
    }
    Ok(Pieces::Leaves(Listing::from(pieces)))
}

/// The text to which a path leads.
fn piece_at(alloc: Global, value: &Value, path: &[PathStep]) -> Result<Option<Text>, NoMemory>
    ensures { IfOk result (λ piece. piece ≡ option_and_then piece_in (value_in path.now (view value.now))) }
{
    match value_at(value, path) {
        Some(found) => piece_of(alloc, found),
        None => Ok(None),
    }
}

/// The value to which a path leads.
fn value_at<'v>(value: &'v Value, path: &[PathStep]) -> Option<&'v Value>
    ensures { option_map (λ found. view found.now) result ≡ value_in path.now (view value.now) }
{
    let mut at = value;
    for step in path {
        at = value_behind(at, step)?;
    }
    Some(at)
}

/// The value to which one step leads.
fn value_behind<'v>(value: &'v Value, step: &PathStep) -> Option<&'v Value>
    ensures { option_map (λ found. view found.now) result ≡ step_in step.now (view value.now) }
{
    match step {
        PathStep::Member(name) => value.get(name.as_str()),
        PathStep::First => value.get(0usize),
    }
}

/// The text of a value, if it has one.
fn piece_of(alloc: Global, value: &Value) -> Result<Option<Text>, NoMemory>
    ensures { IfOk result (λ piece. piece ≡ piece_in (view value.now)) }
{
    if let Some(text) = value.as_str() {
        return Ok(Some(Text::of(alloc, text)?));
    }
    if is_written(value) {
        return Ok(Some(Text::from_string(alloc, value.to_string(alloc)?)?));
    }
    Ok(None)
}

/// Whether the value is a truth value or a whole number.
fn is_written(value: &Value) -> bool
    ensures { result ≡ is_written (view value.now) }
{
    value.is_boolean() || value.is_u64() || value.is_i64()
}
