//! JSON formats, and what lines have at their leaves.

ghost use Rattle.std.specs.Prelude.{◌<◌, length};

use ga_base::{FormatFault, FormatItem, LeafFault, Needed, NoMemory, Text};
use ga_format::{FormatItems, first_missing, items_after, items_of};
use ga_jsonlog::{JsonFormat, JsonLeaf, JsonPath, PathStep, Pieces, compile_json, pieces_of};
use ga_line::{LineSetup, LineView, Shape, compile_shape, line_pieces, read_view};
use std::alloc::Global;

/// The faults of leaves.
pub const LEAF_FAULTS: [LeafFault; 3] = [
    LeafFault::Unknown,
    LeafFault::Repeated,
    LeafFault::NoDelimiter,
];

/// What is wrong with a leaf.
pub fn leaf_text(fault: &LeafFault) -> &'static str {
    fault.text()
}

/// The leaf in which a fault stands.
pub fn leaf_of(fault: &FormatFault) -> Option<u64> {
    fault.leaf()
}

/// The items of a text.
pub fn items_alone(alloc: Global, text: &Text) -> Result<FormatItems, FormatFault> {
    items_of(alloc, text)
}

/// The items of a text that comes after others.
pub fn items_behind(
    alloc: Global,
    earlier: &[FormatItem],
    text: &Text,
) -> Result<FormatItems, FormatFault> {
    items_after(alloc, earlier, text)
}

/// The first part that items don't give.
pub fn missing_part(items: &[FormatItem]) -> Option<Needed> {
    first_missing(items)
}

/// A JSON format.
pub fn json_format(alloc: Global, text: &Text) -> Result<JsonFormat, FormatFault> {
    compile_json(alloc, text)
}

/// How many leaves it has.
pub fn leaf_count(format: &JsonFormat) -> u64 {
    format.len()
}

/// The items of one of them.
pub fn leaf_items(format: &JsonFormat, leaf: u64) -> &FormatItems
    requires { leaf < length format.now }
{
    format.leaf(leaf)
}

/// All its leaves.
pub fn leaves(format: &JsonFormat) -> &[JsonLeaf] {
    format.leaves()
}

/// The way to a leaf, and its items.
pub fn parts_of(leaf: &JsonLeaf) -> (&JsonPath, &FormatItems) {
    (&leaf.path, &leaf.items)
}

/// The name of the member to which a step leads.
pub fn name_of(step: &PathStep) -> Option<&Text> {
    match step {
        PathStep::Member(name) => Some(name),
        PathStep::First => None,
    }
}

/// What a line has at the leaves.
pub fn pieces_at(alloc: Global, format: &JsonFormat, line: &[u8]) -> Result<Pieces, NoMemory> {
    pieces_of(alloc, format, line)
}

/// How many pieces there are.
pub fn piece_count(pieces: &Pieces) -> Option<usize> {
    match pieces {
        Pieces::Leaves(texts) => Some(texts.items().len()),
        Pieces::NoObject => None,
    }
}

/// A format, plain or JSON.
pub fn shape_of(alloc: Global, text: &Text) -> Result<Shape, FormatFault> {
    compile_shape(alloc, text)
}

/// Whether it is a JSON format.
pub fn is_json(shape: &Shape) -> bool {
    match shape {
        Shape::Plain(_) => false,
        Shape::Json(_) => true,
    }
}

/// Whether a line is valid.
pub fn is_valid(alloc: Global, setup: &LineSetup, line: &[u8]) -> Result<bool, NoMemory> {
    let pieces = line_pieces(alloc, setup, line)?;
    let view = read_view(alloc, setup, line, &pieces)?;
    Ok(matches!(view, LineView::Good(_)))
}
