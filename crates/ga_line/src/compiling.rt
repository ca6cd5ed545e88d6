ghost use Rattle.std.specs.Prelude.{◌≡◌, ◌⊎◌, false, true, Ok, Err, IfOk, IfErr};
ghost use Rattle.ga_base.specs.declared.formats.FormatFault.{FormatFault};
ghost use Rattle.ga_line.specs.ShapeTexts.{ShapeBy, ShapeOf, is_json};

use crate::Shape;
use ga_base::{FormatFault, Text};
use ga_format::compile;
use ga_jsonlog::compile_json;
use std::alloc::Global;

/// What a JSON format begins with.
const JSON_START: u8 = b'{';

/// Compiles the text of a log format: a JSON format where its first byte is `{`, and else a list of items.
///
/// An error is that of `ga_jsonlog::compile_json` or of `ga_format::compile`.
pub fn compile_shape(alloc: Global, text: &Text) -> Result<Shape, FormatFault>
    ensures shape { IfOk result (λ shape. ShapeOf text.now (Ok shape)) }
    ensures fault { IfErr result (λ fault. (fault ≡ FormatFault.NoMemory) ⊎ ShapeOf text.now (Err fault)) }
{
    if is_json(text.bytes()) {
        json_shape(alloc, text)
    } else {
        plain_shape(alloc, text)
    }
}

/// Compiles a text as a JSON format.
fn json_shape(alloc: Global, text: &Text) -> Result<Shape, FormatFault>
    ensures shape { IfOk result (λ shape. ShapeBy true text.now (Ok shape)) }
    ensures fault { IfErr result (λ fault. (fault ≡ FormatFault.NoMemory) ⊎ ShapeBy true text.now (Err fault)) }
{
    Ok(Shape::Json(compile_json(alloc, text)?))
}

/// Compiles a text as a list of items.
fn plain_shape(alloc: Global, text: &Text) -> Result<Shape, FormatFault>
    ensures shape { IfOk result (λ shape. ShapeBy false text.now (Ok shape)) }
    ensures fault { IfErr result (λ fault. (fault ≡ FormatFault.NoMemory) ⊎ ShapeBy false text.now (Err fault)) }
{
    Ok(Shape::Plain(compile(alloc, text)?))
}

/// Whether the text is a JSON format's.
fn is_json(text: &[u8]) -> bool
    ensures { result ≡ is_json text.now }
{
    match text.first() {
        Some(byte) => *byte == JSON_START,
        None => false,
    }
}
