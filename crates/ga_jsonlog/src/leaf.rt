ghost use Rattle.std.specs.Prelude.{◌≡◌, IfOk};

use ga_base::{Listing, NoMemory, Text};
use ga_format::FormatItems;

/// A step from a JSON value to one inside it.
#[derive(Debug, Clone, Drop)]
pub enum PathStep {
    /// To the member of an object that has this name.
    Member(Text),
    /// To the first element of a list.
    First,
}

/// The way from a line's object to a value inside it.
pub type JsonPath = Listing<PathStep>;

/// A leaf of a JSON format.
#[derive(Debug, Drop)]
pub struct JsonLeaf {
    /// Where its text is in a line.
    pub path: JsonPath,
    /// What the text has to fit.
    pub items: FormatItems,
}

/// A copy of a path.
pub(crate) fn copy_path(path: &JsonPath) -> Result<JsonPath, NoMemory>
    ensures { IfOk result (λ copy. copy ≡ path.now) }
{
    Ok(path.clone()?)
}
