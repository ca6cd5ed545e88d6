ghost use Rattle.std.specs.Prelude.{◌≡◌, ◌<◌, length, map, slice_get, Some};

use crate::JsonLeaf;
use ga_format::FormatItems;
use std::marker::Model;

/// A JSON format. Contracts see the list of its leaves: depth first, the members of an object in the order of their names.
#[derive(Debug, Drop)]
pub struct JsonFormat {
    inner: Vec<JsonLeaf>,
}

impl Model for JsonFormat {
    ghost use Rattle.std.specs.Prelude.{List};
    ghost use Rattle.ga_jsonlog.specs.declared.leaf.JsonLeaf.{JsonLeaf};

    ghost Value = { List JsonLeaf };

    ghost view = { λ f. f.inner.items };
}

impl JsonFormat {
    /// The format of these leaves.
    pub(crate) fn new(inner: Vec<JsonLeaf>) -> JsonFormat
        ensures { result ≡ inner.items }
    {
        JsonFormat { inner }
    }

    /// Lends the leaves.
    pub fn leaves(&self) -> &[JsonLeaf]
        ensures { result.now ≡ self.now }
    {
        &self.inner
    }

    /// How many leaves there are.
    pub fn len(&self) -> u64
        ensures { result ≡ length self.now }
    {
        self.inner.len() as u64
    }

    /// Lends the items of a leaf, by its number from 0.
    pub fn leaf(&self, leaf: u64) -> &FormatItems
        requires { leaf < length self.now }
        ensures { slice_get (map (λ l. l.items) self.now) leaf ≡ Some result.now }
    {
        &self.inner[leaf as usize].items
    }
}
