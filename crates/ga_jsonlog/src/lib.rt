//! JSON formats, for logs whose lines are JSON objects: an object whose leaves are format texts, as
//! `{"ip":"%h","req":{"u":"%U"}}`.
//!
//! Start with `compile_json`, which answers what `JsonFormatOf` says: the leaves of a format, each with the way to it and its
//! items, or the format's first fault. `pieces_of` then gives the texts at these places of a line, as `PiecesOf` says.
//! `specs/Places.antt` has the places of an object in their order. The shape of JSON formats is this program's own.
#![tactic(auto)]

mod compiling;
mod format;
pub mod laws;
mod leaf;
mod object;
mod pieces;
mod places;

pub use compiling::compile_json;
pub use format::JsonFormat;
pub use leaf::{JsonLeaf, JsonPath, PathStep};
pub use pieces::{Pieces, pieces_of};
