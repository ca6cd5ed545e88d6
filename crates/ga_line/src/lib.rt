//! From the bytes of a log to its lines, and from a line to what it says.
//!
//! Start with `Lines`, the lines of a text, `LineSetup`, how they are read, with its `Shape` from `compile_shape`, and `read_line`, which reads one, or
//! `read_view`, which reads it without owning it. `specs/Fits.antt` says when a line fits a format's items, and
//! `specs/Shapes.antt` when it fits a plain or a JSON format, with
//! `specs/Forwarded.antt` for the field of forwarded hosts, `specs/Records.antt` what it then says, `specs/Bounds.antt`
//! which bounds its values keep to, and `specs/Views.antt` which record a view is. What holds of all lines is in `laws`.
#![tactic(auto)]

mod asking;
mod compiling;
mod cut_field;
mod digits;
mod fields;
mod fitting;
mod forwarded;
pub mod laws;
mod line_reading;
mod numbers;
mod pieces;
mod record_view;
mod setup;
mod shapes;
mod status_code;
mod view;

pub use compiling::compile_shape;
pub use line_reading::{line_pieces, read_line, read_view};
pub use pieces::Lines;
pub use setup::{LineSetup, Shape};
pub use view::{LineView, RecordView};
