ghost use Rattle.std.specs.Prelude.{◌↔◌, ◌≤◌, ℕ, List, length, IfOk, IsOk, IsTrue};
ghost use Rattle.ga_jsonlog.specs.Pieces.{PiecesOf};
ghost use Rattle.ga_base.specs.declared.record.Line.TheVariants.{Good};
ghost use Rattle.ga_base.specs.declared.record.Record.{Record as TheRecord};
ghost use Rattle.ga_line.specs.Bounds.{KeepsBounds, RecordBounds};
ghost use Rattle.ga_line.specs.Fits.{Part};
ghost use Rattle.ga_line.specs.Shapes.{FitsShape};
ghost use Rattle.ga_line.specs.Records.{IsLineOf, IsPassedOver};
ghost use Rattle.ga_line.specs.Views.{HasPieces, StandsInLine, line_in};

use crate::fields::Fields;
use crate::numbers::numbers_of;
use crate::record_view::view_of;
use crate::shapes::fit_shape;
use crate::view::LineView;
use crate::{LineSetup, Shape};
use ga_base::{Line, MAX_LINE, NoMemory};
use ga_dates::laws::{dates_have_eight_digits, minutes_are_below_1440};
use ga_jsonlog::{JsonFormat, Pieces, pieces_of};
use std::alloc::Global;

/// The byte that begins a comment.
const COMMENT: u8 = b'#';

/// Reads a line, given without its line end.
///
/// An empty line and one that begins with `#` are `Skipped`. Any other is `Failed` where it is longer than
/// `MAX_LINE` bytes, doesn't fit the format (for a JSON format: is no object, or has a text at a leaf that doesn't fit), has no host, date or request or an empty one, has a host that is no address
/// while the setup asks for one, has a date or a time that the setup's formats don't spell or a date that the calendar
/// hasn't, has a status that isn't three digits from 100 to 599 while that is asked for, or has a size or a time taken
/// above `BIG`. The fields are those of GoAccess's log formats; when a line fails and how its values are read is our own rule.
///
/// The record of a valid line has the texts of its fields with U+FFFD for what isn't UTF-8; a dash in the referrer, the
/// user agent and what describes the server says nothing. The request is split into method, target and protocol. Its URL
/// is the target with the query's field after it, without the query where the setup says so, and then percent-decoded;
/// a method and a protocol that aren't known are empty. A status is 0 where the line ends before it, a size is 0 where it
/// isn't written in digits, and a time taken that is no number is `None`. Only a record takes memory.
pub fn read_line(alloc: Global, setup: &LineSetup, line: &[u8]) -> Result<Line, NoMemory>
    ensures says { IfOk result (IsLineOf setup.now line.now) }
    ensures bounds { IfOk result KeepsBounds }
{
    let pieces = line_pieces(alloc, setup, line)?;
    read_view(alloc, setup, line, &pieces)?.into_line(alloc)
}

/// The pieces with which a line is read: the texts at the leaves of a JSON format, and none for a plain one.
pub fn line_pieces(alloc: Global, setup: &LineSetup, line: &[u8]) -> Result<Pieces, NoMemory>
    ensures { IfOk result (HasPieces setup.now.format line.now) }
{
    match &setup.format {
        Shape::Plain(_) => Ok(Pieces::NoObject),
        Shape::Json(format) => json_pieces(alloc, format, line),
    }
}

/// The texts that a line has at the leaves of a format, if it is neither passed over nor too long.
fn json_pieces(alloc: Global, format: &JsonFormat, line: &[u8]) -> Result<Pieces, NoMemory>
    ensures { IfOk result (λ pieces. ¬ IsPassedOver line.now → length line.now ≤ MAX_LINE → PiecesOf format.now line.now pieces) }
{
    if !is_looked_into(line) {
        return Ok(Pieces::NoObject);
    }
    pieces_of(alloc, format, line)
}

/// Whether a line is neither passed over nor too long.
fn is_looked_into(line: &[u8]) -> bool
    ensures { ¬ IsPassedOver line.now → length line.now ≤ MAX_LINE → IsTrue result }
{
    !is_passed_over(line) && line.len() <= MAX_LINE
}

/// Reads a line as `read_line` does, without owning it: a text is borrowed from the line, or from its pieces for a JSON
/// format, where it is there as UTF-8. `line_pieces` makes the pieces.
/// Memory is taken only for a text with U+FFFD, and for a URL that is decoded or joined from two fields. Where no such
/// text is to be made, lack of memory is never answered.
pub fn read_view<'a>(
    alloc: Global,
    setup: &LineSetup,
    line: &'a [u8],
    pieces: &'a Pieces,
) -> Result<LineView<'a>, NoMemory>
    requires { HasPieces setup.now.format line.now pieces.now }
    ensures says { IfOk result (λ view. IsLineOf setup.now line.now (line_in view)) }
    ensures bounds { IfOk result (λ view. KeepsBounds (line_in view)) }
    ensures lends { (parts : List Part) → FitsShape setup.now.format line.now parts →
        StandsInLine setup.now parts → IsOk result }
{
    if is_passed_over(line) {
        return Ok(LineView::Skipped);
    }
    if line.len() > MAX_LINE {
        return Ok(LineView::Failed);
    }
    let mut fields = Fields::none();
    if !fit_shape(&setup.format, line, pieces, &mut fields) {
        return Ok(LineView::Failed);
    }
    match numbers_of(setup, &fields) {
        None => Ok(LineView::Failed),
        Some(numbers) => {
            records_keep_bounds(setup);
            Ok(LineView::Good(view_of(alloc, setup, &fields, numbers)?))
        }
    }
}

/// What a line says that is read so keeps to the bounds of records. It does nothing.
fn records_keep_bounds(setup: &LineSetup)
    ensures { (line : List ℕ) (rec : TheRecord) → IsLineOf setup.now line (Good rec) → RecordBounds rec }
{
    dates_have_eight_digits();
    minutes_are_below_1440();
    setup.time.items();
}

/// Whether a line is empty or a comment.
fn is_passed_over(line: &[u8]) -> bool
    ensures { IsTrue result ↔ IsPassedOver line.now }
{
    match line.first() {
        None => true,
        Some(b) => *b == COMMENT,
    }
}
