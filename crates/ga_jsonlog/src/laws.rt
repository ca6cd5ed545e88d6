//! Laws of the definitions `JsonFormatOf` and `PiecesOf`: functions that do nothing, each for the law that its contract states.

ghost use Rattle.std.specs.Prelude.{◌≡◌, ℕ, List, Result};
ghost use Rattle.ga_base.specs.declared.formats.FormatFault.{FormatFault};
ghost use Rattle.ga_jsonlog.specs.declared.leaf.JsonLeaf.{JsonLeaf};
ghost use Rattle.ga_jsonlog.specs.declared.pieces.Pieces.{Pieces};
ghost use Rattle.ga_jsonlog.specs.JsonFormats.{JsonFormatOf};
ghost use Rattle.ga_jsonlog.specs.Pieces.{PiecesOf};

use ga_format::laws::{every_text_has_items, one_list_of_items};

/// A text means one JSON format or has one first fault, and not two.
pub fn one_answer()
    ensures { (text : List ℕ) (answer other : Result (List JsonLeaf) FormatFault) →
        JsonFormatOf text answer → JsonFormatOf text other → answer ≡ other }
{
    one_list_of_items();
}

/// Every text means a JSON format or has a first fault.
pub fn every_text_has_an_answer()
    ensures { (text : List ℕ) → (answer : Result (List JsonLeaf) FormatFault) × JsonFormatOf text answer }
{
    every_text_has_items();
}

/// A line has one list of pieces, or is no object.
pub fn one_list_of_pieces()
    ensures { (leaves : List JsonLeaf) (line : List ℕ) (pieces other : Pieces) →
        PiecesOf leaves line pieces → PiecesOf leaves line other → pieces ≡ other }
{}

/// Every line has pieces, or is no object.
pub fn every_line_has_pieces()
    ensures { (leaves : List JsonLeaf) (line : List ℕ) → (pieces : Pieces) × PiecesOf leaves line pieces }
{}
