ghost use Rattle.std.specs.Prelude.{◌≡◌, ◌++◌, ◌∷◌, ◌||◌, [], ℕ, List, Option, length, IsTrue, IsFalse};
ghost use Rattle.ga_jsonlog.specs.declared.leaf.JsonLeaf.{JsonLeaf as TheLeaf};
ghost use Rattle.ga_line.specs.Fits.{Part, Fits};
ghost use Rattle.ga_line.specs.Shapes.{FitsLeaves, FitsShape, has_taken, is_taken_item, read_parts};
ghost use Rattle.ga_line.specs.Steps.Fitting.{AreNoted, ArePieces, AreReadTo};

use crate::Shape;
use crate::fields::{Fields, is_taken_letter};
use crate::fitting::fit;
use ga_base::{FormatItem, Text};
use ga_jsonlog::{JsonLeaf, Pieces};

/// Whether a line fits the format, where these are its pieces for a JSON format. Notes the line's fields where it does; else
/// what is noted says nothing.
pub(crate) fn fit_shape<'a>(
    shape: &Shape,
    line: &'a [u8],
    pieces: &'a Pieces,
    fields: &mut Fields<'a>,
) -> bool
    requires none { AreNoted [] fields.old }
    requires pieces { ArePieces shape.now line.now pieces.now }
    ensures fits { IsTrue result → (parts : List Part) × FitsShape shape.now line.now parts × AreNoted parts fields.new }
    ensures misfit { IsFalse result → (parts : List Part) → ¬ FitsShape shape.now line.now parts }
{
    match shape {
        Shape::Plain(format) => fit(format.items(), line, fields),
        Shape::Json(format) => match pieces {
            Pieces::NoObject => false,
            Pieces::Leaves(texts) => fit_leaves(format.leaves(), texts.items(), fields),
        },
    }
}

/// Whether the texts at the leaves of a format fit their items.
fn fit_leaves<'a>(leaves: &[JsonLeaf], pieces: &'a [Option<Text>], fields: &mut Fields<'a>) -> bool
    requires none { AreNoted [] fields.old }
    requires many { length pieces.now ≡ length leaves.now }
    ensures fits { IsTrue result → (parts : List Part) × FitsLeaves leaves.now pieces.now parts × AreNoted parts fields.new }
    ensures misfit { IsFalse result → (parts : List Part) → ¬ FitsLeaves leaves.now pieces.now parts }
{
    let mut taken = false;
    for (at, leaf) in leaves.iter().enumerate() {
        if !fit_leaf(leaf, &pieces[at], taken, fields) {
            return false;
        }
        taken = is_taken_after(taken, leaf.items.items());
    }
    true
}

/// Whether what a line has at a leaf fits it: a text its items, and nothing always. `taken` says whether an earlier leaf has the time
/// that the answer took.
fn fit_leaf<'a>(
    leaf: &JsonLeaf,
    piece: &'a Option<Text>,
    taken: bool,
    fields: &mut Fields<'a>,
) -> bool
    ensures fits { IsTrue result → (leaves left : List TheLeaf) (pieces rest : List (Option (List ℕ))) (before : List Part) →
        AreReadTo leaves pieces (leaf.now ∷ left) (piece.now ∷ rest) taken before → AreNoted before fields.old →
        (more : List Part) × AreReadTo leaves pieces left rest (taken || has_taken leaf.now.items) more × AreNoted more fields.new }
    ensures misfit { IsFalse result → (leaves left : List TheLeaf) (pieces rest : List (Option (List ℕ))) (before : List Part) →
        AreReadTo leaves pieces (leaf.now ∷ left) (piece.now ∷ rest) taken before → (parts : List Part) → ¬ FitsLeaves leaves pieces parts }
{
    match piece {
        Some(text) => fit_text(leaf.items.items(), text.bytes(), taken, fields),
        None => true,
    }
}

/// Whether a text fits the items of its leaf, without the time taken where an earlier leaf has it.
fn fit_text<'a>(items: &[FormatItem], text: &'a [u8], taken: bool, fields: &mut Fields<'a>) -> bool
    ensures fits { IsTrue result → (own : List Part) × Fits items.now text.now own ×
        ((before : List Part) → AreNoted before fields.old → AreNoted (before ++ read_parts taken own) fields.new) }
    ensures misfit { IsFalse result → (own : List Part) → ¬ Fits items.now text.now own }
{
    if !taken {
        return fit(items, text, fields);
    }
    let first = fields.taken();
    if !fit(items, text, fields) {
        return false;
    }
    fields.keep_taken(first);
    true
}

/// Whether the time that the answer took is in an earlier leaf or among these items.
fn is_taken_after(taken: bool, items: &[FormatItem]) -> bool
    ensures { result ≡ (taken || has_taken items.now) }
{
    taken || has_taken(items)
}

/// Whether the time that the answer took is among these items.
fn has_taken(items: &[FormatItem]) -> bool
    ensures { result ≡ has_taken items.now }
{
    items.iter().any(|item| is_taken_item(item))
}

/// Whether the item has the time that the answer took.
fn is_taken_item(item: &FormatItem) -> bool
    ensures { result ≡ is_taken_item item.now }
{
    match item {
        FormatItem::Field(letter) => is_taken_letter(*letter),
        FormatItem::Literal(_) | FormatItem::Skip | FormatItem::Forwarded(_) => false,
    }
}
