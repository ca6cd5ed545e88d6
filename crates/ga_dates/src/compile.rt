ghost use Rattle.std.specs.Prelude.{◌≡◌, ℕ, ◌<◌, length, List, IfOk, IfErr, Ok, Err};
ghost use Rattle.std.specs.List.{list_all, list_any};
ghost use Rattle.ga_base.specs.declared.formats.FormatFault.{FormatFault as FaultSpec};
ghost use Rattle.ga_dates.specs.declared.item.Item.{Item as ItemSpec};
ghost use Rattle.ga_dates.specs.Items.{AreOnce, gives, needed_parts};
ghost use Rattle.ga_dates.specs.Grammar.{IsFormat, IsFormatFault, Token, IsRow};
ghost use Rattle.ga_dates.specs.Steps.Compile.{AddsToken, IsTokenFault};

use crate::directive::{directive_at, gives_part};
use crate::{Item, Kind};
use ga_base::FormatFault;
use std::alloc::Global;

/// The items of a format's text, which give each part that formats of the kind need.
pub(crate) fn compile(alloc: Global, kind: Kind, text: &[u8]) -> Result<Vec<Item>, FormatFault>
    ensures format { IfOk result (λ items. IsFormat kind text.now items.items) }
    ensures fault { IfErr result (IsFormatFault kind text.now) }
{
    let items = row_items(alloc, kind, text)?;
    if gives_needed(kind, &items) {
        Ok(items)
    } else {
        Err(FormatFault::BadDirective {
            at: text.len() as u64,
        })
    }
}

fn gives_needed(kind: Kind, items: &[Item]) -> bool
    ensures { result ≡ list_all (λ part. list_any (gives part) items.now) (needed_parts kind) }
{
    kind.needed_parts()
        .iter()
        .all(|part| gives_part(items, *part))
}

fn row_items(alloc: Global, kind: Kind, text: &[u8]) -> Result<Vec<Item>, FormatFault>
    ensures row { IfOk result (λ items. (tokens : List Token) × IsRow kind tokens text.now items.items) }
    ensures fault { IfErr result (IsFormatFault kind text.now) }
{
    let mut items = Vec::new(alloc);
    let mut at = 0;
    while at < text.len() {
        at = push_token(kind, &mut items, text, at)?;
    }
    Ok(items)
}

/// Adds the items of the token at `at`, and answers the place after it.
fn push_token(
    kind: Kind,
    items: &mut Vec<Item>,
    text: &[u8],
    at: usize,
) -> Result<usize, FormatFault>
    requires inside { at < length text.now }
    requires once { AreOnce items.old.items }
    ensures ok { IfOk result (λ next. AddsToken kind text.now at next items.old.items items.new.items) }
    ensures fault { IfErr result (IsTokenFault kind text.now at items.old.items) }
{
    if text[at] != b'%' {
        items.push(Item::Literal(text[at]))?;
        return Ok(at + 1);
    }
    match directive_at(kind, items, text, at) {
        Some(added) => {
            items.extend_from_slice(added)?;
            Ok(at + 2)
        }
        None => Err(FormatFault::BadDirective { at: at as u64 }),
    }
}
