ghost use Rattle.std.specs.Prelude.{◌≡◌, [], ℕ, map, length, IfOk, IfSome, IfNone, IsErrOf, MatchOption};
ghost use Rattle.std.specs.List.{AllByRecursion};
ghost use Rattle.ga_summary.specs.SummaryParts.{value_of};
ghost use Rattle.ga_summary.specs.Sound.{IsSummary};
ghost use Rattle.ga_codec.specs.Shapes.{IsEntry, IsNoDelta, IsNoSnapshot, SpellDelta, SpellSnapshot};
ghost use Rattle.ga_codec.specs.Steps.Grammar.{delta, snapshot};
ghost use Rattle.ga_codec.specs.Steps.Parts.{Reads};
ghost use Rattle.ga_codec.specs.Steps.Shapes.{AreGood, delta_shape, shape_value, snapshot_shape};
ghost use Rattle.ga_codec.specs.Values.{delta_value, entry_value, snapshot_value};

use crate::cursor::Cursor;
use crate::entry_shape::EntryShape;
use crate::snapshot_start::Start;
use crate::{CodecFault, Delta, Snapshot};
use ga_base::{Entries, NoMemory};
use ga_summary::{NotSound, Summary, SummaryParts};
use std::alloc::Global;

/// A summary and entries as they are spelled, whether they are sound or not.
#[derive(Debug, Drop)]
pub(crate) struct Body {
    pub(crate) summary: SummaryParts,
    pub(crate) entries: Vec<EntryShape>,
}

/// Reads a snapshot. All of the bytes have to be its spelling.
///
/// It takes one pass over the bytes, and no more memory than in proportion to them, whatever lengths they state.
pub fn read_snapshot(alloc: Global, bytes: &[u8]) -> Result<Snapshot, CodecFault>
    ensures read { IfOk result (λ s. SpellSnapshot bytes.now (snapshot_value s)) }
    ensures refused { (at : ℕ) → IsErrOf result (CodecFault.NotInGrammar at) → IsNoSnapshot bytes.now at }
{
    let mut cursor = Cursor::of(bytes);
    let (start, body) = cursor.read_snapshot(alloc)?;
    let (summary, entries) = body.finish(alloc, &cursor)?;
    Ok(Snapshot {
        generation: start.generation,
        keep: start.keep,
        summary,
        entries,
    })
}

/// Reads a run record. All of the bytes have to be its spelling.
///
/// It takes one pass over the bytes, and no more memory than in proportion to them, whatever lengths they state.
pub fn read_delta(alloc: Global, bytes: &[u8]) -> Result<Delta, CodecFault>
    ensures read { IfOk result (λ d. SpellDelta bytes.now (delta_value d)) }
    ensures refused { (at : ℕ) → IsErrOf result (CodecFault.NotInGrammar at) → IsNoDelta bytes.now at }
{
    let mut cursor = Cursor::of(bytes);
    let body = cursor.read_delta(alloc)?;
    let (summary, entries) = body.finish(alloc, &cursor)?;
    Ok(Delta { summary, entries })
}

impl<'a> Cursor<'a> {
    fn read_snapshot(&mut self, alloc: Global) -> Result<(Start, Body), CodecFault>
        ensures { Reads snapshot (λ s. snapshot_shape s.0 s.1) self.old self.new result }
    {
        let start = self.read_snapshot_start()?;
        let summary = self.read_summary(alloc)?;
        let entries = self.read_entries(alloc)?;
        Ok((start, Body { summary, entries }))
    }

    fn read_delta(&mut self, alloc: Global) -> Result<Body, CodecFault>
        ensures { Reads delta delta_shape self.old self.new result }
    {
        self.read_version()?;
        let summary = self.read_summary(alloc)?;
        let entries = self.read_entries(alloc)?;
        Ok(Body { summary, entries })
    }
}

impl Body {
    /// The summary and the entries, where they are sound and all bytes were read.
    pub(crate) fn finish(
        self,
        alloc: Global,
        cursor: &Cursor,
    ) -> Result<(Summary, Entries), CodecFault>
        ensures good { IfOk result (λ r. (cursor.now.rest ≡ []) × AreGood self × (r.0 ≡ value_of self.summary)
            × (map entry_value r.1 ≡ map shape_value self.entries.items)) }
        ensures bad { (at : ℕ) → IsErrOf result (CodecFault.NotInGrammar at)
            → (at ≡ cursor.now.place) × (cursor.now.rest ≡ [] → AreGood self → ⊥) }
    {
        if !cursor.rest().is_empty() {
            return Err(cursor.fault(0));
        }
        let Some(entries) = entries_of(alloc, &self.entries)? else {
            return Err(cursor.fault(0));
        };
        match Summary::from_parts(self.summary) {
            Ok(summary) => Ok((summary, entries)),
            Err(NotSound::NotSound { .. }) => Err(cursor.fault(0)),
            Err(NotSound::NoMemory) => Err(CodecFault::NoMemory),
        }
    }
}

/// The entries, where each lead goes with its offset.
fn entries_of(alloc: Global, shapes: &[EntryShape]) -> Result<Option<Entries>, NoMemory>
    ensures { IfOk result (λ found. MatchOption found (AllByRecursion IsEntry (map shape_value shapes.now) → ⊥)
        (λ entries. (map entry_value entries ≡ map shape_value shapes.now) × AllByRecursion IsEntry (map shape_value shapes.now))) }
{
    let mut entries = Vec::with_capacity(alloc, shapes.len())?;
    for shape in shapes {
        match shape.entry() {
            Some(entry) => entries.push(entry)?,
            None => return Ok(None),
        }
    }
    Ok(Some(Entries::from(entries)))
}
