ghost use Rattle.std.specs.Prelude.{◌≡◌, ◌↔◌, ◌≤◌, ◌++◌, ℕ, true, false, [], None, Some, length, map, IfOk, IsErrOf, IsTrue, OnOk};
ghost use Rattle.std.specs.Option.{option_map};
ghost use Rattle.ga_summary.specs.SummaryParts.{rows_in, value_of};
ghost use Rattle.ga_codec.specs.declared.fault.CodecFault.TheVariants.{NotInGrammar};
ghost use Rattle.ga_codec.specs.Pieces.{BeginsNone, GoesOn, HasNone, front_bytes, is_full};
ghost use Rattle.ga_codec.specs.Shapes.{SpellDelta, SpellSnapshot};
ghost use Rattle.ga_codec.specs.Steps.Grammar.{entry};
ghost use Rattle.ga_codec.specs.Steps.Parts.{Reads, listed};
ghost use Rattle.ga_codec.specs.Steps.Pieces.{IsFront, ReadsHead, ReadsRows, head, head_value};
ghost use Rattle.ga_codec.specs.Steps.Shapes.{shape_value};
ghost use Rattle.ga_codec.specs.Values.{delta_value, snapshot_value};

use crate::cursor::Cursor;
use crate::snapshot_reading::Body;
use crate::{CodecFault, Delta, Snapshot};
use ga_base::Totals;
use ga_summary::{PartRow, PartRows, SummaryParts};
use std::alloc::Global;
use std::marker::Model;

/// A snapshot or a run record that is read from pieces of its bytes, one after the other.
#[derive(Debug, Drop)]
pub struct BodyReader {
    /// A snapshot, else a run record.
    is_snapshot: bool,
    /// What comes before the rows, once it was read.
    head: Option<Head>,
    /// The rows that were read, at most as many as the head says, and none before it.
    rows: Vec<PartRow>,
}

/// What a body says before its rows.
#[derive(Clone, Copy, Debug)]
struct Head {
    /// The number of a snapshot, 0 in a run record.
    generation: u64,
    /// How many of the last days a snapshot keeps, where it says so.
    keep: Option<u32>,
    totals: Totals,
    /// The number of rows.
    count: u64,
}

impl Model for BodyReader {
    ghost use Rattle.std.specs.Option.{option_map};
    ghost use Rattle.ga_summary.specs.SummaryParts.{rows_in};
    ghost use Rattle.ga_codec.specs.Pieces.{BodyFront};
    ghost use Rattle.ga_codec.specs.Steps.Pieces.{IsFront, head_value};

    ghost Value = { BodyFront };

    ghost view = { λ r. record { is_snapshot = r.is_snapshot; head = option_map head_value r.head; rows = rows_in r.rows.items } };

    ghost invariant = { λ r. IsFront (record { is_snapshot = r.is_snapshot; head = option_map head_value r.head; rows = rows_in r.rows.items }) };
}

impl BodyReader {
    /// A reader of a snapshot, before any of it was read.
    pub fn of_snapshot(alloc: Global) -> BodyReader
        ensures { result ≡ record { is_snapshot = true; head = None; rows = [] } }
    {
        BodyReader {
            is_snapshot: true,
            head: None,
            rows: Vec::new(alloc),
        }
    }

    /// A reader of a run record, before any of it was read.
    pub fn of_delta(alloc: Global) -> BodyReader
        ensures { result ≡ record { is_snapshot = false; head = None; rows = [] } }
    {
        BodyReader {
            is_snapshot: false,
            head: None,
            rows: Vec::new(alloc),
        }
    }

    /// Reads on at the front of a piece, which follows what was read: as many rows as the piece has whole. It answers how many
    /// bytes were read; the next piece begins after those.
    ///
    /// `is_last` says that nothing follows the piece. After a fault the reader is of no more use.
    pub fn read(&mut self, alloc: Global, piece: &[u8], is_last: bool) -> Result<usize, CodecFault>
        ensures read { IfOk result (λ n. GoesOn n piece.now self.old self.new) }
        ensures last { OnOk result (is_last ≡ true → is_full self.new ≡ true) }
        ensures refused { (at : ℕ) → IsErrOf result (CodecFault.NotInGrammar at)
            → BeginsNone self.old.is_snapshot is_last (front_bytes self.old ++ piece.now) }
    {
        let mut cursor = Cursor::of(piece);
        let Some(head) = cursor.find_head(self.head, self.is_snapshot, is_last)? else {
            return Ok(0);
        };
        self.head = Some(head);
        cursor.read_more_rows(alloc, &mut self.rows, head.count, is_last)
    }

    /// Whether all rows were read.
    pub fn is_full(&self) -> bool
        ensures { result ≡ is_full self.now }
    {
        match self.head {
            Some(head) => self.rows.len() as u64 == head.count,
            None => false,
        }
    }

    /// The number of a snapshot, once it was read.
    pub fn generation(&self) -> Option<u64>
        ensures { result ≡ option_map (λ h. h.generation) self.now.head }
    {
        match self.head {
            Some(head) => Some(head.generation),
            None => None,
        }
    }

    /// The snapshot, where what follows the rows is the piece.
    pub fn finish_snapshot(self, alloc: Global, piece: &[u8]) -> Result<Snapshot, CodecFault>
        requires kind { self.is_snapshot ≡ true }
        requires full { is_full self ≡ true }
        ensures read { IfOk result (λ s. SpellSnapshot (front_bytes self ++ piece.now) (snapshot_value s)) }
        ensures generation { IfOk result (λ s. option_map (λ h. h.generation) self.head ≡ Some s.generation) }
        ensures keep { IfOk result (λ s. option_map (λ h. h.keep) self.head ≡ Some s.keep) }
        ensures refused { (at : ℕ) → IsErrOf result (CodecFault.NotInGrammar at) → HasNone true (front_bytes self ++ piece.now) }
    {
        let mut cursor = Cursor::of(piece);
        let (head, body) = self.into_body(alloc, &mut cursor)?;
        let (summary, entries) = body.finish(alloc, &cursor)?;
        Ok(Snapshot {
            generation: head.generation,
            keep: head.keep,
            summary,
            entries,
        })
    }

    /// The run record, where what follows the rows is the piece.
    pub fn finish_delta(self, alloc: Global, piece: &[u8]) -> Result<Delta, CodecFault>
        requires kind { self.is_snapshot ≡ false }
        requires full { is_full self ≡ true }
        ensures read { IfOk result (λ d. SpellDelta (front_bytes self ++ piece.now) (delta_value d)) }
        ensures refused { (at : ℕ) → IsErrOf result (CodecFault.NotInGrammar at) → HasNone false (front_bytes self ++ piece.now) }
    {
        let mut cursor = Cursor::of(piece);
        let (_, body) = self.into_body(alloc, &mut cursor)?;
        let (summary, entries) = body.finish(alloc, &cursor)?;
        Ok(Delta { summary, entries })
    }

    /// The head, and the body with the entries that the cursor has next.
    fn into_body(self, alloc: Global, cursor: &mut Cursor) -> Result<(Head, Body), CodecFault>
        requires { is_full self ≡ true }
        ensures front { IsFront self }
        ensures read { Reads (listed entry) (λ r. map shape_value r.1.entries.items) cursor.old cursor.new result }
        ensures same { IfOk result (λ r. (self.head ≡ Some (head_value r.0))
            × (value_of r.1.summary ≡ record { totals = r.0.totals; rows = self.rows })) }
    {
        let BodyReader { head, rows, .. } = self;
        let Some(head) = head else { unreachable!() };
        let entries = cursor.read_entries(alloc)?;
        let rows = PartRows::from(rows);
        let summary = SummaryParts {
            totals: head.totals,
            rows,
        };
        Ok((head, Body { summary, entries }))
    }
}

impl<'a> Cursor<'a> {
    /// The head that is known, else the one that is read. There is none where that needs more bytes.
    fn find_head(
        &mut self,
        known: Option<Head>,
        is_snapshot: bool,
        is_last: bool,
    ) -> Result<Option<Head>, CodecFault>
        ensures { ReadsHead is_snapshot is_last (option_map head_value known) self.old self.new result }
    {
        if let Some(head) = known {
            return Ok(Some(head));
        }
        let end = self.end();
        match self.read_head(is_snapshot) {
            Ok(head) => Ok(Some(head)),
            Err(fault) => {
                if needs_more(fault, end, is_last) {
                    return Ok(None);
                }
                Err(fault)
            }
        }
    }

    fn read_head(&mut self, is_snapshot: bool) -> Result<Head, CodecFault>
        ensures { Reads (head is_snapshot) head_value self.old self.new result }
    {
        let start = self.read_start(is_snapshot)?;
        let totals = self.read_totals()?;
        let count = self.read_u64()?;
        Ok(Head {
            generation: start.generation,
            keep: start.keep,
            totals,
            count,
        })
    }

    /// Reads rows up to this number, as many as there are whole, and answers the place after them.
    fn read_more_rows(
        &mut self,
        alloc: Global,
        rows: &mut Vec<PartRow>,
        count: u64,
        is_last: bool,
    ) -> Result<usize, CodecFault>
        requires { length rows.old.items ≤ count }
        ensures { ReadsRows count is_last (rows_in rows.old.items) (rows_in rows.new.items) self.old result }
    {
        for _ in rows.len() as u64..count {
            let (before, end) = (self.place(), self.end());
            match self.read_row(alloc, rows.as_slice()) {
                Ok(row) => rows.push(row)?,
                Err(fault) => {
                    if needs_more(fault, end, is_last) {
                        return Ok(before as usize);
                    }
                    return Err(fault);
                }
            }
        }
        Ok(self.place() as usize)
    }
}

/// Whether a fault says that the bytes end too early, at this place, where others follow them.
fn needs_more(fault: CodecFault, end: u64, is_last: bool) -> bool
    ensures { IsTrue result ↔ (is_last ≡ false) × (fault ≡ CodecFault.NotInGrammar end) }
{
    !is_last && fault == CodecFault::NotInGrammar { at: end }
}
