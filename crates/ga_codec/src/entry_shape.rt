ghost use Rattle.std.specs.Prelude.{◌≡◌, map, MatchOption, IfSome, IfNone};
ghost use Rattle.std.specs.List.{AllByRecursion};
ghost use Rattle.ga_codec.specs.Shapes.{IsEntry};
ghost use Rattle.ga_codec.specs.Steps.Grammar.{entry};
ghost use Rattle.ga_codec.specs.Steps.Parts.{Reads, listed, times};
ghost use Rattle.ga_codec.specs.Steps.Shapes.{shape_value};
ghost use Rattle.ga_codec.specs.Values.{entry_value};

use crate::CodecFault;
use crate::cursor::Cursor;
use ga_base::{Entry, FRONT};
use std::alloc::Global;

/// The size of an entry: a lead, a digest and an offset.
pub(crate) const ENTRY_SIZE: usize = 42;

/// What is spelled where an entry stands, whether its lead goes with its offset or not.
#[derive(Clone, Copy, Debug)]
pub(crate) struct EntryShape {
    lead: u16,
    digest: [u8; 32],
    offset: u64,
}

impl EntryShape {
    /// The entry, where something was counted and the lead goes with the offset.
    pub(crate) fn entry(&self) -> Option<Entry>
        ensures { MatchOption result (IsEntry (shape_value self.now) → ⊥) (λ e. (entry_value e ≡ shape_value self.now) × IsEntry (shape_value self.now)) }
    {
        let EntryShape {
            lead,
            digest,
            offset,
        } = *self;
        if offset < 1 {
            return None;
        }
        if u64::from(lead) != offset.min(FRONT) {
            return None;
        }
        Some(Entry {
            lead,
            digest,
            offset,
        })
    }
}

impl<'a> Cursor<'a> {
    /// Reads a list of entries.
    pub(crate) fn read_entries(&mut self, alloc: Global) -> Result<Vec<EntryShape>, CodecFault>
        ensures { Reads (listed entry) (λ v. map shape_value v.items) self.old self.new result }
    {
        let count = self.read_u64()?;
        self.read_each_entry(alloc, count)
    }

    /// Reads this many entries.
    fn read_each_entry(&mut self, alloc: Global, count: u64) -> Result<Vec<EntryShape>, CodecFault>
        ensures { Reads (times count entry) (λ v. map shape_value v.items) self.old self.new result }
    {
        let mut entries = Vec::with_capacity(alloc, self.room(count, ENTRY_SIZE))?;
        for _ in 0..count {
            let entry = self.read_entry()?;
            entries.push(entry)?;
        }
        Ok(entries)
    }

    fn read_entry(&mut self) -> Result<EntryShape, CodecFault>
        ensures { Reads entry shape_value self.old self.new result }
    {
        let lead = self.read_u16()?;
        let digest = self.read_array()?;
        let offset = self.read_u64()?;
        Ok(EntryShape {
            lead,
            digest,
            offset,
        })
    }
}
