ghost use Rattle.std.specs.Prelude.{◌≡◌, IfOk, OnOk};
ghost use Rattle.std.specs.Option.{option_map};
ghost use Rattle.ga_numbers.specs.VisitorRefs.{visitor_of};
ghost use Rattle.ga_panels.specs.Refs.{key_of};
ghost use Rattle.ga_panels.specs.Table.{group_keys, with_group};
ghost use Rattle.ga_tallies.specs.Steps.Adding.{added_at, with_line};
ghost use Rattle.ga_tallies.specs.Steps.Notes.{NotesKey, NotesKeys, NotesVisitor, keys_told, number_in};

use crate::{Pair, Tally};
use ga_base::{NoMemory, Panel, Sums};
use ga_numbers::VisitorRef;
use ga_panels::{KeyRef, RecordFacts};
use std::alloc::Global;

/// The visitor of a line.
#[derive(Clone, Copy)]
pub(crate) struct Visit {
    /// The visitor's number.
    number: u32,
    /// Whether this line is the visitor's first, so that none of its pairs is there yet.
    is_first: bool,
}

impl Tally {
    /// Notes the visitor of a line, where it has one, and gives its number.
    pub(crate) fn note_visitor(
        &mut self,
        alloc: Global,
        visitor: Option<VisitorRef<'_>>,
    ) -> Result<Option<Visit>, NoMemory>
        ensures { IfOk result
            (λ visit. NotesVisitor (option_map visitor_of visitor.entry) (number_in visit) self.old self.new) }
    {
        match visitor {
            None => Ok(None),
            Some(visitor) => {
                let before = self.visitors.len();
                let number = self.visitors.number(alloc, &visitor)?;
                let is_first = number >= before;
                Ok(Some(Visit { number, is_first }))
            }
        }
    }

    /// Notes the keys of a record, panel by panel, each with the line's sums and the number of its visitor.
    pub(crate) fn note_keys(
        &mut self,
        alloc: Global,
        facts: &RecordFacts<'_>,
        visit: Option<Visit>,
        line: Sums,
    ) -> Result<(), NoMemory>
        ensures { OnOk result (NotesKeys (keys_told facts.now) (number_in visit) line self.old self.new) }
    {
        for panel in Panel::ALL {
            self.note_entry(alloc, facts.key_in(panel), visit, line)?;
        }
        Ok(())
    }

    /// Notes the key of an entry, if there is one, and before it that of its group, if it has one.
    fn note_entry(
        &mut self,
        alloc: Global,
        entry: Option<KeyRef<'_>>,
        visit: Option<Visit>,
        line: Sums,
    ) -> Result<(), NoMemory>
        ensures { OnOk result
            (NotesKeys (with_group (option_map key_of entry.entry)) (number_in visit) line self.old self.new) }
    {
        let Some(entry) = entry else {
            return Ok(());
        };
        self.note_group(alloc, &entry, visit, line)?;
        self.note_key(alloc, &entry, visit, line)
    }

    /// Notes the key of an entry's group, if it has one.
    fn note_group(
        &mut self,
        alloc: Global,
        entry: &KeyRef<'_>,
        visit: Option<Visit>,
        line: Sums,
    ) -> Result<(), NoMemory>
        ensures { OnOk result
            (NotesKeys (group_keys (key_of entry.now) entry.now.parent.now) (number_in visit) line self.old self.new) }
    {
        match entry.group() {
            None => Ok(()),
            Some(group) => self.note_key(alloc, &group, visit, line),
        }
    }

    /// Notes one key of a line.
    fn note_key(
        &mut self,
        alloc: Global,
        key: &KeyRef<'_>,
        visit: Option<Visit>,
        line: Sums,
    ) -> Result<(), NoMemory>
        ensures { OnOk result (NotesKey (key_of key.now) (number_in visit) line self.old self.new) }
    {
        let number = self.keys.number(alloc, key)?;
        add_line(&mut self.sums, number, line)?;
        match visit {
            None => Ok(()),
            Some(visit) => {
                let visitor = visit.number;
                let pair = Pair {
                    key: number,
                    visitor,
                };
                self.pairs.add(pair, visit.is_first)
            }
        }
    }
}

/// Adds a line's sums to the row at a place, or puts them after the rows where none is there yet.
pub(crate) fn add_line(rows: &mut Vec<Sums>, place: u32, line: Sums) -> Result<(), NoMemory>
    ensures { OnOk result (rows.new.items ≡ added_at place line rows.old.items) }
{
    let place = place as usize;
    if place < rows.len() {
        rows[place] = with_line(rows[place], line);
    } else {
        rows.push(line)?;
    }
    Ok(())
}

/// The sums of a row and of a line. None of them stops: a key's sums are at most the totals, and these fit `LIMIT`.
fn with_line(row: Sums, line: Sums) -> Sums
    ensures { result ≡ with_line row line }
{
    Sums {
        hits: row.hits.saturating_add(line.hits),
        bytes: row.bytes.saturating_add(line.bytes),
        micros: row.micros.saturating_add(line.micros),
        max_micros: row.max_micros.max(line.max_micros),
    }
}
