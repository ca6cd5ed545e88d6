ghost use Rattle.std.specs.Prelude.{◌≡◌, ◌+◌, ◌≤◌, length, IfSome, MatchOption};
ghost use Rattle.ga_base.specs.declared.panel.Panel.{Panel as ThePanel};
ghost use Rattle.ga_base.specs.Panels.{panel_number};
ghost use Rattle.ga_summary.specs.SummaryParts.{row_of_part, rows_in, value_of};
ghost use Rattle.ga_codec.specs.Steps.Grammar.{key, name, panel, row, summary, sums, totals};
ghost use Rattle.ga_codec.specs.Steps.Parts.{Reads, listed, times};

use crate::CodecFault;
use crate::cursor::Cursor;
use ga_base::{Key, Name, Names, Panel, Sums, Text, Totals};
use ga_summary::{PartRow, PartRows, SummaryParts};
use std::alloc::Global;
use std::cmp::Ordering;

/// The least size of a name: those of two texts.
pub(crate) const NAME_SIZE: usize = 16;

/// The least size of a row: a panel, a day, four texts, four sums and the number of names.
pub(crate) const ROW_SIZE: usize = 77;

/// How many of the names that are left are searched before all of them: the next is nearly always near.
const NEAR: [usize; 3] = [8, 64, 512];

/// The panel that a byte represents, from 1 on in the report's order.
fn panel_of(byte: u8) -> Option<Panel>
    ensures { MatchOption result ((p : ThePanel) → panel_number p + 1 ≡ byte → ⊥) (λ p. panel_number p + 1 ≡ byte) }
{
    Panel::from_number(usize::from(byte.checked_sub(1)?))
}

impl<'a> Cursor<'a> {
    /// Reads a summary's totals and rows, whether they are sound or not.
    pub(crate) fn read_summary(&mut self, alloc: Global) -> Result<SummaryParts, CodecFault>
        ensures { Reads summary value_of self.old self.new result }
    {
        let totals = self.read_totals()?;
        let rows = self.read_rows(alloc)?;
        Ok(SummaryParts { totals, rows })
    }

    pub(crate) fn read_totals(&mut self) -> Result<Totals, CodecFault>
        ensures { Reads totals (λ t. t) self.old self.new result }
    {
        let lines = self.read_u64()?;
        let failed = self.read_u64()?;
        let excluded = self.read_u64()?;
        let hits = self.read_u64()?;
        let bytes = self.read_u64()?;
        let micros = self.read_u64()?;
        Ok(Totals {
            lines,
            failed,
            excluded,
            hits,
            bytes,
            micros,
        })
    }

    fn read_rows(&mut self, alloc: Global) -> Result<PartRows, CodecFault>
        ensures { Reads (listed row) rows_in self.old self.new result }
    {
        let count = self.read_u64()?;
        self.read_each_row(alloc, count)
    }

    /// Reads this many rows.
    fn read_each_row(&mut self, alloc: Global, count: u64) -> Result<PartRows, CodecFault>
        ensures { Reads (times count row) rows_in self.old self.new result }
    {
        let mut rows = Vec::with_capacity(alloc, self.room(count, ROW_SIZE))?;
        for _ in 0..count {
            let row = self.read_row(alloc, &rows)?;
            rows.push(row)?;
        }
        Ok(PartRows::from(rows))
    }

    /// Reads a row that comes after these.
    pub(crate) fn read_row(
        &mut self,
        alloc: Global,
        before: &[PartRow],
    ) -> Result<PartRow, CodecFault>
        ensures { Reads row row_of_part self.old self.new result }
    {
        let key = self.read_key(alloc)?;
        let sums = self.read_sums()?;
        let names = self.read_names(alloc, likely_names(before, key.date))?;
        Ok(PartRow { key, sums, names })
    }

    fn read_key(&mut self, alloc: Global) -> Result<Key, CodecFault>
        ensures { Reads key (λ k. k) self.old self.new result }
    {
        let panel = self.read_panel()?;
        let date = self.read_u32()?;
        let parent = self.read_text(alloc)?;
        let label = self.read_text(alloc)?;
        let method = self.read_text(alloc)?;
        let protocol = self.read_text(alloc)?;
        Ok(Key {
            panel,
            date,
            parent,
            label,
            method,
            protocol,
        })
    }

    fn read_panel(&mut self) -> Result<Panel, CodecFault>
        ensures { Reads panel (λ p. p) self.old self.new result }
    {
        match panel_of(self.peek()?) {
            Some(panel) => {
                self.skip(1);
                Ok(panel)
            }
            None => Err(self.fault(0)),
        }
    }

    fn read_sums(&mut self) -> Result<Sums, CodecFault>
        ensures { Reads sums (λ s. s) self.old self.new result }
    {
        let hits = self.read_u64()?;
        let bytes = self.read_u64()?;
        let micros = self.read_u64()?;
        let max_micros = self.read_u64()?;
        Ok(Sums {
            hits,
            bytes,
            micros,
            max_micros,
        })
    }

    /// Reads names, and shares the texts of those that are among the known ones.
    fn read_names(&mut self, alloc: Global, known: &[Name]) -> Result<Names, CodecFault>
        ensures { Reads (listed name) (λ names. names) self.old self.new result }
    {
        let count = self.read_u64()?;
        self.read_each_name(alloc, count, known)
    }

    /// Reads this many names. Each is looked for after the one that was found last.
    fn read_each_name(
        &mut self,
        alloc: Global,
        count: u64,
        known: &[Name],
    ) -> Result<Names, CodecFault>
        ensures { Reads (times count name) (λ names. names) self.old self.new result }
    {
        let mut names = Vec::with_capacity(alloc, self.room(count, NAME_SIZE))?;
        let mut left = known;
        for _ in 0..count {
            let (name, rest) = self.read_name(alloc, left)?;
            names.push(name)?;
            left = rest;
        }
        Ok(Names::from(names))
    }

    /// Reads a name, and answers the known ones among which the next may be.
    fn read_name<'k>(
        &mut self,
        alloc: Global,
        known: &'k [Name],
    ) -> Result<(Name, &'k [Name]), CodecFault>
        ensures { Reads name (λ read. read.0) self.old self.new result }
    {
        let (host, agent) = (self.read_str()?, self.read_str()?);
        match find_name(known, host, agent) {
            Some((name, rest)) => Ok((name.clone()?, rest)),
            None => {
                let (host, agent) = (Text::of(alloc, host)?, Text::of(alloc, agent)?);
                Ok((Name { host, agent }, known))
            }
        }
    }
}

/// The names that those of a row of this day may be among: the day's, or those of the day of the row before, where the day's own row is
/// read. Texts of names that are among them are shared.
fn likely_names(rows: &[PartRow], date: u32) -> &[Name] {
    match (names_of_day(rows, date), rows.last()) {
        (Some(names), _) => names,
        (None, Some(last)) => names_of_day(rows, last.key.date).unwrap_or(&[]),
        (None, None) => &[],
    }
}

/// The names of a day among rows that rise: those of its row of VISITORS. Each other key of the day has some of them. Where rows don't
/// rise the row may be missed.
fn names_of_day(rows: &[PartRow], date: u32) -> Option<&[Name]> {
    let at = rows.partition_point(|row| is_before_day(&row.key, date));
    match rows.get(at) {
        Some(row) if row.key.panel == Panel::Visitors && row.key.date == date => {
            Some(row.names.items())
        }
        _ => None,
    }
}

/// Whether a key comes before the key of VISITORS of a day.
fn is_before_day(key: &Key, date: u32) -> bool {
    key.panel == Panel::Visitors && key.date < date
}

/// The name of this host and agent among names that rise, and those after it. Where they don't rise it may be missed.
fn find_name<'n>(names: &'n [Name], host: &str, agent: &str) -> Option<(&'n Name, &'n [Name])>
    ensures { IfSome result (λ found. found.0.now ≡ record { host = host.now; agent = agent.now }) }
{
    let at = near_names(names, host, agent)
        .binary_search_by(|name| compare_name(name, host, agent))
        .ok()?;
    let (_, rest) = names.split_at(at);
    let (name, rest) = rest.split_first()?;
    if name.host.as_str() == host && name.agent.as_str() == agent {
        Some((name, rest))
    } else {
        None
    }
}

/// The shortest of a few fronts that is followed by a name after this host and agent, else all names.
fn near_names<'n>(names: &'n [Name], host: &str, agent: &str) -> &'n [Name]
    ensures { length result.now ≤ length names.now }
{
    for size in NEAR {
        if let Some(next) = names.get(size) {
            if compare_name(next, host, agent).is_gt() {
                return &names[..size];
            }
        }
    }
    names
}

/// How a name compares to one of this host and agent.
fn compare_name(name: &Name, host: &str, agent: &str) -> Ordering {
    name.host
        .as_str()
        .cmp(host)
        .then_with(|| name.agent.as_str().cmp(agent))
}
