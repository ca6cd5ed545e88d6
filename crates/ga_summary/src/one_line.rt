ghost use Rattle.std.specs.Prelude.{◌≡◌, IfOk, map};
ghost use Rattle.std.specs.Option.{option_copied};
ghost use Rattle.ga_summary.specs.Steps.Entries.{AllClosed, rows_of};
ghost use Rattle.ga_summary.specs.OneLine.{names_of, line_row, record_totals, record_sums};

use crate::entry::Entry;
use ga_base::{Key, Name, Names, NoMemory, Record, Sums, Totals, Visitor};
use std::alloc::Global;

/// The totals of a counted record.
pub(crate) fn totals_of_record(rec: &Record) -> Totals
    ensures { result ≡ record_totals rec.now }
{
    Totals {
        lines: 1,
        hits: 1,
        bytes: rec.bytes,
        micros: rec.micros.unwrap_or(0),
        ..Totals::ZERO
    }
}

/// The sums of a counted record.
pub(crate) fn sums_of_record(rec: &Record) -> Sums
    ensures { result ≡ record_sums rec.now }
{
    let micros = rec.micros.unwrap_or(0);
    Sums {
        hits: 1,
        bytes: rec.bytes,
        micros,
        max_micros: micros,
    }
}

/// The names of a visitor or none.
fn visitor_names(alloc: Global, visitor: Option<&Visitor>) -> Result<Names, NoMemory>
    ensures { IfOk result (λ names. names ≡ names_of (option_copied visitor.entry)) }
{
    let mut names = Names::new(alloc);
    if let Some(visitor) = visitor {
        names.push(Name {
            host: visitor.host.clone()?,
            agent: visitor.agent.clone()?,
        })?;
    }
    Ok(names)
}

/// An entry for each of the keys.
pub(crate) fn line_entries(
    alloc: Global,
    keys: &[Key],
    visitor: Option<&Visitor>,
    sums: Sums,
) -> Result<Vec<Box<Entry>>, NoMemory>
    ensures rows { IfOk result (λ v. rows_of v.items ≡ map (line_row sums (option_copied visitor.entry)) keys.now) }
    ensures closed { IfOk result (λ v. AllClosed v.items) }
{
    let mut entries = Vec::with_capacity(alloc, keys.len())?;
    for key in keys {
        let names = visitor_names(alloc, visitor)?;
        let entry = Entry::of(alloc, key.clone()?, sums, names);
        entries.push(Box::new(alloc, entry)?)?;
    }
    Ok(entries)
}
