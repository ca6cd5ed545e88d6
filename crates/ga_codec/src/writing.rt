ghost use Rattle.std.specs.Prelude.{◌≡◌, ◌+◌, ◌<◌, IfOk, OnOk, length, map};
ghost use Rattle.std.specs.Int.{w16, w32, w64};
ghost use Rattle.ga_base.specs.Panels.{panel_number};
ghost use Rattle.ga_summary.specs.Sound.{IsSummary};
ghost use Rattle.ga_codec.specs.Appending.{AppendsDelta, AppendsSnapshot};
ghost use Rattle.ga_codec.specs.Shapes.{IsGeneration, SpellDelta, SpellSnapshot};
ghost use Rattle.ga_codec.specs.Steps.Grammar as grammar;
ghost use Rattle.ga_codec.specs.Steps.Parts.{Writes, listed};
ghost use Rattle.ga_codec.specs.Steps.Shapes.{viewed_row};
ghost use Rattle.ga_codec.specs.Values.{delta_value, entry_value, snapshot_value};

use crate::sizes::{delta_size, snapshot_size};
use crate::snapshot_start::{KEEP_VERSION, VERSION};
use crate::{Delta, Snapshot};
use ga_base::{Bytes, Entry, Key, Name, NoMemory, Panel, Sums, Text, Totals};
use ga_summary::{RowView, Summary};
use std::alloc::Global;

/// The bytes of a snapshot.
pub fn write_snapshot(alloc: Global, snapshot: &Snapshot) -> Result<Bytes, NoMemory>
    requires { IsGeneration snapshot.now.generation }
    ensures { IfOk result (λ bytes. SpellSnapshot bytes (snapshot_value snapshot.now)) }
{
    let entries = snapshot.entries.items();
    let (generation, keep, summary) = (snapshot.generation, snapshot.keep, &snapshot.summary);
    let mut out = Vec::with_capacity(alloc, snapshot_size(keep, summary, entries))?;
    push_snapshot(&mut out, generation, keep, summary, entries)?;
    Ok(Bytes::from(out))
}

/// The bytes of a run record.
pub fn write_delta(alloc: Global, delta: &Delta) -> Result<Bytes, NoMemory>
    ensures { IfOk result (λ bytes. SpellDelta bytes (delta_value delta.now)) }
{
    let entries = delta.entries.items();
    let mut out = Vec::with_capacity(alloc, delta_size(&delta.summary, entries))?;
    push_delta(&mut out, &delta.summary, entries)?;
    Ok(Bytes::from(out))
}

/// Appends the bytes of a snapshot of this generation, which keeps this many of the last days, and has this summary and these
/// entries. It says how many days it keeps where there is such a number.
pub fn push_snapshot(
    out: &mut Vec<u8>,
    generation: u64,
    keep: Option<u32>,
    summary: &Summary,
    entries: &[Entry],
) -> Result<(), NoMemory>
    requires { IsGeneration generation }
    ensures { OnOk result (AppendsSnapshot generation keep summary.now entries.now out.old.items out.new.items) }
{
    put_snapshot_start(out, generation, keep)?;
    put_summary(out, summary)?;
    put_entries(out, entries)?;
    Ok(())
}

/// Appends the bytes of a run record that has this summary and these entries.
pub fn push_delta(out: &mut Vec<u8>, summary: &Summary, entries: &[Entry]) -> Result<(), NoMemory>
    ensures { OnOk result (AppendsDelta summary.now entries.now out.old.items out.new.items) }
{
    out.push(VERSION)?;
    put_summary(out, summary)?;
    put_entries(out, entries)?;
    Ok(())
}

/// Appends what is before the summary of a snapshot.
fn put_snapshot_start(out: &mut Vec<u8>, generation: u64, keep: Option<u32>) -> Result<(), NoMemory>
    requires { IsGeneration generation }
    ensures { OnOk result (Writes grammar.snapshot_start (record { generation = generation; keep = keep }) out.old.items out.new.items) }
{
    match keep {
        Some(keep) => {
            out.push(KEEP_VERSION)?;
            put_u64(out, generation)?;
            put_u32(out, keep)?;
            Ok(())
        }
        None => {
            out.push(VERSION)?;
            put_u64(out, generation)?;
            Ok(())
        }
    }
}

fn put_u16(out: &mut Vec<u8>, n: u16) -> Result<(), NoMemory>
    ensures { OnOk result (Writes (grammar.number w16) n out.old.items out.new.items) }
{
    out.extend_from_slice(&n.to_be_bytes())?;
    Ok(())
}

fn put_u32(out: &mut Vec<u8>, n: u32) -> Result<(), NoMemory>
    ensures { OnOk result (Writes (grammar.number w32) n out.old.items out.new.items) }
{
    out.extend_from_slice(&n.to_be_bytes())?;
    Ok(())
}

fn put_u64(out: &mut Vec<u8>, n: u64) -> Result<(), NoMemory>
    ensures { OnOk result (Writes (grammar.number w64) n out.old.items out.new.items) }
{
    out.extend_from_slice(&n.to_be_bytes())?;
    Ok(())
}

fn put_text(out: &mut Vec<u8>, text: &Text) -> Result<(), NoMemory>
    ensures { OnOk result (Writes grammar.text text.now out.old.items out.new.items) }
{
    let bytes = text.bytes();
    put_u64(out, bytes.len() as u64)?;
    out.extend_from_slice(bytes)?;
    Ok(())
}

fn put_summary(out: &mut Vec<u8>, summary: &Summary) -> Result<(), NoMemory>
    ensures bytes { OnOk result (Writes grammar.summary summary.now out.old.items out.new.items) }
    ensures sound { IsSummary summary.now }
{
    put_totals(out, summary.totals())?;
    put_rows(out, summary)?;
    Ok(())
}

fn put_totals(out: &mut Vec<u8>, totals: Totals) -> Result<(), NoMemory>
    ensures { OnOk result (Writes grammar.totals totals out.old.items out.new.items) }
{
    put_u64(out, totals.lines)?;
    put_u64(out, totals.failed)?;
    put_u64(out, totals.excluded)?;
    put_u64(out, totals.hits)?;
    put_u64(out, totals.bytes)?;
    put_u64(out, totals.micros)?;
    Ok(())
}

fn put_rows(out: &mut Vec<u8>, summary: &Summary) -> Result<(), NoMemory>
    ensures { OnOk result (Writes (listed grammar.row) summary.now.rows out.old.items out.new.items) }
{
    let count = summary.len();
    put_u64(out, count)?;
    for at in 0..count {
        put_row(out, summary.row(at))?;
    }
    Ok(())
}

fn put_row(out: &mut Vec<u8>, row: RowView<'_>) -> Result<(), NoMemory>
    ensures { OnOk result (Writes grammar.row (viewed_row row.entry) out.old.items out.new.items) }
{
    put_key(out, row.key)?;
    put_sums(out, row.sums)?;
    put_names(out, row.names.items())?;
    Ok(())
}

fn put_key(out: &mut Vec<u8>, key: &Key) -> Result<(), NoMemory>
    ensures { OnOk result (Writes grammar.key key.now out.old.items out.new.items) }
{
    out.push(panel_byte(&key.panel))?;
    put_u32(out, key.date)?;
    put_text(out, &key.parent)?;
    put_text(out, &key.label)?;
    put_text(out, &key.method)?;
    put_text(out, &key.protocol)?;
    Ok(())
}

/// The byte that represents a panel, from 1 on in the report's order.
fn panel_byte(panel: &Panel) -> u8
    ensures { result ≡ panel_number panel.now + 1 }
{
    panel.number() as u8 + 1
}

fn put_sums(out: &mut Vec<u8>, sums: Sums) -> Result<(), NoMemory>
    ensures { OnOk result (Writes grammar.sums sums out.old.items out.new.items) }
{
    put_u64(out, sums.hits)?;
    put_u64(out, sums.bytes)?;
    put_u64(out, sums.micros)?;
    put_u64(out, sums.max_micros)?;
    Ok(())
}

fn put_names(out: &mut Vec<u8>, names: &[Name]) -> Result<(), NoMemory>
    ensures { OnOk result (Writes (listed grammar.name) names.now out.old.items out.new.items) }
{
    put_u64(out, names.len() as u64)?;
    for name in names {
        put_name(out, name)?;
    }
    Ok(())
}

fn put_name(out: &mut Vec<u8>, name: &Name) -> Result<(), NoMemory>
    ensures { OnOk result (Writes grammar.name name.now out.old.items out.new.items) }
{
    put_text(out, &name.host)?;
    put_text(out, &name.agent)?;
    Ok(())
}

fn put_entries(out: &mut Vec<u8>, entries: &[Entry]) -> Result<(), NoMemory>
    ensures { OnOk result (Writes (listed grammar.entry) (map entry_value entries.now) out.old.items out.new.items) }
{
    put_u64(out, entries.len() as u64)?;
    for entry in entries {
        put_entry(out, entry)?;
    }
    Ok(())
}

fn put_entry(out: &mut Vec<u8>, entry: &Entry) -> Result<(), NoMemory>
    ensures { OnOk result (Writes grammar.entry (entry_value entry.now) out.old.items out.new.items) }
{
    put_u16(out, entry.lead)?;
    put_digest(out, &entry.digest)?;
    put_u64(out, entry.offset)?;
    Ok(())
}

fn put_digest(out: &mut Vec<u8>, digest: &[u8; 32]) -> Result<(), NoMemory>
    ensures { OnOk result (Writes (grammar.any_bytes 32) digest.now out.old.items out.new.items) }
{
    out.extend_from_slice(digest)?;
    Ok(())
}
