ghost use Rattle.std.specs.Prelude.{◌≡◌, ◌+◌, ◌<◌, ◌≤◌, ◌^◌, ◌↔◌, ◌⊎◌, ◌++◌, false, true, drop, length, map, Some, IfOk, IfErr, IsErrOf};
ghost use Rattle.ga_base.specs.declared.counts.TheConstants.{LIMIT};
ghost use Rattle.ga_base.specs.declared.counts.Counter.TheVariants.{Generations};
ghost use Rattle.ga_summary.specs.Sound.{IsSummary};
ghost use Rattle.ga_codec.specs.Values.{entry_value};
ghost use Rattle.ga_store.specs.Commit.{Agrees, IsGenerationOf, IsRecordOf, IsWorkOf, Makes, MergesBy, after_run, closed_part, other_side, passes_generations, position_of};
ghost use Rattle.ga_store.specs.Database.{DbValue};
ghost use Rattle.ga_store.specs.Steps.Committing.{db_at};
ghost use Rattle.ga_store.specs.Store.{db_value};
ghost use Rattle.ga_store.specs.declared.side_parts.TheConstants.{LENGTH};

use crate::side_parts::{FRAME, LENGTH};
use crate::{Db, Mode, Position, StoreFault};
use ga_base::{Bytes, Counter, Entries, LIMIT, NoMemory};
use ga_codec::{delta_size, push_delta, push_snapshot, snapshot_size};
use ga_summary::Summary;
use sha2::{Digest, Sha256};
use std::alloc::Global;
use std::marker::Model;

/// How many run records a side has room for after its snapshot.
const MOST_RECORDS: u64 = 64;

/// The work of one run, ready to be written without memory.
#[derive(Debug, Drop)]
pub struct Prepared {
    /// The side that is written.
    side: u32,
    /// The place of the gate there.
    gate: u64,
    /// What is written after it: a part, and a closed gate.
    tail: Bytes,
    /// Whether it is a new generation, after which the side ends.
    is_new: bool,
}

impl Model for Prepared {
    ghost use Rattle.ga_store.specs.Commit.{Work};

    ghost Value = { Work };

    ghost view = { λ w. record { side = w.side; gate = w.gate; tail = w.tail; is_new = w.is_new } };
}

/// The work of a run over a database, in a mode. It touches no disk.
///
/// `keep` is how many of the last days the database keeps after the run, 0 for all; `merged` has these days alone.
///
/// A run is added as a record where a side is there that says how many days it keeps and has room for one; else it becomes a
/// new generation on the other side, and `CounterFull` is answered exactly where its number would be above `LIMIT`.
pub fn prepare(
    alloc: Global,
    db: &Db,
    run: &Summary,
    merged: &Summary,
    entries: &Entries,
    keep: u32,
    mode: Mode,
) -> Result<Prepared, StoreFault>
    requires agrees { Agrees mode keep (db_value db.now) }
    requires merged { MergesBy mode keep db.now.summary run.now merged.now }
    ensures work { IfOk result (IsWorkOf mode keep (db_value db.now) run.now merged.now (map entry_value entries.now)) }
    ensures makes { IfOk result (λ work. let entries' = map entry_value entries.now in
        Makes work (db_value db.now) (after_run mode keep (db_value db.now) merged.now entries' work)) }
    ensures full { IsErrOf result (StoreFault.CounterFull Generations (LIMIT + 1))
        ↔ (passes_generations mode (db_value db.now) ≡ true) }
    ensures causes { IfErr result (λ fault. (fault ≡ StoreFault.NoMemory) ⊎ (fault ≡ StoreFault.CounterFull Generations (LIMIT + 1))) }
{
    prepare_at(alloc, db.position(), run, merged, entries, keep, mode)
}

/// The same over any database that stands at this position, whatever was counted in it.
pub fn prepare_at(
    alloc: Global,
    position: Position,
    run: &Summary,
    merged: &Summary,
    entries: &Entries,
    keep: u32,
    mode: Mode,
) -> Result<Prepared, StoreFault>
    ensures work { IfOk result (λ work. (db : DbValue) → position_of db ≡ position
        → IsWorkOf mode keep db run.now merged.now (map entry_value entries.now) work) }
    ensures makes { IfOk result (λ work. (db : DbValue) → position_of db ≡ position → Agrees mode keep db
        → MergesBy mode keep db.summary run.now merged.now → Makes work db (after_run mode keep db merged.now (map entry_value entries.now) work)) }
    ensures full { (db : DbValue) → position_of db ≡ position → IsErrOf result (StoreFault.CounterFull Generations (LIMIT + 1))
        ↔ (passes_generations mode db ≡ true) }
    ensures causes { IfErr result (λ fault. (fault ≡ StoreFault.NoMemory) ⊎ (fault ≡ StoreFault.CounterFull Generations (LIMIT + 1))) }
{
    summary_is_sound(merged);
    work_of(alloc, position, run, merged, entries, keep, mode)
}

/// A record where there is room for one, else a new generation.
fn work_of(
    alloc: Global,
    position: Position,
    run: &Summary,
    merged: &Summary,
    entries: &Entries,
    keep: u32,
    mode: Mode,
) -> Result<Prepared, StoreFault>
    ensures work { IfOk result (IsWorkOf mode keep (db_at position) run.now merged.now (map entry_value entries.now)) }
    ensures full { IsErrOf result (StoreFault.CounterFull Generations (LIMIT + 1))
        ↔ (passes_generations mode (db_at position) ≡ true) }
    ensures causes { IfErr result (λ fault. (fault ≡ StoreFault.NoMemory) ⊎ (fault ≡ StoreFault.CounterFull Generations (LIMIT + 1))) }
{
    match (mode, position.side, position.keep) {
        (Mode::Append, Some(side), Some(_)) if position.records < MOST_RECORDS => {
            Ok(record(alloc, position, side, run, entries)?)
        }
        _ => generation(alloc, position, merged, entries, keep),
    }
}

/// Each summary is sound.
fn summary_is_sound(summary: &Summary)
    ensures { IsSummary summary.now }
{
    summary.totals();
}

/// A run record after the last one.
fn record(
    alloc: Global,
    position: Position,
    side: u32,
    run: &Summary,
    entries: &Entries,
) -> Result<Prepared, NoMemory>
    requires { position.side ≡ Some side }
    ensures { IfOk result (IsRecordOf (db_at position) run.now (map entry_value entries.now)) }
{
    let entries = entries.items();
    let mut part = begin_part(alloc, delta_size(run, entries))?;
    push_delta(&mut part, run, entries)?;
    Ok(Prepared {
        side,
        gate: position.slot,
        tail: end_part(part)?,
        is_new: false,
    })
}

/// A new generation on the other side.
fn generation(
    alloc: Global,
    position: Position,
    merged: &Summary,
    entries: &Entries,
    keep: u32,
) -> Result<Prepared, StoreFault>
    ensures work { IfOk result (IsGenerationOf (db_at position) keep merged.now (map entry_value entries.now)) }
    ensures full { IsErrOf result (StoreFault.CounterFull Generations (LIMIT + 1)) ↔ (LIMIT ≤ position.generation) }
    ensures causes { IfErr result (λ fault. (fault ≡ StoreFault.NoMemory) ⊎ (fault ≡ StoreFault.CounterFull Generations (LIMIT + 1))) }
{
    if position.generation >= LIMIT {
        return Err(StoreFault::CounterFull {
            which: Counter::Generations,
            total: LIMIT as u128 + 1,
        });
    }
    Ok(next_generation(alloc, position, merged, entries, keep)?)
}

/// A new generation, where its number isn't above `LIMIT`.
fn next_generation(
    alloc: Global,
    position: Position,
    merged: &Summary,
    entries: &Entries,
    keep: u32,
) -> Result<Prepared, NoMemory>
    requires { position.generation < LIMIT }
    ensures { IfOk result (IsGenerationOf (db_at position) keep merged.now (map entry_value entries.now)) }
{
    let entries = entries.items();
    let mut part = begin_part(alloc, snapshot_size(Some(keep), merged, entries))?;
    push_snapshot(
        &mut part,
        position.generation + 1,
        Some(keep),
        merged,
        entries,
    )?;
    Ok(Prepared {
        side: other_side(position.side),
        gate: 0,
        tail: end_part(part)?,
        is_new: true,
    })
}

/// The side that a new generation goes to: the other than the chosen one, or side 0.
fn other_side(side: Option<u32>) -> u32
    ensures { result ≡ other_side side }
{
    match side {
        Some(0) => 1,
        _ => 0,
    }
}

/// The front of a part, where the length of its body will be, with room for a body of this size, its digest and a gate.
fn begin_part(alloc: Global, size: usize) -> Result<Vec<u8>, NoMemory>
    ensures { IfOk result (λ part. length part.items ≡ LENGTH) }
{
    let mut part = Vec::with_capacity(alloc, size.saturating_add(FRAME + 1))?;
    part.extend_from_slice(&[0; LENGTH])?;
    Ok(part)
}

/// The part that begins so and has this body, and a closed gate after it.
fn end_part(part: Vec<u8>) -> Result<Bytes, NoMemory>
    requires { LENGTH ≤ length part.items }
    ensures part { IfOk result (λ tail. tail ≡ closed_part (drop LENGTH part.items)) }
    ensures size { length (drop LENGTH part.items) < 2 ^ 64 }
{
    let mut part = part;
    let size = (part.len() - LENGTH) as u64;
    set_front(&mut part, &size.to_be_bytes());
    let digest = Sha256::digest(&part[LENGTH..]);
    part.extend_from_slice(&digest)?;
    part.push(0)?;
    Ok(Bytes::from(part))
}

/// Puts the length of a body in front of it.
fn set_front(part: &mut [u8], front: &[u8; LENGTH])
    requires { LENGTH ≤ length part.old }
    ensures { part.new ≡ front.now ++ drop LENGTH part.old }
{
    part[..LENGTH].copy_from_slice(front);
}

impl Prepared {
    /// The side that is written.
    pub fn side(&self) -> u32
        ensures { result ≡ self.now.side }
    {
        self.side
    }

    /// The place of the gate there.
    pub fn gate(&self) -> u64
        ensures { result ≡ self.now.gate }
    {
        self.gate
    }

    /// What is written after it: a part, and a closed gate.
    pub fn tail(&self) -> &[u8]
        ensures { result.now ≡ self.now.tail }
    {
        self.tail.bytes()
    }

    /// Whether it is a new generation.
    pub fn is_new(&self) -> bool
        ensures { result ≡ self.now.is_new }
    {
        self.is_new
    }
}
