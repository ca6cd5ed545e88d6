//! How many bytes a snapshot or a run record has. They are room that is taken at once, so no clause is about them: less would
//! make the bytes be moved as they grow, and more would lie unused.

use crate::entry_shape::ENTRY_SIZE;
use crate::summary_reading::{NAME_SIZE, ROW_SIZE};
use ga_base::{Entry, Key, Name};
use ga_summary::{RowView, Summary};

/// The bytes of a snapshot beside its summary and its entries: a version and a generation.
const SNAPSHOT_HEAD: usize = 9;

/// The bytes of the number of days that a snapshot keeps, where it says so.
const KEEP_SIZE: usize = 4;

/// The bytes of a run record beside these: a version.
const DELTA_HEAD: usize = 1;

/// Six totals, and the numbers of rows and of entries.
const COUNTS: usize = 64;

/// The number of bytes of a snapshot that keeps this many days, with this summary and these entries.
pub fn snapshot_size(keep: Option<u32>, summary: &Summary, entries: &[Entry]) -> usize {
    let head = match keep {
        Some(_) => SNAPSHOT_HEAD + KEEP_SIZE,
        None => SNAPSHOT_HEAD,
    };
    body_size(summary, entries).saturating_add(head)
}

/// The number of bytes of a run record with these.
pub fn delta_size(summary: &Summary, entries: &[Entry]) -> usize {
    body_size(summary, entries).saturating_add(DELTA_HEAD)
}

fn body_size(summary: &Summary, entries: &[Entry]) -> usize {
    let entries = entries.len().saturating_mul(ENTRY_SIZE);
    let mut size = entries.saturating_add(COUNTS);
    for at in 0..summary.len() {
        size = size.saturating_add(row_size(summary.row(at)));
    }
    size
}

fn row_size(row: RowView<'_>) -> usize {
    let mut size = key_size(row.key).saturating_add(ROW_SIZE);
    for name in row.names.items() {
        size = size.saturating_add(name_size(name));
    }
    size
}

/// The bytes of a key's texts.
fn key_size(key: &Key) -> usize {
    let mut size = 0usize;
    for text in [&key.parent, &key.label, &key.method, &key.protocol] {
        size = size.saturating_add(text.bytes().len());
    }
    size
}

fn name_size(name: &Name) -> usize {
    let texts = name
        .host
        .bytes()
        .len()
        .saturating_add(name.agent.bytes().len());
    texts.saturating_add(NAME_SIZE)
}
