//! The tool for databases, and bytes that are written to targets.

use ga_base::{Bytes, Counter, NoMemory, Text};
use ga_dbtool::{DbStatus, db_run};
use ga_ports::{Disk, Outs, To};
use ga_print::keys_csv;
use ga_summary::Summary;
use ga_targets::{print, say};
use std::alloc::Global;

/// Each status.
pub const DB_STATUSES: [DbStatus; 9] = [
    DbStatus::Done,
    DbStatus::BadWords { at: 0 },
    DbStatus::DiskFault { db: 0 },
    DbStatus::OutFault {
        to: To::Stdout,
        at: 0,
    },
    DbStatus::CounterFull {
        which: Counter::Lines,
        total: 0,
    },
    DbStatus::DbDamaged {
        db: 1,
        side: 0,
        at: 1,
    },
    DbStatus::NoMemory,
    DbStatus::KeepDiffers {
        stored: 2,
        given: 3,
    },
    DbStatus::SharedEntry { left: 0, right: 0 },
];

/// The exit status of a run of the tool.
pub fn tool_code<D: Disk, O: Outs>(
    alloc: Global,
    words: &[Text],
    first: &mut D,
    second: &mut D,
    outs: &mut O,
) -> u8 {
    db_run(alloc, words, first, second, outs).code()
}

/// The keys of a summary.
pub fn keys_of_summary(alloc: Global, summary: &Summary) -> Result<Bytes, NoMemory> {
    keys_csv(alloc, summary)
}

/// Writes to standard output, and says where it failed.
pub fn print_or_say<O: Outs>(outs: &mut O, bytes: &[u8]) {
    if print(outs, To::Stdout, bytes).is_err() {
        say(outs, &[b"failed\n"]);
    }
}
