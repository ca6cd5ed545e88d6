ghost use Rattle.std.specs.Prelude.{◌≡◌, IfOk, IfErr};
ghost use Rattle.ga_disk.specs.Trace.{DiskTrace};
ghost use Rattle.ga_ports.specs.Trace.{OutsTrace};
ghost use Rattle.ga_ports.specs.declared.outs.To.TheVariants.{Stderr};
ghost use Rattle.ga_print.specs.Keys.{keys_text};
ghost use Rattle.ga_store.specs.Database.{DbValue};
ghost use Rattle.ga_targets.specs.Printing.{ChangesOnly, TakesOrStops};
ghost use Rattle.ga_dbtool.specs.DbRun.{IsDbRun};
ghost use Rattle.ga_dbtool.specs.Ends.{Ends, Merges};
ghost use Rattle.ga_dbtool.specs.Opening.{Misses, Opens};
ghost use Rattle.ga_dbtool.specs.Outside.{disk_of, disks_of, outside_of};
ghost use Rattle.ga_dbtool.specs.Statuses.{fault_line};
ghost use Rattle.ga_dbtool.specs.Steps.Parts.{EndsOn, Shows, StopsMerging};
ghost use Rattle.ga_dbtool.specs.Steps.Tasks.{task_value};
ghost use Rattle.ga_dbtool.specs.Texts.{check_text};
ghost use Rattle.ga_dbtool.specs.Words.Task.{merging};

use crate::DbStatus;
use crate::facts::facts_text;
use crate::merging::{Ready, open_both, prepare_merge};
use crate::opening::open_db;
use crate::telling::tell;
use crate::words::{Task, task_of};
use ga_base::{Bytes, Text};
use ga_disk::Disk;
use ga_ports::{Outs, To};
use ga_print::keys_csv;
use ga_store::{StoreFault, commit};
use ga_targets::print;
use std::alloc::Global;

/// Runs the tool over the words of a command line, without the program's name.
///
/// `check DIR` and `dump DIR` open the database in DIR, and print how much is in it or what was counted under each of its keys.
/// `merge DIR OTHER` opens both databases, merges that in OTHER into that in DIR by one commit, and prints how much is in that
/// then. OTHER is synced and read, and never written. All memory is taken before anything is written. With any status but
/// `Done` a fault line goes to standard error.
pub fn db_run<D: Disk, O: Outs>(
    alloc: Global,
    words: &[Text],
    first: &mut D,
    second: &mut D,
    outs: &mut O,
) -> DbStatus
    ensures { IsDbRun words.now
        (outside_of (disk_of (D.view first.old) (D.images first.old)) (disk_of (D.view second.old) (D.images second.old)) (O.view outs.old))
        (outside_of (disk_of (D.view first.new) (D.images first.new)) (disk_of (D.view second.new) (D.images second.new)) (O.view outs.new)) result }
{
    match task_of(words) {
        Ok(task) => {
            let status = run_task(alloc, task, first, second, outs);
            tell(outs, &status);
            status
        }
        Err(at) => refuse(at, outs),
    }
}

/// Says that words are no form.
fn refuse<O: Outs>(at: u64, outs: &mut O) -> DbStatus
    ensures status { result ≡ DbStatus.BadWords at }
    ensures line { TakesOrStops (fault_line (DbStatus.BadWords at)) (O.view outs.old).stderr (O.view outs.new).stderr }
    ensures others { ChangesOnly Stderr (O.view outs.old) (O.view outs.new) }
    ensures calls { OutsTrace (O.view outs.old) (O.view outs.new) }
{
    let status = DbStatus::BadWords { at };
    tell(outs, &status);
    status
}

/// Does what the tool is asked for.
fn run_task<D: Disk, O: Outs>(
    alloc: Global,
    task: Task<'_>,
    first: &mut D,
    second: &mut D,
    outs: &mut O,
) -> DbStatus
    ensures ends { Ends (task_value task.entry)
        (outside_of (disk_of (D.view first.old) (D.images first.old)) (disk_of (D.view second.old) (D.images second.old)) (O.view outs.old))
        (outside_of (disk_of (D.view first.new) (D.images first.new)) (disk_of (D.view second.new) (D.images second.new)) (O.view outs.new)) result }
    ensures errors { (O.view outs.new).stderr ≡ (O.view outs.old).stderr }
    ensures first_calls { DiskTrace (D.view first.old) (D.view first.new) }
    ensures second_calls { DiskTrace (D.view second.old) (D.view second.new) }
    ensures calls { OutsTrace (O.view outs.old) (O.view outs.new) }
{
    match task {
        Task::Check(dir) => check(alloc, dir, first, outs),
        Task::Dump(dir) => dump(alloc, dir, first, outs),
        Task::Merge(dir, other) => merge(alloc, dir, other, first, second, outs),
    }
}

/// Prints how much is in the database in a folder.
fn check<D: Disk, O: Outs>(alloc: Global, dir: &Text, disk: &mut D, outs: &mut O) -> DbStatus
    ensures ends { EndsOn dir.now check_text (disk_of (D.view disk.old) (D.images disk.old)) (disk_of (D.view disk.new) (D.images disk.new)) (O.view outs.old) (O.view outs.new) result }
    ensures errors { (O.view outs.new).stderr ≡ (O.view outs.old).stderr }
    ensures disk_calls { DiskTrace (D.view disk.old) (D.view disk.new) }
    ensures calls { OutsTrace (O.view outs.old) (O.view outs.new) }
{
    match facts_at(alloc, dir, disk) {
        Ok(text) => show(outs, text.bytes()),
        Err(fault) => DbStatus::of_store(0, fault),
    }
}

/// How much is in the database in a folder.
fn facts_at<D: Disk>(alloc: Global, dir: &Text, disk: &mut D) -> Result<Bytes, StoreFault>
    ensures found { IfOk result (λ text. (db : DbValue) × Opens dir.now (disk_of (D.view disk.old) (D.images disk.old)) (disk_of (D.view disk.new) (D.images disk.new)) db × (text ≡ check_text db)) }
    ensures misses { IfErr result (Misses dir.now (disk_of (D.view disk.old) (D.images disk.old)) (disk_of (D.view disk.new) (D.images disk.new))) }
    ensures calls { DiskTrace (D.view disk.old) (D.view disk.new) }
{
    let db = open_db(alloc, dir, disk)?;
    let text = facts_text(alloc, db.generation, db.records, &db.summary, &db.entries)?;
    Ok(text)
}

/// Prints what was counted under each key of the database in a folder.
fn dump<D: Disk, O: Outs>(alloc: Global, dir: &Text, disk: &mut D, outs: &mut O) -> DbStatus
    ensures ends { EndsOn dir.now (λ db. keys_text db.summary) (disk_of (D.view disk.old) (D.images disk.old)) (disk_of (D.view disk.new) (D.images disk.new)) (O.view outs.old) (O.view outs.new) result }
    ensures errors { (O.view outs.new).stderr ≡ (O.view outs.old).stderr }
    ensures disk_calls { DiskTrace (D.view disk.old) (D.view disk.new) }
    ensures calls { OutsTrace (O.view outs.old) (O.view outs.new) }
{
    match keys_at(alloc, dir, disk) {
        Ok(text) => show(outs, text.bytes()),
        Err(fault) => DbStatus::of_store(0, fault),
    }
}

/// What was counted under each key of the database in a folder.
fn keys_at<D: Disk>(alloc: Global, dir: &Text, disk: &mut D) -> Result<Bytes, StoreFault>
    ensures found { IfOk result (λ text. (db : DbValue) × Opens dir.now (disk_of (D.view disk.old) (D.images disk.old)) (disk_of (D.view disk.new) (D.images disk.new)) db × (text ≡ keys_text db.summary)) }
    ensures misses { IfErr result (Misses dir.now (disk_of (D.view disk.old) (D.images disk.old)) (disk_of (D.view disk.new) (D.images disk.new))) }
    ensures calls { DiskTrace (D.view disk.old) (D.view disk.new) }
{
    let db = open_db(alloc, dir, disk)?;
    let text = keys_csv(alloc, &db.summary)?;
    Ok(text)
}

/// Merges the database in the second folder into that in the first, and prints how much is in that then.
fn merge<D: Disk, O: Outs>(
    alloc: Global,
    dir: &Text,
    other: &Text,
    first: &mut D,
    second: &mut D,
    outs: &mut O,
) -> DbStatus
    ensures ends { Ends (merging dir.now other.now)
        (outside_of (disk_of (D.view first.old) (D.images first.old)) (disk_of (D.view second.old) (D.images second.old)) (O.view outs.old))
        (outside_of (disk_of (D.view first.new) (D.images first.new)) (disk_of (D.view second.new) (D.images second.new)) (O.view outs.new)) result }
    ensures errors { (O.view outs.new).stderr ≡ (O.view outs.old).stderr }
    ensures first_calls { DiskTrace (D.view first.old) (D.view first.new) }
    ensures second_calls { DiskTrace (D.view second.old) (D.view second.new) }
    ensures calls { OutsTrace (O.view outs.old) (O.view outs.new) }
{
    match keep_merged(alloc, dir, other, first, second) {
        Ok(text) => show(outs, text.bytes()),
        Err(status) => status,
    }
}

/// Merges the database in the second folder into that in the first, and says how much is in that then.
fn keep_merged<D: Disk>(
    alloc: Global,
    dir: &Text,
    other: &Text,
    first: &mut D,
    second: &mut D,
) -> Result<Bytes, DbStatus>
    ensures merged { IfOk result (λ text. Merges dir.now other.now text
        (disks_of (disk_of (D.view first.old) (D.images first.old)) (disk_of (D.view second.old) (D.images second.old)))
        (disks_of (disk_of (D.view first.new) (D.images first.new)) (disk_of (D.view second.new) (D.images second.new)))) }
    ensures stops { IfErr result (StopsMerging dir.now other.now
        (disks_of (disk_of (D.view first.old) (D.images first.old)) (disk_of (D.view second.old) (D.images second.old)))
        (disks_of (disk_of (D.view first.new) (D.images first.new)) (disk_of (D.view second.new) (D.images second.new)))) }
    ensures first_calls { DiskTrace (D.view first.old) (D.view first.new) }
    ensures second_calls { DiskTrace (D.view second.old) (D.view second.new) }
{
    let pair = open_both(alloc, dir, other, first, second)?;
    let ready = prepare_merge(alloc, pair)?;
    let Ready { work, text } = ready;
    match commit(first, work) {
        Ok(()) => Ok(text),
        Err(_) => Err(DbStatus::DiskFault { db: 0 }),
    }
}

/// Prints a text on standard output.
fn show<O: Outs>(outs: &mut O, text: &[u8]) -> DbStatus
    ensures shows { Shows text.now (O.view outs.old) (O.view outs.new) result }
    ensures errors { (O.view outs.new).stderr ≡ (O.view outs.old).stderr }
    ensures calls { OutsTrace (O.view outs.old) (O.view outs.new) }
{
    match print(outs, To::Stdout, text) {
        Ok(()) => DbStatus::Done,
        Err(at) => DbStatus::OutFault { to: To::Stdout, at },
    }
}
