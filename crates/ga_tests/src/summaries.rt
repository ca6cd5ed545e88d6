//! Summaries and reports.

ghost use Rattle.std.specs.Prelude.{◌+◌, ◌<◌, ◌≤◌, length};
ghost use Rattle.std.specs.Option.{option_copied};
ghost use Rattle.ga_base.specs.declared.counts.TheConstants.{LIMIT};
ghost use Rattle.ga_report.specs.Printable.{IsPrintable};
ghost use Rattle.ga_summary.specs.Outcomes.{hit_of};
ghost use Rattle.ga_summary.specs.Sound.{IsCountable};

use ga_base::{
    Amounts, Bytes, Counter, DateSpec, Key, Keys, Name, Names, NoMemory, PanelSet, Record, Sums,
    Text, Totals, Visitor,
};
use ga_print::{csv, json};
use ga_report::{
    General, Item, Items, LastDays, PanelList, PanelLists, Report, Row, RowList, RowSource,
    hundredths, last_days, rows, rows_from,
};
use ga_summary::{
    MergeFault, NotSound, PartRow, PartRows, RowView, Summary, SummaryParts, totals_fit,
};
use std::alloc::Global;
use std::thread::Threads;

/// The faults of parts.
pub const SUM_FAULTS: [NotSound; 2] = [NotSound::NotSound { at: 0 }, NotSound::NoMemory];

/// The faults of sums.
pub const MERGE_FAULTS: [MergeFault; 2] = [
    MergeFault::CounterFull {
        which: Counter::Lines,
        total: 0,
    },
    MergeFault::NoMemory,
];

/// The sum of no lines.
pub fn empty(alloc: Global) -> Summary {
    Summary::empty(alloc)
}

/// That of lines that aren't counted.
pub fn of_lines(alloc: Global, failed: u64, excluded: u64) -> Summary
    requires { failed + excluded ≤ LIMIT }
{
    Summary::of_lines(alloc, failed, excluded)
}

/// Totals of one hit.
pub fn totals_of_one() -> Totals {
    Totals {
        lines: 1,
        failed: 0,
        excluded: 0,
        hits: 1,
        bytes: 0,
        micros: 0,
    }
}

/// Whether no counter of totals is above the limit.
pub fn fit(totals: Totals) -> bool {
    totals_fit(totals)
}

/// A row of one hit.
pub fn row_of_one(key: Key, names: Names) -> PartRow {
    PartRow {
        key,
        sums: Sums {
            hits: 1,
            bytes: 0,
            micros: 0,
            max_micros: 0,
        },
        names,
    }
}

/// A name.
pub fn name(host: Text, agent: Text) -> Name {
    Name { host, agent }
}

/// The summary of parts.
pub fn of_parts(rows: PartRows) -> Result<Summary, NotSound> {
    Summary::from_parts(SummaryParts {
        totals: totals_of_one(),
        rows,
    })
}

/// Its totals.
pub fn totals(sum: &Summary) -> Totals {
    sum.totals()
}

/// The number of its rows.
pub fn len(sum: &Summary) -> u64 {
    sum.len()
}

/// A row, of which each field is named.
pub fn row(sum: &Summary, at: u64) -> (&Key, Sums, &Names)
    requires { at < length sum.now.rows }
{
    let RowView { key, sums, names } = sum.row(at);
    (key, sums, names)
}

/// What is counted under a key.
pub fn amounts(sum: &Summary, key: &Key) -> Option<Amounts> {
    sum.amounts_of(key)
}

/// The visitors among the amounts, of which each field is named.
pub fn visitors_of(amounts: &Amounts) -> u64 {
    let Amounts {
        hits: _,
        bytes: _,
        micros: _,
        max_micros: _,
        visitors,
    } = amounts;
    *visitors
}

/// Whether a key has a visitor.
pub fn has_pair(sum: &Summary, key: &Key, visitor: &Visitor) -> bool {
    sum.has_pair(key, visitor)
}

/// Counts a line.
pub fn add(
    sum: &mut Summary,
    keys: &Keys,
    visitor: Option<&Visitor>,
    rec: &Record,
) -> Result<(), MergeFault>
    requires { IsCountable rec.now.date (hit_of keys.now (option_copied visitor) rec.now) }
{
    sum.add(keys, visitor, rec)
}

/// Adds a sum.
pub fn merge(sum: &mut Summary, other: &Summary) -> Result<(), MergeFault> {
    sum.merge(other)
}

/// The sum of two.
pub fn join(sum: Summary, other: Summary) -> Result<Summary, MergeFault> {
    sum.join(other)
}

/// Keeps its last days.
pub fn trim(sum: &mut Summary, keep: u32) {
    sum.trim(keep)
}

/// A copy.
pub fn copy(sum: &Summary) -> Result<Summary, NoMemory> {
    sum.copy()
}

/// The report on a sum.
pub fn report(
    alloc: Global,
    sum: &Summary,
    panels: &PanelSet,
    max_items: u64,
    spec: DateSpec,
) -> Result<Report, NoMemory> {
    rows(alloc, sum, panels, max_items, spec)
}

/// The report on rows from elsewhere.
pub fn report_from<R: Threads + Sync, T: RowSource + Sync>(
    rt: &R,
    alloc: Global,
    source: &T,
    panels: &PanelSet,
    max_items: u64,
    spec: DateSpec,
    jobs: u32,
) -> Result<Report, NoMemory> {
    rows_from(rt, alloc, source, panels, max_items, spec, jobs)
}

/// The last days of a sum, for a report.
pub fn last(alloc: Global, sum: &Summary, keep: u32) -> Result<LastDays<'_, Summary>, NoMemory>
    requires { 1 ≤ keep }
{
    last_days(alloc, sum, keep)
}

/// The general numbers of a report.
pub fn general(report: &Report) -> General {
    let General {
        total_requests,
        valid_requests,
        failed_requests,
        excluded_hits,
        unique_visitors,
        bandwidth,
    } = report.general;
    General {
        total_requests,
        valid_requests,
        failed_requests,
        excluded_hits,
        unique_visitors,
        bandwidth,
    }
}

/// The panels of a report.
pub fn panels(report: &Report) -> &PanelLists {
    &report.panels
}

/// The rows of a panel.
pub fn rows_of(list: &PanelList) -> &RowList {
    let PanelList { panel: _, rows } = list;
    rows
}

/// The entries of a row.
pub fn children_of(row: &Row) -> &Items {
    let Row { item: _, children } = row;
    children
}

/// The hits of an entry.
pub fn hits_of(item: &Item) -> u64 {
    let Item {
        label: _,
        method: _,
        protocol: _,
        hits,
        visitors: _,
        bytes: _,
        micros: _,
        max_micros: _,
        hits_percent: _,
        visitors_percent: _,
        bytes_percent: _,
    } = item;
    *hits
}

/// A share in hundredths of a percent.
pub fn share(n: u64, t: u64) -> u64
    requires { n ≤ t }
{
    hundredths(n, t)
}

/// A report as JSON.
pub fn json_of(alloc: Global, report: &Report) -> Result<Bytes, NoMemory>
    requires { IsPrintable report.now }
{
    json(alloc, report)
}

/// A report as CSV.
pub fn csv_of(alloc: Global, report: &Report) -> Result<Bytes, NoMemory>
    requires { IsPrintable report.now }
{
    csv(alloc, report)
}
