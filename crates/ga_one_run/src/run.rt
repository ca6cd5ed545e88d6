ghost use Rattle.std.specs.Prelude.{◌≡◌, None, false, IfOk, IfErr, IsTrue, OnOk, option_map};
ghost use Rattle.std.specs.Option.{option_copied};
ghost use Rattle.ga_disk.specs.Trace.{DiskTrace};
ghost use Rattle.ga_ports.specs.Trace.{FilesTrace, OutsTrace};
ghost use Rattle.ga_generate.specs.Summary.{summary_text};
ghost use Rattle.ga_keep.specs.RunDatabase as database;
ghost use Rattle.ga_keep.specs.RunDatabase.{IsBaseOf, differing};
ghost use Rattle.ga_base.specs.Totals.{LinesAdd, TotalsFit};
ghost use Rattle.ga_line.specs.declared.setup.LineSetup.{LineSetup};
ghost use Rattle.ga_logs.specs.Following.{CanServe};
ghost use Rattle.ga_logs.specs.Logs.{CountsLogs};
ghost use Rattle.ga_ports.specs.Files.{FilesView};
ghost use Rattle.ga_print.specs.Json.{json_text};
ghost use Rattle.ga_report.specs.LastDays.{trimmed_source};
ghost use Rattle.ga_report.specs.Printable.{IsPrintable};
ghost use Rattle.ga_store.specs.Database.{DbValue, empty_db};
ghost use Rattle.ga_store.specs.Store.{db_value};
ghost use Rattle.ga_workers.specs.Workers.{AreWorkers};
ghost use Rattle.ga_summary.specs.Sound.{IsSummary};
ghost use Rattle.ga_one_run.specs.Printing.{report_file, target_of};
ghost use Rattle.ga_one_run.specs.Reports.{IsTextTold, text_as};
ghost use Rattle.ga_one_run.specs.Statuses.{target_name};
ghost use Rattle.ga_one_run.specs.Outside.{outside_of};
ghost use Rattle.ga_totals.specs.Totals.{IsOfCountable};
ghost use Rattle.ga_one_run.specs.Steps.Run.{AreSums, CountsOn, CountsRun, Differs, EndsAlone, EndsInputs, EndsLast, EndsReport, EndsRun, HasPanels, IsOfLines, IsReady, IsSetUp, IsTextAlone, IsTextOfTotal, NoFileFailed, StopsAlone, StopsCounting, StopsFrom, StopsPanels, failed_name, input_name, whole_in, workers_said};

use crate::printing::deliver;
use crate::rules::rules_of;
use crate::setups::{SetupFault, line_setup, panel_setup};
use crate::{Input, Status};
use ga_base::{Bytes, Entries, NoMemory, Text};
use ga_disk::Disk;
use ga_generate::summary;
use ga_keep::{Base, add_run, base_of, differs, find, keep, start, uses_database, whole};
use ga_line::LineSetup;
use ga_logs::count_logs;
use ga_outcomes::Setup;
use ga_panels::PanelSetup;
use ga_ports::laws::files_stay;
use ga_ports::{Files, Gate, Outs, To};
use ga_print::{csv, json_with};
use ga_report::{Report, RowSource, last_days, rows_from};
use ga_resume::Start;
use ga_store::{Db, Position};
use ga_summary::Summary;
use ga_totals::Total;
use ga_words::{Kind, Settings};
use ga_workers::{Crew, Workers};
use std::alloc::Global;
use std::mem;
use std::thread::Threads;

/// What a run works with: threads, the gate that its workers pass, memory, and what the words say.
#[derive(Drop)]
pub(crate) struct RunContext<'a, R, G> {
    pub(crate) rt: &'a R,
    pub(crate) gate: &'a G,
    pub(crate) alloc: Global,
    pub(crate) settings: &'a Settings,
}

/// What a run counted, and what it began with.
#[derive(Debug, Drop)]
struct RunCounts {
    /// Where the database stands that was found.
    position: Position,
    /// What the run counted on from, grown by what it counted.
    base: Base,
    /// The sum of its own lines; their last days, where it doesn't restore.
    run: Summary,
}

/// What the fault line of a status calls what failed: a file by its name, or the report's target.
pub(crate) fn failed_name<'a>(settings: &'a Settings, status: &Status) -> &'a [u8]
    ensures { result.now ≡ failed_name settings.now status.now }
{
    match status {
        Status::FileFault { file } | Status::FileShort { file, .. } => input_name(settings, *file),
        Status::OutFault { .. } => target_name(settings),
        _ => b"",
    }
}

/// The name of a file that the settings name.
fn input_name(settings: &Settings, file: Input) -> &[u8]
    ensures { result.now ≡ input_name settings.now file }
{
    let name = match file {
        Input::Conf => None,
        Input::Rules => settings.browsers_file.as_ref(),
        Input::Log(place) => settings.logs.items().get(place as usize),
    };
    match name {
        Some(name) => name.bytes(),
        None => b"",
    }
}

/// What a fault line calls the report's target.
fn target_name(settings: &Settings) -> &[u8]
    ensures { result.now ≡ target_name (report_file settings.now.generate settings.now.output.name) }
{
    match report_file(settings) {
        None => b"standard output",
        Some(name) => name.bytes(),
    }
}

/// The name of the report's file, if it has one. A run over generated lines has none.
fn report_file(settings: &Settings) -> Option<&Text>
    ensures { option_map (λ name. name.now) result ≡ report_file settings.now.generate settings.now.output.name }
{
    let name = &settings.output.name;
    if settings.generate.is_some() || name.bytes().is_empty() {
        None
    } else {
        Some(name)
    }
}

/// Runs as the settings say: their formats first, then the inputs.
pub(crate) fn run_settings<R: Threads + Sync, G: Gate, F: Files, D: Disk, O: Outs>(
    context: &RunContext<'_, R, G>,
    files: &mut F,
    disk: &mut D,
    outs: &mut O,
) -> Status
    ensures { EndsRun context.now.settings.now
        (outside_of (F.view files.old) (D.view disk.old) (D.images disk.old) (O.view outs.old))
        (outside_of (F.view files.new) (D.view disk.new) (D.images disk.new) (O.view outs.new)) result }
{
    match line_setup(context.alloc, context.settings) {
        Ok(line) => run_inputs(context, line, files, disk, outs),
        Err(SetupFault::Refused { which, fault }) => Status::BadFormat { which, fault },
        Err(SetupFault::NoMemory) => Status::NoMemory,
    }
}

/// Reads the inputs that the settings name, keeps the run and delivers the report.
fn run_inputs<R: Threads + Sync, G: Gate, F: Files, D: Disk, O: Outs>(
    context: &RunContext<'_, R, G>,
    line: LineSetup,
    files: &mut F,
    disk: &mut D,
    outs: &mut O,
) -> Status
    ensures { EndsInputs line context.now.settings.now
        (outside_of (F.view files.old) (D.view disk.old) (D.images disk.old) (O.view outs.old))
        (outside_of (F.view files.new) (D.view disk.new) (D.images disk.new) (O.view outs.new)) result }
{
    // What is known of calls of the files, for the proof alone: the call does nothing.
    files_stay();
    match read_panels(context.alloc, context.settings, files) {
        Ok(panels) => run_setup(context, &Setup { line, panels }, files, disk, outs),
        Err(status) => status,
    }
}

/// How lines are counted: the rules of the browsers file are read for it.
fn read_panels<F: Files>(
    alloc: Global,
    settings: &Settings,
    files: &mut F,
) -> Result<PanelSetup, Status>
    ensures ok { IfOk result (HasPanels settings.now (F.view files.old) (F.view files.new)) }
    ensures stops { IfErr result (StopsPanels settings.now (F.view files.old) (F.view files.new)) }
    ensures calls { FilesTrace (F.view files.old) (F.view files.new) }
{
    let rules = rules_of(alloc, settings.browsers_file.as_ref(), files)?;
    let panels = panel_setup(alloc, settings, rules)?;
    Ok(panels)
}

/// Counts the logs, keeps the run and delivers the report.
fn run_setup<R: Threads + Sync, G: Gate, F: Files, D: Disk, O: Outs>(
    context: &RunContext<'_, R, G>,
    setup: &Setup,
    files: &mut F,
    disk: &mut D,
    outs: &mut O,
) -> Status
    ensures { (line : LineSetup) (start : FilesView) → IsSetUp line context.now.settings.now start (F.view files.old) setup.now → EndsInputs line context.now.settings.now
        (outside_of start (D.view disk.old) (D.images disk.old) (O.view outs.old))
        (outside_of (F.view files.new) (D.view disk.new) (D.images disk.new) (O.view outs.new)) result }
{
    if !uses_database(context.settings) {
        return run_alone(context, setup, files, outs);
    }
    match count(context, setup, files, disk) {
        Ok(counted) => finish(context, &counted, disk, outs),
        Err(status) => status,
    }
}

/// Counts the logs of a run that uses no database, and delivers the report.
fn run_alone<R: Threads + Sync, G: Gate, F: Files, O: Outs>(
    context: &RunContext<'_, R, G>,
    setup: &Setup,
    files: &mut F,
    outs: &mut O,
) -> Status
    requires { database.uses_database context.now.settings.now ≡ false }
    ensures { EndsAlone setup.now context.now.settings.now (F.view files.old) (F.view files.new) (O.view outs.old) (O.view outs.new) result }
{
    let mut base = Base::empty(context.alloc);
    match text_alone(context, setup, &mut base, files) {
        Ok(text) => report(context.settings, text.bytes(), outs),
        Err(status) => status,
    }
}

/// Counts the logs of a run that uses no database, and gives the text of its report. No names are made for it.
fn text_alone<R: Threads + Sync, G: Gate, F: Files>(
    context: &RunContext<'_, R, G>,
    setup: &Setup,
    base: &mut Base,
    files: &mut F,
) -> Result<Bytes, Status>
    requires alone { database.uses_database context.now.settings.now ≡ false }
    requires empty { IsBaseOf empty_db base.old }
    ensures ok { IfOk result (IsTextAlone setup.now context.now.settings.now (F.view files.old) (F.view files.new)) }
    ensures stops { IfErr result (StopsAlone setup.now context.now.settings.now empty_db (F.view files.old) (F.view files.new)) }
    ensures sure { CanServe context.now.settings.now.logs (F.view files.old) → IfErr result NoFileFailed }
    ensures files_trace { FilesTrace (F.view files.old) (F.view files.new) }
{
    let start = start(context.settings, base);
    let total = count_from(context, setup, start, &mut base.entries, files)?;
    let text = text_of_total(context.rt, context.alloc, context.settings, &total)?;
    // After the report the program ends, and the system takes the total's memory back at once: piece by piece it takes long.
    mem::forget(total);
    Ok(text)
}

/// The text of the report on what a total is of.
fn text_of_total<R: Threads + Sync>(
    rt: &R,
    alloc: Global,
    settings: &Settings,
    total: &Total,
) -> Result<Bytes, NoMemory>
    requires { IsOfCountable total.now }
    ensures { IfOk result (IsTextOfTotal settings.now total.now) }
{
    let jobs = workers_of(settings).jobs;
    let told = total.source(rt, alloc, jobs)?;
    let text = text_of_last_days(rt, alloc, settings, &told)?;
    Ok(text)
}

/// What is printed of the report on the last days of what is told, as many as the settings say.
fn text_of_last_days<R: Threads + Sync, T: RowSource + Sync>(
    rt: &R,
    alloc: Global,
    settings: &Settings,
    told: &T,
) -> Result<Bytes, NoMemory>
    ensures { IfOk result (λ text. IsTextTold settings.now (trimmed_source settings.now.keep (T.view told.now)) text) }
{
    let keep = settings.keep;
    if keep == 0 {
        return text_of(rt, alloc, settings, told);
    }
    let days = last_days(alloc, told, keep)?;
    let text = text_of(rt, alloc, settings, &days)?;
    Ok(text)
}

/// Finds the database, which has to keep as many days as the run, and counts the logs from there on.
fn count<R: Threads + Sync, G: Gate, F: Files, D: Disk>(
    context: &RunContext<'_, R, G>,
    setup: &Setup,
    files: &mut F,
    disk: &mut D,
) -> Result<RunCounts, Status>
    ensures ok { IfOk result (λ counted. CountsRun setup.now context.now.settings.now counted (F.view files.old) (F.view files.new) (D.view disk.old) (D.view disk.new) (D.images disk.old) (D.images disk.new)) }
    ensures stops { IfErr result (StopsCounting setup.now context.now.settings.now (F.view files.old) (F.view files.new) (D.view disk.old) (D.view disk.new) (D.images disk.old) (D.images disk.new)) }
    ensures sure { CanServe context.now.settings.now.logs (F.view files.old) → IfErr result NoFileFailed }
    ensures files_trace { FilesTrace (F.view files.old) (F.view files.new) }
    ensures disk_trace { DiskTrace (D.view disk.old) (D.view disk.new) }
{
    let stored = find(context.rt, context.alloc, context.settings, disk)?;
    agree(context.settings, &stored)?;
    let (position, mut base) = base_of(context.alloc, context.settings, stored);
    let run = count_on(context, setup, &mut base, files)?;
    Ok(RunCounts {
        position,
        base,
        run,
    })
}

/// Refuses what is stored, where the run restores it and it keeps another number of days.
fn agree(settings: &Settings, stored: &Db) -> Result<(), Status>
    ensures agrees { OnOk result (differing settings.now (db_value stored.now) ≡ None) }
    ensures differs { IfErr result (Differs settings.now (db_value stored.now)) }
{
    match differs(settings, stored) {
        None => Ok(()),
        Some(number) => Err(Status::KeepDiffers {
            stored: number,
            given: settings.keep,
        }),
    }
}

/// Counts the logs from a base on, which grows by them: what is left of the sum of the run's own lines.
fn count_on<R: Threads + Sync, G: Gate, F: Files>(
    context: &RunContext<'_, R, G>,
    setup: &Setup,
    base: &mut Base,
    files: &mut F,
) -> Result<Summary, Status>
    ensures ok { IfOk result (λ run. (stored : DbValue) → IsBaseOf (database.base_of context.now.settings.now stored) base.old
        → CountsOn setup.now context.now.settings.now stored (F.view files.old) (F.view files.new) run base.new) }
    ensures stops { IfErr result (λ status. (stored : DbValue) → IsBaseOf (database.base_of context.now.settings.now stored) base.old
        → StopsAlone setup.now context.now.settings.now stored (F.view files.old) (F.view files.new) status) }
    ensures sure { CanServe context.now.settings.now.logs (F.view files.old) → IfErr result NoFileFailed }
    ensures files_trace { FilesTrace (F.view files.old) (F.view files.new) }
{
    let start = start(context.settings, base);
    let total = count_from(context, setup, start, &mut base.entries, files)?;
    let run = sum_run(context.alloc, context.settings, base, total)?;
    Ok(run)
}

/// What is left of the sum of a run, by its total, once its base grew by it. The total's tables are dropped before.
fn sum_run(
    alloc: Global,
    settings: &Settings,
    base: &mut Base,
    total: Total,
) -> Result<Summary, NoMemory>
    requires { IsOfLines base.old.summary.totals total }
    ensures sums { IfOk result (AreSums settings.now base.old.summary base.new.summary total) }
    ensures entries { base.new.entries ≡ base.old.entries }
{
    summary_is_sound(&base.summary);
    let mut run = total.summary(alloc)?;
    drop(total);
    summary_is_sound(&run);
    add_run(alloc, settings, base, &mut run)?;
    Ok(run)
}

/// Counts the logs of a run: the total of their lines. The entries go with them.
fn count_from<R: Threads + Sync, G: Gate, F: Files>(
    context: &RunContext<'_, R, G>,
    setup: &Setup,
    start: Start,
    entries: &mut Entries,
    files: &mut F,
) -> Result<Total, Status>
    requires fit { TotalsFit start.totals }
    requires lines { LinesAdd start.totals }
    ensures ok { IfOk result (CountsLogs setup.now start context.now.settings.now.generate context.now.settings.now.logs entries.old entries.new (F.view files.old) (F.view files.new)) }
    ensures stops { IfErr result (StopsFrom setup.now context.now.settings.now start entries.old (F.view files.old) (F.view files.new)) }
    ensures sure { CanServe context.now.settings.now.logs (F.view files.old) → IfErr result NoFileFailed }
    ensures files_trace { FilesTrace (F.view files.old) (F.view files.new) }
{
    let settings = context.settings;
    let crew = Crew {
        rt: context.rt,
        gate: context.gate,
        alloc: context.alloc,
        setup,
        workers: workers_of(settings),
    };
    let names = settings.logs.items();
    let total = count_logs(&crew, start, settings.generate, names, entries, files)?;
    Ok(total)
}

/// Who counts lines, as the settings say. The words of a command line give no others than there may be.
fn workers_of(settings: &Settings) -> Workers
    ensures value { AreWorkers (workers_said settings.now) → result ≡ workers_said settings.now }
    ensures within { AreWorkers result }
{
    Workers {
        jobs: settings.jobs.clamp(1, 16),
        chunk: settings.chunk.clamp(1, 32_768),
    }
}

/// Each summary is sound.
fn summary_is_sound(summary: &Summary)
    ensures { IsSummary summary.now }
{
    summary.totals();
}

/// Keeps the run, where it persists, and delivers the report. All memory is taken before the disk is written.
fn finish<R: Threads + Sync, G, D: Disk, O: Outs>(
    context: &RunContext<'_, R, G>,
    counted: &RunCounts,
    disk: &mut D,
    outs: &mut O,
) -> Status
    requires { IsTrue context.now.settings.now.persist → (stored : DbValue) × IsReady context.now.settings.now stored counted.now (D.view disk.old) (D.images disk.old) }
    ensures { (stored : DbValue) → (IsTrue context.now.settings.now.persist → IsReady context.now.settings.now stored counted.now (D.view disk.old) (D.images disk.old))
        → EndsLast context.now.settings.now stored (whole_in context.now.settings.now counted.now) counted.now.base.entries
        (D.view disk.old) (D.view disk.new) (D.images disk.old) (D.images disk.new) (O.view outs.old) (O.view outs.new) result }
{
    let settings = context.settings;
    let RunCounts {
        position,
        base,
        run,
    } = counted;
    let whole = whole(settings, base, run);
    let Ok(text) = text_of(context.rt, context.alloc, settings, whole) else {
        return Status::NoMemory;
    };
    if settings.persist {
        let entries = &base.entries;
        if let Err(fault) = keep(
            context.alloc,
            settings,
            *position,
            run,
            whole,
            entries,
            disk,
        ) {
            return Status::from(fault);
        }
    }
    report(settings, text.bytes(), outs)
}

/// Delivers a report.
fn report<O: Outs>(settings: &Settings, text: &[u8], outs: &mut O) -> Status
    ensures ends { EndsReport settings.now text.now (O.view outs.old) (O.view outs.new) result }
    ensures errors { (O.view outs.new).stderr ≡ (O.view outs.old).stderr }
    ensures calls { OutsTrace (O.view outs.old) (O.view outs.new) }
{
    let file = report_file(settings);
    let to = target_of(file);
    match deliver(outs, file, text) {
        Ok(()) => Status::Done,
        Err(at) => Status::OutFault { to, at },
    }
}

/// The target of a report.
fn target_of(file: Option<&Text>) -> To
    ensures { result ≡ target_of (option_copied file.entry) }
{
    match file {
        None => To::Stdout,
        Some(_) => To::File,
    }
}

/// What is printed of the report on what is told.
fn text_of<R: Threads + Sync, T: RowSource + Sync>(
    rt: &R,
    alloc: Global,
    settings: &Settings,
    told: &T,
) -> Result<Bytes, NoMemory>
    ensures { IfOk result (λ text. IsTextTold settings.now (T.view told.now) text) }
{
    let jobs = workers_of(settings).jobs;
    let (panels, max_items) = (&settings.panels, settings.max_items);
    let report = rows_from(rt, alloc, told, panels, max_items, settings.date_spec, jobs)?;
    match settings.generate {
        None => report_text(rt, alloc, settings.output.kind, &report, jobs),
        Some(lines) => generated_text(rt, alloc, lines, &report, jobs),
    }
}

/// A report as this kind of text.
fn report_text<R: Threads + Sync>(
    rt: &R,
    alloc: Global,
    kind: Kind,
    report: &Report,
    jobs: u32,
) -> Result<Bytes, NoMemory>
    requires { IsPrintable report.now }
    ensures { IfOk result (λ text. text ≡ text_as kind report.now) }
{
    match kind {
        Kind::Json => json_with(rt, alloc, report, jobs),
        Kind::Csv => csv(alloc, report),
    }
}

/// What is printed of a report on this many generated lines.
fn generated_text<R: Threads + Sync>(
    rt: &R,
    alloc: Global,
    lines: u32,
    report: &Report,
    jobs: u32,
) -> Result<Bytes, NoMemory>
    requires { IsPrintable report.now }
    ensures { IfOk result (λ text. text ≡ summary_text lines report.now.general (json_text report.now)) }
{
    let json = json_with(rt, alloc, report, jobs)?;
    summary(alloc, lines, &report.general, json.bytes())
}
