//! Lines, records and their keys.

ghost use Rattle.ga_panels.specs.Facts.{CanHaveKeys};

use ga_agents::Rules;
use ga_base::{
    DateSpec, HourSpec, Key, Keys, Line, NoMemory, Panel, PanelSet, Record, Statuses, Text, Texts,
    Visitor,
};
use ga_dates::{DateFormat, TimeFormat};
use ga_hosts::Ranges;
use ga_line::{LineSetup, Shape, read_line};
use ga_panels::{PanelSetup, is_excluded, keys_of, visitor_of};
use std::alloc::Global;

/// How lines are read.
pub fn line_setup(format: Shape, date: DateFormat, time: TimeFormat) -> LineSetup {
    LineSetup {
        format,
        date,
        time,
        no_ip_validation: false,
        strict_status: false,
        double_decode: false,
        no_query: false,
    }
}

/// How they are counted.
pub fn panel_setup(
    rules: Rules,
    ranges: Ranges,
    statics: Texts,
    ignore_status: Statuses,
    panels: PanelSet,
) -> PanelSetup {
    PanelSetup {
        rules,
        ranges,
        statics,
        all_static: false,
        ignore_crawlers: false,
        ignore_status,
        panels,
        count_4xx: false,
        as_404: false,
        date_spec: DateSpec::Date,
        hour_spec: HourSpec::Hour,
    }
}

/// A record of a day, in which all else is empty.
pub fn empty_record() -> Record {
    Record {
        host: Text::new(),
        date: 20_240_115,
        minute: None,
        method: Text::new(),
        protocol: Text::new(),
        url: Text::new(),
        status: 0,
        bytes: 0,
        micros: None,
        referrer: Text::new(),
        agent: Text::new(),
        vhost: Text::new(),
        user: Text::new(),
        cache: Text::new(),
        mime: Text::new(),
        tls: Text::new(),
    }
}

/// A key of that day, with this label.
pub fn day_key(label: Text) -> Key {
    Key {
        panel: Panel::Visitors,
        date: 20_240_115,
        parent: Text::new(),
        label,
        method: Text::new(),
        protocol: Text::new(),
    }
}

/// A visitor of that day.
pub fn day_visitor() -> Visitor {
    Visitor {
        host: Text::new(),
        date: 20_240_115,
        agent: Text::new(),
    }
}

/// What a line says.
pub fn line_of(alloc: Global, setup: &LineSetup, line: &[u8]) -> Result<Line, NoMemory> {
    read_line(alloc, setup, line)
}

/// The record of a line, where it has one.
pub fn record_of(line: &Line) -> Option<&Record> {
    match line {
        Line::Skipped | Line::Failed => None,
        Line::Good(record) => Some(record),
    }
}

/// The keys of a record.
pub fn keys(alloc: Global, setup: &PanelSetup, rec: &Record) -> Result<Keys, NoMemory>
    requires { CanHaveKeys rec.now }
{
    keys_of(alloc, setup, rec)
}

/// Its visitor, where it is a visit.
pub fn visitor(setup: &PanelSetup, rec: &Record) -> Result<Option<Visitor>, NoMemory> {
    visitor_of(setup, rec)
}

/// Whether it isn't counted.
pub fn excluded(setup: &PanelSetup, rec: &Record) -> bool {
    is_excluded(setup, rec)
}
