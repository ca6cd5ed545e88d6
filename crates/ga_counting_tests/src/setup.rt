use ga_agents::Rules;
use ga_base::{DateSpec, FormatFault, HourSpec, PanelSet, Statuses, Text, Texts};
use ga_dates::{DEFAULT_DATE, DEFAULT_TIME, compile_date, compile_time};
use ga_format::format_text;
use ga_hosts::Ranges;
use ga_line::{LineSetup, compile_shape};
use ga_outcomes::Setup;
use ga_panels::PanelSetup;
use std::alloc::Global;

/// How lines in a format are read.
fn lines_in(alloc: Global, format: &str) -> Result<LineSetup, FormatFault> {
    let format = compile_shape(alloc, &Text::of(alloc, format_text(format))?)?;
    let date = compile_date(alloc, &Text::of(alloc, DEFAULT_DATE)?)?;
    let time = compile_time(alloc, &Text::of(alloc, DEFAULT_TIME)?)?;
    Ok(LineSetup {
        format,
        date,
        time,
        no_ip_validation: false,
        strict_status: false,
        double_decode: false,
        no_query: false,
    })
}

/// How these are counted without any option, in all panels.
pub fn setup(alloc: Global, format: &str) -> Result<Setup, FormatFault> {
    Ok(Setup {
        line: lines_in(alloc, format)?,
        panels: PanelSetup {
            rules: Rules::builtin(alloc),
            ranges: Ranges::new(alloc),
            statics: Texts::new(alloc),
            all_static: false,
            ignore_crawlers: false,
            ignore_status: Statuses::new(alloc),
            panels: PanelSet::all(),
            count_4xx: false,
            as_404: false,
            date_spec: DateSpec::Date,
            hour_spec: HourSpec::Hour,
        },
    })
}
