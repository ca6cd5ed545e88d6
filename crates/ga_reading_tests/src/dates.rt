use ga_base::Text;
use ga_cases::hold;
use ga_dates::{compile_date, compile_time, read_both, read_date, read_time};
use std::alloc::Global;
use std::test::Fail;

/// Date formats with a bar and a text after each, and the day that the text spells, or the format's fault.
const DATES: &str = "\
## days that there are, and days that there aren't
%d/%b/%Y|29/Feb/2024 => Some(20240229)
%d/%b/%Y|29/Feb/2023 => None
%d/%b/%Y|29/Feb/1900 => None
%d/%b/%Y|29/Feb/2000 => Some(20000229)
%d/%b/%Y|31/Apr/2024 => None
%d/%b/%Y|00/Jan/2024 => None
## the first year and the last
%d/%b/%Y|31/Dec/0999 => None
%d/%b/%Y|01/Jan/1000 => Some(10000101)
%d/%b/%Y|31/Dec/9999 => Some(99991231)
## names of months
%d/%b/%Y|07/jUL/2024 => Some(20240707)
%d/%b/%Y|07/Okt/2024 => None
## numbers of one digit
%d/%b/%Y|7/Sep/2024 => None
%e.%m.%Y| 5.08.2017 => Some(20170805)
%e.%m.%Y|05.08.2017 => Some(20170805)
%e.%m.%Y|5.08.2017 => None
%d.%m.%Y| 5.08.2017 => None
## a text that goes on, and none
%d/%b/%Y|07/Sep/2024  => None
%d/%b/%Y| => None
## directives for several parts
%F|2017-12-31 => Some(20171231)
%D|08/01/17 => Some(20170801)
## years of two digits
%y%m%d|680101 => Some(20680101)
%y%m%d|690101 => Some(19690101)
## a percent sign
%d%%%m%%%Y|01%08%2017 => Some(20170801)
## directives that there aren't, or that are given again
%d/%Q| => byte 3: bad directive
%d%m%Y%| => byte 6: bad directive
%d/%m/%Y/%e| => byte 9: bad directive
%F%d| => byte 2: bad directive
%d %F| => byte 3: bad directive
%d/%m/%Y %H| => byte 9: bad directive
## parts that are missing
%d/%m| => byte 5: bad directive
| => byte 0: bad directive
";

/// The format of a case, and its text.
fn cut(case: &str) -> (&str, &str) {
    case.split_once('|').unwrap_or((case, ""))
}

/// What a date format says of a text.
fn date_said(alloc: Global, case: &str) -> Result<String, Fail> {
    let (format, text) = cut(case);
    match compile_date(alloc, &Text::of(alloc, format)?) {
        Ok(format) => Ok(format!(in alloc; "{:?}", read_date(&format, text.as_bytes()))?),
        Err(fault) => Ok(format!(in alloc; "{fault}")?),
    }
}

#[test]
fn dates_are_read(rt: HostRuntime) -> Result<(), Fail> {
    hold(rt.alloc(), DATES, date_said)
}

/// Time formats with a bar and a text after each, and the minute that the text spells, or the format's fault.
const TIMES: &str = "\
## the first minute, the last, and a leap second
%H:%M:%S|00:00:00 => Some(0)
%H:%M:%S|23:50:00 => Some(1430)
%H:%M:%S|23:59:60 => Some(1439)
## times that there aren't
%H:%M:%S|23:59:61 => None
%H:%M:%S|23:60:00 => None
%H:%M:%S|24:00:00 => None
## a text that ends early
%H:%M:%S|23:50 => None
%R|8:05 => None
## directives for several parts
%T|08:05:09 => Some(485)
at %R%%|at 08:05% => Some(485)
## parts in another order
%S%M %H|0050 23 => Some(1430)
## directives that there aren't, or that are given again
%d| => byte 0: bad directive
%S%T| => byte 2: bad directive
%T%S| => byte 2: bad directive
## parts that are missing
%H| => byte 2: bad directive
%M:%S| => byte 5: bad directive
";

/// What a time format says of a text.
fn time_said(alloc: Global, case: &str) -> Result<String, Fail> {
    let (format, text) = cut(case);
    match compile_time(alloc, &Text::of(alloc, format)?) {
        Ok(format) => Ok(format!(in alloc; "{:?}", read_time(&format, text.as_bytes()))?),
        Err(fault) => Ok(format!(in alloc; "{fault}")?),
    }
}

#[test]
fn times_are_read(rt: HostRuntime) -> Result<(), Fail> {
    hold(rt.alloc(), TIMES, time_said)
}

/// Texts, and the day and the minute that each spells by `%Y%m%d` directly followed by `%H%M%S`.
const MOMENTS: &str = "\
## a date directly followed by a time
20170801235000 => Some((20170801, 1430))
## a blank between
20170801 235000 => None
";

/// What these two formats say of a text.
fn moment_said(alloc: Global, text: &str) -> Result<String, Fail> {
    let date = compile_date(alloc, &Text::of(alloc, "%Y%m%d")?)?;
    let time = compile_time(alloc, &Text::of(alloc, "%H%M%S")?)?;
    Ok(format!(in alloc; "{:?}", read_both(&date, &time, text.as_bytes()))?)
}

#[test]
fn moments_are_read(rt: HostRuntime) -> Result<(), Fail> {
    hold(rt.alloc(), MOMENTS, moment_said)
}
