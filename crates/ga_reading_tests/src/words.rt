use crate::confs::file_of;
use ga_base::{Text, Texts};
use ga_cases::hold;
use ga_conf::read_conf;
use ga_words::{Kind, Settings, join_words, read_words, scan_words};
use std::alloc::Global;
use std::test::Fail;

/// Words with bars between them, and what they mean: the report's form and file, the log format, the date format, the time format,
/// the jobs, the lines that a job takes at once, the rows of a panel, the folder of the database, and the logs; or the fault.
const WORDS: &str = "\
## one fault of each kind
--bogus => word 0: unknown option
--jobs => word 0: value missing
--jobs=17|a => word 0: bad value
--jobs|17|a => word 1: bad value
a => no log format
 => no input
--generate=5|--persist => word 0: conflict
## the defaults
--restore => json |none|%d/%b/%Y|%H:%M:%S|1|1024|366|/tmp|
## the last of several values
--jobs=16|--jobs|3|--chunk-size=32768|--db-path=d|--restore => json |none|%d/%b/%Y|%H:%M:%S|3|32768|366|d|
--log-format=F|--output|r.csv|-o|json|a => json |F|%d/%b/%Y|%H:%M:%S|1|1024|366|/tmp|a,
## numbers with leading zeros, with too many digits, with a sign, and out of range
--jobs=08|--max-items=0000000002|--restore => json |none|%d/%b/%Y|%H:%M:%S|8|1024|2|/tmp|
--generate=00000000007 => word 0: bad value
--jobs=+3|--restore => word 0: bad value
--max-items=4294967295|--restore => json |none|%d/%b/%Y|%H:%M:%S|1|1024|4294967295|/tmp|
--max-items=4294967296|--restore => word 0: bad value
--chunk-size=0|--restore => word 0: bad value
--generate=1000001 => word 0: bad value
--ignore-status=0404|--restore => word 0: bad value
--ignore-status=600|--restore => word 0: bad value
## formats may be empty, and look like options
--log-format=|--date-format=|--time-format=|a => json ||||1|1024|366|/tmp|a,
--log-format|--|a => json |--|%d/%b/%Y|%H:%M:%S|1|1024|366|/tmp|a,
## names may not be empty
--db-path=|--restore => word 0: bad value
--browsers-file=|--restore => word 0: bad value
--static-file=|--restore => word 0: bad value
--log-format=F||a => word 1: bad value
--log-format=F|--||a => word 2: bad value
## outputs
--log-format=F|-o|r.json|a => json r.json|F|%d/%b/%Y|%H:%M:%S|1|1024|366|/tmp|a,
--log-format=F|--output=r.csv|a => csv r.csv|F|%d/%b/%Y|%H:%M:%S|1|1024|366|/tmp|a,
-o||--restore => word 1: bad value
--log-format=F|-o|.json|a => word 2: bad value
--log-format=F|-o|.csv|a => word 2: bad value
## a short option has its value in the next word
-o=json|--restore => word 0: unknown option
-ojson|--restore => word 0: unknown option
## a flag has no value
--persist=|--restore => word 0: bad value
--persist=true => word 0: bad value
## names of panels and ends of ranges
--ignore-panel=hosts|--restore => word 0: bad value
--exclude-ip=192.0.2.9-192.0.2.1|--restore => word 0: bad value
## logs after two dashes
--log-format=F|--|a|--|--jobs => json |F|%d/%b/%Y|%H:%M:%S|1|1024|366|/tmp|a,--,--jobs,
--log-format=F|--|- => json |F|%d/%b/%Y|%H:%M:%S|1|1024|366|/tmp|-,
- => word 0: unknown option
## the first fault in the order of the words, and then faults of them all
--jobs=17|--bogus => word 0: bad value
--bogus|--jobs=17 => word 0: unknown option
--generate|5|--generate|6|--persist => word 2: conflict
--log-format=F|--generate=5|a => word 1: conflict
--generate|5|a => no log format
## words that the program knows by itself
--help => word 0: unknown option
";

/// Words with bars between them, and how many of the last days they keep, and how finely they tell days and times; or the fault.
const DAYS: &str = "\
## all days, by days and hours
--restore => 0 Date Hour
## the last of several values
--keep-last=1|--keep-last|4294967295|--date-spec=min|--date-spec|hr|--hour-spec=min|--restore => 4294967295 Hour Tens
--date-spec=hr|--date-spec=date|--hour-spec=min|--hour-spec=hr|--keep-last=02|--restore => 2 Date Hour
--date-spec=min|--restore => 0 Minute Hour
## other values
--keep-last=0|--restore => word 0: bad value
--keep-last=4294967296|--restore => word 0: bad value
--date-spec=day => word 0: bad value
--date-spec|HR|--restore => word 1: bad value
--date-spec=|--restore => word 0: bad value
--hour-spec=date|--restore => word 0: bad value
--hour-spec => word 0: value missing
";

/// Words with bars between them, and the configuration file that they name; or the first fault with a place.
const NAMED: &str = "\
## none, one, and the last of several
-o|csv|a.log => none
--config-file=g.conf|-o|csv|a.log => g.conf
--config-file=a|--config-file|b|--restore => b
## words that lack a format, lines or both are looked through all the same
a.log => none
--config-file=g.conf => g.conf
--generate=5|--persist|--config-file=g.conf => g.conf
## after two dashes, and as a value
--log-format|--config-file|--|--config-file=g.conf => none
## a fault of a word
--config-file=g.conf|--jobs=17 => word 1: bad value
--config-file= => word 0: bad value
--config-file => word 0: value missing
--config-files=g.conf => word 0: unknown option
";

/// Words of a configuration file, a slash and words of a command line, and what they mean together.
const JOINED: &str = "\
## the words of the command line count, where one value does
jobs 2;log-format F/--jobs=3|a => json |F|%d/%b/%Y|%H:%M:%S|3|1024|366|/tmp|a,
jobs 2/--log-format=F|a => json |F|%d/%b/%Y|%H:%M:%S|2|1024|366|/tmp|a,
log-format COMMON/--log-format=F|a => json |F|%d/%b/%Y|%H:%M:%S|1|1024|366|/tmp|a,
## no words of a file
/a => no log format
/ => no input
/--log-format=F|a => json |F|%d/%b/%Y|%H:%M:%S|1|1024|366|/tmp|a,
## a flag of the file stays, and is in conflict
persist true;jobs 2/--jobs=3|--generate=5 => word 1: conflict
restore true;jobs 2;max-items 3/--generate|5 => word 0: conflict
restore true/ => json |none|%d/%b/%Y|%H:%M:%S|1|1024|366|/tmp|
## what the words lack
jobs 2/a => no log format
log-format F/--jobs=2 => no input
";

/// The words between bars; none of an empty text.
fn words_of(alloc: Global, row: &str) -> Result<Texts, Fail> {
    let mut words = Texts::new(alloc);
    if row.is_empty() {
        return Ok(words);
    }
    for word in row.split('|') {
        words.push(Text::of(alloc, word)?)?;
    }
    Ok(words)
}

/// The report's form, as the table writes it.
fn form_of(kind: Kind) -> &'static str {
    match kind {
        Kind::Json => "json",
        Kind::Csv => "csv",
    }
}

/// Settings as the table writes them.
fn shown(alloc: Global, settings: &Settings) -> Result<String, Fail> {
    let format = settings
        .log_format
        .as_ref()
        .map_or("none", |text| text.as_str());
    let mut shown = format!(in alloc;
        "{} {}|{}|{}|{}|{}|{}|{}|{}|",
        form_of(settings.output.kind),
        settings.output.name.as_str(),
        format,
        settings.date_format.as_str(),
        settings.time_format.as_str(),
        settings.jobs,
        settings.chunk,
        settings.max_items,
        settings.db_path.as_str()
    )?;
    for log in settings.logs.items() {
        shown.push_str(log.as_str())?;
        shown.push(',')?;
    }
    Ok(shown)
}

/// What words mean of days and times.
fn days_said(alloc: Global, row: &str) -> Result<String, Fail> {
    match read_words(alloc, words_of(alloc, row)?.items()) {
        Ok(settings) => Ok(format!(in alloc;
            "{} {:?} {:?}",
            settings.keep, settings.date_spec, settings.hour_spec
        )?),
        Err(fault) => Ok(format!(in alloc; "{fault}")?),
    }
}

/// The configuration file that words name.
fn named(alloc: Global, row: &str) -> Result<String, Fail> {
    match scan_words(alloc, words_of(alloc, row)?.items()) {
        Ok(None) => Ok(String::from_str(alloc, "none")?),
        Ok(Some(name)) => Ok(String::from_str(alloc, name.as_str())?),
        Err(fault) => Ok(format!(in alloc; "{fault}")?),
    }
}

/// What the words that a configuration file gives and those after them mean.
fn joined(alloc: Global, row: &str) -> Result<String, Fail> {
    let (file, words) = row.split_once('/').unwrap_or(("", row));
    let words = words_of(alloc, words)?;
    let Ok(conf) = read_conf(alloc, &file_of(alloc, file)?) else {
        return Ok(String::from_str(alloc, "not a setting")?);
    };
    let said = match scan_words(alloc, words.items()) {
        Ok(_) => join_words(alloc, &conf, words.items()),
        Err(fault) => Err(fault),
    };
    match said {
        Ok(settings) => shown(alloc, &settings),
        Err(fault) => Ok(format!(in alloc; "{fault}")?),
    }
}

/// What words mean.
fn said(alloc: Global, row: &str) -> Result<String, Fail> {
    match read_words(alloc, words_of(alloc, row)?.items()) {
        Ok(settings) => shown(alloc, &settings),
        Err(fault) => Ok(format!(in alloc; "{fault}")?),
    }
}

#[test]
fn words_say_how_days_are_kept_and_told(rt: HostRuntime) -> Result<(), Fail> {
    hold(rt.alloc(), DAYS, days_said)
}

#[test]
fn words_name_a_configuration_file(rt: HostRuntime) -> Result<(), Fail> {
    hold(rt.alloc(), NAMED, named)
}

#[test]
fn words_follow_those_of_a_file(rt: HostRuntime) -> Result<(), Fail> {
    hold(rt.alloc(), JOINED, joined)
}

#[test]
fn words_mean_settings_or_have_a_fault(rt: HostRuntime) -> Result<(), Fail> {
    hold(rt.alloc(), WORDS, said)
}
