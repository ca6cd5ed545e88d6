ghost use Rattle.std.specs.Prelude.{◌≡◌};
ghost use Rattle.goaccess.specs.Answers.{answer_to, Shows};

use ga_base::Text;
use ga_ports::{Outs, To};
use ga_targets::print;

/// What the program answers of itself.
#[derive(Clone, Copy, Debug, PartialEq, Eq)]
pub enum Answer {
    /// How it is used.
    Help,
    /// Which version it is.
    Version,
}

/// How the program is used.
const HELP: &[u8] = b"\
goaccess: web logs to one report of panels, as CSV or JSON

Usage:
  goaccess [OPTION].. [--] LOG..
  goaccess --help | --version

A word that doesn't begin with a dash is the name of a log; after -- each word
is. All logs are read in their order into one report. A value stands behind
the option, as --name=VALUE or in the next word; with -o in the next word
only. Of an option given again the last value counts; where (+) stands all
values count.

Formats:
  --log-format F      how a line is written: COMMON, COMBINED, VCOMMON or
                      VCOMBINED, or a text as '%h %^[%d:%t %^] \"%r\" %s %b';
                      no default, and each run over logs needs one
  --date-format D     how %d is written; default '%d/%b/%Y'
  --time-format T     how %t is written; default '%H:%M:%S'

Input and filters:
  LOG                 a regular file, whose name isn't empty
  --config-file FILE  lines of an option's name and its value, read before the
                      words, which count where one value does; a flag is
                      true or false, and names that aren't here are passed
                      over; default none
  --browsers-file FILE
                      rules for user agents, asked before those built in; a
                      line is a token, tabs and a category; default none
  --exclude-ip A      excludes the lines of an address, or of a range from a
                      first to a last one as 192.0.2.1-192.0.2.9 (+); one as
                      192.0.2.0/24 is refused; default none
  --ignore-crawlers   excludes the lines of crawlers; default off
  --ignore-status N   excludes the lines of a status, 100 to 599; one a word
                      (+); default none
  --no-ip-validation  takes any text as the host of %h; default off
  --no-strict-status  takes lines whose status isn't 100 to 599, as without
                      one; default off

What is counted:
  --no-query-string   cuts the query off URLs; default off
  --double-decode-url decodes the percent signs of URLs twice; default off
  --static-file E     an ending of static files beside those built in, as .dat
                      (+); default none
  --all-static-files  counts static files with a query as such; default off
  --4xx-to-unique-count
                      counts visitors of answers 400 to 499 too; default off
  --444-as-404        counts the status 444 as not found; default off
  --date-spec S       what VISITORS counts by: date, hr or min, which are days,
                      hours of a day or minutes of one; a report shows what was
                      counted by its own S; default date
  --hour-spec S       what VISIT_TIMES counts by: hr or min, which are hours or
                      tens of minutes; default hr

Report:
  -o, --output O      json or csv on standard output, or a file whose name ends
                      in .json or .csv; default json
  --max-items N       the most rows of a panel, and of a row's children, 1 to
                      4294967295; default 366
  --keep-last N       shows and stores the last N days alone that were counted,
                      1 to 4294967295; with --restore it has to be that of the
                      database; default all days
  --ignore-panel P    leaves a panel out (+); default none
  --enable-panel P    shows a panel (+); default all. The last word on a panel
                      counts. P is VISITORS, REQUESTS, REQUESTS_STATIC,
                      NOT_FOUND, HOSTS, OS, BROWSERS, VISIT_TIMES,
                      VIRTUAL_HOSTS, REFERRERS, REFERRING_SITES, KEYPHRASES,
                      STATUS_CODES, REMOTE_USER, CACHE_STATUS, MIME_TYPE or
                      TLS_TYPE

Working; these change no report:
  --jobs N            workers, 1 to 16; default 1
  --chunk-size N      lines that a worker takes at once, 1 to 32768; default
                      1024

Generator:
  --generate N        a run over N lines of its own in place of logs, 1 to
                      1000000, that prints six lines in place of its report;
                      refused beside a log, --persist or --restore; default
                      none

Database, by which each line is counted once over all runs, also where logs
grow and are renamed between them:
  --persist           keeps the run; without --restore it begins anew. A line
                      that isn't ended yet is left to the next run; default off
  --restore           goes on from the runs that were kept, and reports on them
                      too; needs no log and no format; default off
  --db-path FOLDER    the folder of the database's two files; default /tmp

About itself, as the only word:
  --help              shows this text
  --version           shows the version

Exit status:
  0  done
  1  the words, a format, the configuration or the browsers file is refused
  2  a log, the configuration or the browsers file can't be read
  3  the database can't be read or written, or another program uses it
  4  the report can't be written; a run with --persist is kept all the same
  5  a counter is full
  6  the database is damaged
  7  no memory
  8  --keep-last isn't that of the database
Where a run ends with any but 0, one line on standard error says why. It counts
words and bytes from 0, and lines of these two files from 1.

Examples:
  An nginx log in the combined format, as JSON on standard output:
    goaccess --log-format=COMBINED access.log
  Two rotated logs, without the clients of two ranges, as a CSV file:
    goaccess --log-format=COMBINED --exclude-ip=10.0.0.0-10.255.255.255 \\
      --exclude-ip=fd00::-fdff:ffff:ffff:ffff:ffff:ffff:ffff:ffff \\
      -o report.csv access.log.1 access.log
  Each night, over the day's log and the one before, each line once:
    goaccess --log-format=COMBINED --restore --persist \\
      --db-path=/var/lib/goaccess -o report.json access.log.1 access.log
  A format of one's own, with the seconds that each answer took:
    goaccess --log-format='%h [%d %t] \"%r\" %s %b %T' \\
      --date-format=%Y-%m-%d -o csv timed.log
";

/// The version, as `--version` shows it.
const VERSION: &[u8] = b"goaccess 0.1.0\n";

/// The exit status of an answer that was shown.
const SHOWN: u8 = 0;

/// The exit status where standard output failed.
const OUT_FAULT: u8 = 4;

/// The answer that one word, `--help` or `--version`, asks for.
pub fn answer_to(words: &[Text]) -> Option<Answer>
    ensures { result ≡ answer_to words.now }
{
    let [word] = words else {
        return None;
    };
    match word.as_str() {
        "--help" => Some(Answer::Help),
        "--version" => Some(Answer::Version),
        _ => None,
    }
}

/// Writes an answer to standard output, and gives the exit status.
pub fn show<O: Outs>(outs: &mut O, answer: Answer) -> u8
    ensures shows { Shows answer (O.view outs.old) (O.view outs.new) result }
{
    let text = match answer {
        Answer::Help => HELP,
        Answer::Version => VERSION,
    };
    match print(outs, To::Stdout, text) {
        Ok(()) => SHOWN,
        Err(_) => OUT_FAULT,
    }
}
