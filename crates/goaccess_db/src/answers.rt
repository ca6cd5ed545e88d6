ghost use Rattle.std.specs.Prelude.{◌≡◌};
ghost use Rattle.goaccess_db.specs.Answers.{answer_to, Shows};

use ga_base::Text;
use ga_ports::{Outs, To};
use ga_targets::print;

/// What the program answers of itself.
#[derive(Clone, Copy, Debug, PartialEq, Eq)]
pub enum Answer {
    /// How it is used.
    Help,
    /// Which version it is.
    Version,
}

/// How the program is used.
const HELP: &[u8] = b"\
goaccess_db: checks, shows and merges databases of goaccess

Usage:
  goaccess_db check DIR
  goaccess_db dump DIR
  goaccess_db merge DIR OTHER
  goaccess_db --help | --version

DIR and OTHER are folders of databases, as goaccess has them with --db-path.

  check DIR           prints how much is in the database: its generation, the
                      records after it, lines, failed and excluded ones, keys,
                      and entries of logs
  dump DIR            prints what was counted under each key, as CSV: panel,
                      date, parent, data, method, protocol, hits, bytes,
                      micros, max_micros, visitors
  merge DIR OTHER     merges the database in OTHER into that in DIR, by one
                      write that a crash leaves whole or undone, and prints how
                      much is in DIR then. OTHER is read, and never written.
                      Where both keep the last days alone, they have to keep
                      as many; and no log may have been counted in both

About itself, as the only word:
  --help              shows this text
  --version           shows the version

Exit status:
  0  done
  1  the words are refused
  3  a database can't be read or written, or another program uses it
  4  standard output can't be written; a merge is kept all the same
  5  a counter is full
  6  a database is damaged
  7  no memory
  8  the databases keep different numbers of days
  9  a log is in both databases
Where it ends with any but 0, one line on standard error says why. It counts
words, databases, entries and bytes from 0.

Examples:
  How much is in the database of a site:
    goaccess_db check /var/lib/goaccess
  The keys with the most hits:
    goaccess_db dump /var/lib/goaccess | sort -t, -k7,7nr | head
  The databases of two machines, as one:
    goaccess_db merge /srv/total /srv/machine2
";

/// The version, as `--version` shows it.
const VERSION: &[u8] = b"goaccess_db 0.1.0\n";

/// The exit status of an answer that was shown.
const SHOWN: u8 = 0;

/// The exit status where standard output failed.
const OUT_FAULT: u8 = 4;

/// The answer that one word, `--help` or `--version`, asks for.
pub fn answer_to(words: &[Text]) -> Option<Answer>
    ensures { result ≡ answer_to words.now }
{
    let [word] = words else {
        return None;
    };
    match word.as_str() {
        "--help" => Some(Answer::Help),
        "--version" => Some(Answer::Version),
        _ => None,
    }
}

/// Writes an answer to standard output, and gives the exit status.
pub fn show<O: Outs>(outs: &mut O, answer: Answer) -> u8
    ensures shows { Shows answer (O.view outs.old) (O.view outs.new) result }
{
    let text = match answer {
        Answer::Help => HELP,
        Answer::Version => VERSION,
    };
    match print(outs, To::Stdout, text) {
        Ok(()) => SHOWN,
        Err(_) => OUT_FAULT,
    }
}
