use crate::answers::{Answer, show};
use ga_ports::{MemOuts, To};
use std::test::Fail;

/// What `--help` shows.
const HELP: &str = "\
goaccess_db: checks, shows and merges databases of goaccess

Usage:
  goaccess_db check DIR
  goaccess_db dump DIR
  goaccess_db merge DIR OTHER
  goaccess_db --help | --version

DIR and OTHER are folders of databases, as goaccess has them with --db-path.

  check DIR           prints how much is in the database: its generation, the
                      records after it, lines, failed and excluded ones, keys,
                      and entries of logs
  dump DIR            prints what was counted under each key, as CSV: panel,
                      date, parent, data, method, protocol, hits, bytes,
                      micros, max_micros, visitors
  merge DIR OTHER     merges the database in OTHER into that in DIR, by one
                      write that a crash leaves whole or undone, and prints how
                      much is in DIR then. OTHER is read, and never written.
                      Where both keep the last days alone, they have to keep
                      as many; and no log may have been counted in both

About itself, as the only word:
  --help              shows this text
  --version           shows the version

Exit status:
  0  done
  1  the words are refused
  3  a database can't be read or written, or another program uses it
  4  standard output can't be written; a merge is kept all the same
  5  a counter is full
  6  a database is damaged
  7  no memory
  8  the databases keep different numbers of days
  9  a log is in both databases
Where it ends with any but 0, one line on standard error says why. It counts
words, databases, entries and bytes from 0.

Examples:
  How much is in the database of a site:
    goaccess_db check /var/lib/goaccess
  The keys with the most hits:
    goaccess_db dump /var/lib/goaccess | sort -t, -k7,7nr | head
  The databases of two machines, as one:
    goaccess_db merge /srv/total /srv/machine2
";

#[test]
fn help_and_version_are_these_texts(rt: HostRuntime) -> Result<(), Fail> {
    for (answer, text) in [
        (Answer::Help, HELP),
        (Answer::Version, "goaccess_db 0.1.0\n"),
    ] {
        let mut outs = MemOuts::new(rt.alloc());
        assert_eq!(rt; show(&mut outs, answer), 0);
        assert_eq!(rt; str::from_utf8(outs.taken(To::Stdout)), Ok(text));
        assert!(rt; outs.taken(To::Stderr).is_empty());
    }
    Ok(())
}
