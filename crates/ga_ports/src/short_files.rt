ghost use Rattle.std.specs.Prelude.{◌≡◌, ◌<◌, IsOk, IsTrue, Ok as TheOk, length};
ghost use Rattle.ga_ports.specs.Files.{Opens, Sizes, Reads, OpenFailsIfListed, FailsIfListed, ReadsIfListed};
ghost use Rattle.ga_ports.specs.ShortFiles.{ReadsToCut, short_files, short_files_view};

use crate::contents::copy_from;
use crate::{Failed, FileCounts, Files, is_short};
use ga_base::{Bytes, Text};
use std::marker::Model;

/// Files that are shorter when they are read than the size that they answer, as a log that is cut while a run reads it. Each
/// name has the same bytes. They don't tell their contents, and no call fails.
#[derive(Debug, Drop)]
pub struct ShortFiles {
    /// The size that each name answers.
    size: u64,
    /// The bytes that each name has: fewer than that.
    bytes: Bytes,
    is_open: bool,
    measured: Option<u64>,
    counts: FileCounts,
}

impl Model for ShortFiles {
    ghost use Rattle.std.specs.Prelude.{◌<◌, length};
    ghost use Rattle.ga_ports.specs.ShortFiles.{ShortFilesState};

    ghost Value = { ShortFilesState };

    ghost view = { λ m. record {
      size = m.size;
      bytes = m.bytes;
      is_open = m.is_open;
      measured = m.measured;
      counts = m.counts;
    } };

    ghost invariant = { λ m. length m.bytes < m.size };
}

impl ShortFiles {
    /// Files of this size, of which only these bytes can be read.
    pub fn new(size: u64, bytes: Bytes) -> ShortFiles
        requires { length bytes < size }
        ensures { result ≡ short_files size bytes }
    {
        ShortFiles {
            size,
            bytes,
            is_open: false,
            measured: None,
            counts: FileCounts::ZERO,
        }
    }
}

impl Files for ShortFiles {
    ghost view = { short_files_view };

    fn open(&mut self, _name: &Text) -> Result<(), Failed>
        ensures opens { Opens _name.now (short_files_view self.old) (short_files_view self.new) result }
        ensures exact { OpenFailsIfListed _name.now (short_files_view self.old) result }
        ensures ok { IsOk result }
    {
        self.counts.ask(false);
        self.counts.call();
        self.is_open = true;
        self.measured = None;
        Ok(())
    }

    fn size(&mut self) -> Result<u64, Failed>
        requires { IsTrue (short_files_view self.old).is_open }
        ensures sizes { Sizes (short_files_view self.old) (short_files_view self.new) result }
        ensures exact { FailsIfListed (short_files_view self.old) result }
        ensures same { result ≡ TheOk self.old.size }
    {
        self.counts.call();
        self.counts.measure(self.size);
        self.measured = Some(self.size);
        Ok(self.size)
    }

    fn read_at(&mut self, at: u64, into: &mut [u8]) -> Result<usize, Failed>
        requires { IsTrue (short_files_view self.old).is_open }
        ensures reads { Reads at into.new (short_files_view self.old) (short_files_view self.new) result }
        ensures exact { ReadsIfListed at into.new (short_files_view self.old) result }
        ensures cut { ReadsToCut at into.new self.old self.new result }
    {
        self.counts.call();
        let count = copy_from(self.bytes.bytes(), at, into);
        let short = is_short(self.measured, at, into.len(), count);
        self.counts.give(short, at, count);
        Ok(count)
    }
}
