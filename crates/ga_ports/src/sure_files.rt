ghost use Rattle.std.specs.Prelude.{◌≡◌, OnOk, OnErr, IsOk, IsTrue};
ghost use Rattle.ga_ports.specs.Files.{Opens, Sizes, Reads, OpenFailsIfListed, FailsIfListed, ReadsIfListed};
ghost use Rattle.ga_ports.specs.SureFiles.{no_sure_files, after_sure_growth, sure_files_view};

use crate::contents::{Content, append, copy_from, find, open_bytes};
use crate::{Failed, FileCounts, Files, is_short};
use ga_base::{NoMemory, Text};
use std::alloc::Global;
use std::marker::Model;

/// Files in memory over which no call fails: a name that isn't there gives an empty file. Their count of faults is 0
/// for good.
#[derive(Debug, Drop)]
pub struct SureFiles {
    alloc: Global,
    contents: Vec<Content>,
    is_open: bool,
    /// The place of the open file in `contents`; none where it is an empty one that isn't there.
    current: Option<usize>,
    measured: Option<u64>,
    counts: FileCounts,
}

impl Model for SureFiles {
    ghost use Rattle.std.specs.Prelude.{if◌then◌else◌, [], Some, None};
    ghost use Rattle.std.specs.Option.{unwrap_or};
    ghost use Rattle.ga_ports.specs.Places.{pairs, bytes_at};
    ghost use Rattle.ga_ports.specs.SureFiles.{SureFilesState};

    ghost Value = { SureFilesState };

    ghost view = { λ m. record {
      contents = pairs m.contents.items;
      opened = if m.is_open then Some (unwrap_or (bytes_at m.current (pairs m.contents.items)) []) else None;
      measured = m.measured;
      counts = m.counts;
    } };
}

impl SureFiles {
    /// No files are there, so that each name gives an empty one.
    pub fn new(alloc: Global) -> SureFiles
        ensures { result ≡ no_sure_files }
    {
        SureFiles {
            alloc,
            contents: Vec::new(alloc),
            is_open: false,
            current: None,
            measured: None,
            counts: FileCounts::ZERO,
        }
    }

    /// Appends bytes to the file of this name, which is made where it isn't there. The open file is let go.
    /// After an `Err` the files are as they were.
    pub fn grow(&mut self, name: &Text, bytes: &[u8]) -> Result<(), NoMemory>
        ensures ok { OnOk result (self.new ≡ after_sure_growth name.now bytes.now self.old) }
        ensures err { OnErr result (self.new ≡ self.old) }
    {
        append(self.alloc, &mut self.contents, name, bytes)?;
        self.is_open = false;
        self.measured = None;
        Ok(())
    }

    /// The number of bytes handed out so far.
    pub fn bytes_given(&self) -> u64
        ensures { result ≡ self.now.counts.given }
    {
        self.counts.given
    }
}

impl Files for SureFiles {
    ghost view = { sure_files_view };

    fn open(&mut self, name: &Text) -> Result<(), Failed>
        ensures opens { Opens name.now (sure_files_view self.old) (sure_files_view self.new) result }
        ensures exact { OpenFailsIfListed name.now (sure_files_view self.old) result }
        ensures ok { IsOk result }
    {
        self.counts.ask(false);
        self.counts.call();
        self.current = find(&self.contents, name);
        self.is_open = true;
        self.measured = None;
        Ok(())
    }

    fn size(&mut self) -> Result<u64, Failed>
        requires { IsTrue (sure_files_view self.old).is_open }
        ensures sizes { Sizes (sure_files_view self.old) (sure_files_view self.new) result }
        ensures exact { FailsIfListed (sure_files_view self.old) result }
        ensures ok { IsOk result }
    {
        self.counts.call();
        let size = open_bytes(&self.contents, self.current).len() as u64;
        self.counts.measure(size);
        self.measured = Some(size);
        Ok(size)
    }

    fn read_at(&mut self, at: u64, into: &mut [u8]) -> Result<usize, Failed>
        requires { IsTrue (sure_files_view self.old).is_open }
        ensures reads { Reads at into.new (sure_files_view self.old) (sure_files_view self.new) result }
        ensures exact { ReadsIfListed at into.new (sure_files_view self.old) result }
        ensures ok { IsOk result }
    {
        self.counts.call();
        let count = copy_from(open_bytes(&self.contents, self.current), at, into);
        let short = is_short(self.measured, at, into.len(), count);
        self.counts.give(short, at, count);
        Ok(count)
    }
}
