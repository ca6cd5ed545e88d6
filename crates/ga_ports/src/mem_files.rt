ghost use Rattle.std.specs.Prelude.{◌≡◌, OnOk, OnErr};
ghost use Rattle.ga_ports.specs.MemFiles.{no_files, after_growth, after_renaming, after_listing, files_view};

use crate::contents::{Content, append, change_name, copy_from, find, open_bytes};
use crate::{Failed, FileCounts, Files, is_short};
use ga_base::{NoMemory, Text};
use ga_counters::is_due;
use std::alloc::Global;
use std::marker::Model;

/// Files in memory, whose contents are told, with a list of the calls that are to fail.
#[derive(Debug, Drop)]
pub struct MemFiles {
    alloc: Global,
    contents: Vec<Content>,
    /// The place of the open file in `contents`.
    current: Option<usize>,
    measured: Option<u64>,
    counts: FileCounts,
    failing: Vec<u64>,
}

impl Model for MemFiles {
    ghost use Rattle.std.specs.Prelude.{◌<◌, vec_len};
    ghost use Rattle.std.specs.Option.{ForSome};
    ghost use Rattle.ga_ports.specs.Places.{pairs, bytes_at};
    ghost use Rattle.ga_ports.specs.MemFiles.{FilesState};

    ghost Value = { FilesState };

    ghost view = { λ m. record {
      contents = pairs m.contents.items;
      listed = m.failing.items;
      opened = bytes_at m.current (pairs m.contents.items);
      measured = m.measured;
      counts = m.counts;
    } };

    ghost invariant = { λ m. ForSome m.current (λ i. i < vec_len m.contents) };
}

impl MemFiles {
    /// No files, none of whose calls is to fail.
    pub fn new(alloc: Global) -> MemFiles
        ensures { result ≡ no_files }
    {
        MemFiles {
            alloc,
            contents: Vec::new(alloc),
            current: None,
            measured: None,
            counts: FileCounts::ZERO,
            failing: Vec::new(alloc),
        }
    }

    /// Appends bytes to the file of this name, which is made where it isn't there. The open file is let go.
    /// After an `Err` the files are as they were.
    pub fn grow(&mut self, name: &Text, bytes: &[u8]) -> Result<(), NoMemory>
        ensures ok { OnOk result (self.new ≡ after_growth name.now bytes.now self.old) }
        ensures err { OnErr result (self.new ≡ self.old) }
    {
        append(self.alloc, &mut self.contents, name, bytes)?;
        self.current = None;
        self.measured = None;
        Ok(())
    }

    /// Changes the name of a file, where `from` is there and `to` isn't, and else nothing. The open file stays open.
    /// After an `Err` the files are as they were.
    pub fn rename(&mut self, from: &Text, to: &Text) -> Result<(), NoMemory>
        ensures ok { OnOk result (self.new ≡ after_renaming from.now to.now self.old) }
        ensures err { OnErr result (self.new ≡ self.old) }
    {
        let name = to.clone()?;
        change_name(&mut self.contents, from, name);
        Ok(())
    }

    /// Lists a call that is to fail, counted from 1 over all calls of `Files` since the form was made.
    /// After an `Err` the list is as it was.
    pub fn fail_at(&mut self, call: u64) -> Result<(), NoMemory>
        ensures ok { OnOk result (self.new ≡ after_listing call self.old) }
        ensures err { OnErr result (self.new ≡ self.old) }
    {
        self.failing.push(call)?;
        Ok(())
    }

    /// The number of bytes handed out so far.
    pub fn bytes_given(&self) -> u64
        ensures { result ≡ self.now.counts.given }
    {
        self.counts.given
    }
}

impl Files for MemFiles {
    ghost view = { files_view };

    fn open(&mut self, name: &Text) -> Result<(), Failed> {
        let found = find(&self.contents, name);
        let fails = is_due(&self.failing, self.counts.calls) || found.is_none();
        self.current = None;
        self.measured = None;
        self.counts.ask(found.is_none());
        if fails {
            self.counts.fail();
            return Err(Failed);
        }
        self.counts.call();
        self.current = found;
        Ok(())
    }

    fn size(&mut self) -> Result<u64, Failed> {
        if is_due(&self.failing, self.counts.calls) {
            self.counts.fail();
            return Err(Failed);
        }
        self.counts.call();
        let size = open_bytes(&self.contents, self.current).len() as u64;
        self.counts.measure(size);
        self.measured = Some(size);
        Ok(size)
    }

    fn read_at(&mut self, at: u64, into: &mut [u8]) -> Result<usize, Failed> {
        if is_due(&self.failing, self.counts.calls) {
            self.counts.fail();
            return Err(Failed);
        }
        self.counts.call();
        let count = copy_from(open_bytes(&self.contents, self.current), at, into);
        let short = is_short(self.measured, at, into.len(), count);
        self.counts.give(short, at, count);
        Ok(count)
    }
}
