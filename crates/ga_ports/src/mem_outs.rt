ghost use Rattle.std.specs.Prelude.{◌≡◌, OnOk, OnErr, option_map};
ghost use Rattle.ga_ports.specs.MemOuts.{no_outs, after_room, after_listing, outs_view, sink};

use crate::sink::Sink;
use crate::{Failed, Outs, To};
use ga_base::{NoMemory, Text};
use ga_counters::is_due;
use std::alloc::Global;
use std::marker::Model;

/// Targets in memory, whose bytes are told, with a list of the calls that are to fail and a room for each target.
#[derive(Debug, Drop)]
pub struct MemOuts {
    stdout: Sink,
    stderr: Sink,
    file: Sink,
    is_made: bool,
    made: u64,
    name: Option<Text>,
    calls: u64,
    starved: u64,
    failing: Vec<u64>,
}

impl Model for MemOuts {
    ghost use Rattle.ga_ports.specs.MemOuts.{OutsState, sink_state};

    ghost Value = { OutsState };

    ghost view = { λ m. record {
      stdout = sink_state m.stdout;
      stderr = sink_state m.stderr;
      file = sink_state m.file;
      is_made = m.is_made;
      made = m.made;
      name = m.name;
      listed = m.failing.items;
      calls = m.calls;
      starved = m.starved;
    } };
}

impl MemOuts {
    /// Targets that took nothing and have no room set; no call is to fail.
    pub fn new(alloc: Global) -> MemOuts
        ensures { result ≡ no_outs }
    {
        MemOuts {
            stdout: Sink::new(alloc),
            stderr: Sink::new(alloc),
            file: Sink::new(alloc),
            is_made: false,
            made: 0,
            name: None,
            calls: 0,
            starved: 0,
            failing: Vec::new(alloc),
        }
    }

    /// Lists a call that is to fail, counted from 1 over all calls of `Outs` since the form was made.
    /// After an `Err` the list is as it was.
    pub fn fail_at(&mut self, call: u64) -> Result<(), NoMemory>
        ensures ok { OnOk result (self.new ≡ after_listing call self.old) }
        ensures err { OnErr result (self.new ≡ self.old) }
    {
        self.failing.push(call)?;
        Ok(())
    }

    /// Gives a target a room of this many bytes from now on. A write takes what fits in what is left of it, and fails
    /// where nothing is left.
    pub fn set_room(&mut self, to: To, room: u64)
        ensures { self.new ≡ after_room to room self.old }
    {
        match to {
            To::Stdout => self.stdout.room = Some(room),
            To::Stderr => self.stderr.room = Some(room),
            To::File => self.file.room = Some(room),
        }
    }

    /// The bytes that a target holds.
    pub fn taken(&self, to: To) -> &[u8]
        ensures { result.now ≡ (sink to self.now).bytes }
    {
        match to {
            To::Stdout => &self.stdout.bytes,
            To::Stderr => &self.stderr.bytes,
            To::File => &self.file.bytes,
        }
    }

    /// The number of calls that failed for lack of memory.
    pub fn starved(&self) -> u64
        ensures { result ≡ self.now.starved }
    {
        self.starved
    }

    /// The number of `create` calls so far.
    pub fn times_made(&self) -> u64
        ensures { result ≡ self.now.made }
    {
        self.made
    }

    /// The name of the file made last, that of the last `create` that answered Ok.
    pub fn last_made(&self) -> Option<&Text>
        ensures { option_map (λ t. t.now) result ≡ self.now.name }
    {
        self.name.as_ref()
    }
}

impl Outs for MemOuts {
    ghost view = { outs_view };

    fn create(&mut self, name: &Text) -> Result<(), Failed> {
        let due = is_due(&self.failing, self.calls);
        self.calls = self.calls.saturating_add(1);
        self.made = self.made.saturating_add(1);
        if due {
            self.file.counts.fail();
            return Err(Failed);
        }
        let Ok(name) = name.clone() else {
            self.file.counts.fail();
            self.starved = self.starved.saturating_add(1);
            return Err(Failed);
        };
        self.file.bytes.clear();
        self.is_made = true;
        self.name = Some(name);
        Ok(())
    }

    fn write(&mut self, to: To, piece: &[u8]) -> Result<usize, Failed> {
        let due = is_due(&self.failing, self.calls);
        self.calls = self.calls.saturating_add(1);
        match to {
            To::Stdout => self.stdout.take(due, &mut self.starved, piece),
            To::Stderr => self.stderr.take(due, &mut self.starved, piece),
            To::File => self.file.take(due, &mut self.starved, piece),
        }
    }
}
