ghost use Rattle.std.specs.Prelude.{◌≡◌, IsOk};
ghost use Rattle.ga_ports.specs.Outs.{Creates, Writes, CanTake, CreatesIfListed, WritesIfListed};
ghost use Rattle.ga_ports.specs.SureOuts.{no_sure_outs, number_taken, sure_outs_view};

use crate::{Failed, Outs, To};
use ga_base::Text;
use std::marker::Model;

/// Targets over which no call fails, which keep how much they took and not what. Their counts of faults are 0 for
/// good.
#[derive(Debug, Drop)]
pub struct SureOuts {
    /// The number of bytes taken.
    stdout: u64,
    /// The number of bytes taken.
    stderr: u64,
    /// The number of bytes taken.
    file: u64,
    is_made: bool,
    /// The number of `create` calls.
    made: u64,
    calls: u64,
}

impl Model for SureOuts {
    ghost use Rattle.ga_ports.specs.SureOuts.{SureOutsState};

    ghost Value = { SureOutsState };

    ghost view = { λ m. record {
      stdout = m.stdout;
      stderr = m.stderr;
      file = m.file;
      is_made = m.is_made;
      made = m.made;
      calls = m.calls;
    } };
}

impl SureOuts {
    /// Targets that took nothing.
    pub fn new() -> SureOuts
        ensures { result ≡ no_sure_outs }
    {
        SureOuts {
            stdout: 0,
            stderr: 0,
            file: 0,
            is_made: false,
            made: 0,
            calls: 0,
        }
    }

    /// The number of bytes that a target took so far.
    pub fn bytes_taken(&self, to: To) -> u64
        ensures { result ≡ number_taken to self.now }
    {
        match to {
            To::Stdout => self.stdout,
            To::Stderr => self.stderr,
            To::File => self.file,
        }
    }

    /// The number of `create` calls so far.
    pub fn times_made(&self) -> u64
        ensures { result ≡ self.now.made }
    {
        self.made
    }
}

impl Outs for SureOuts {
    ghost view = { sure_outs_view };

    fn create(&mut self, name: &Text) -> Result<(), Failed>
        ensures creates { Creates name.now (sure_outs_view self.old) (sure_outs_view self.new) result }
        ensures exact { CreatesIfListed (sure_outs_view self.old) (sure_outs_view self.new) result }
        ensures ok { IsOk result }
    {
        self.calls = self.calls.saturating_add(1);
        self.made = self.made.saturating_add(1);
        self.is_made = true;
        Ok(())
    }

    fn write(&mut self, to: To, piece: &[u8]) -> Result<usize, Failed>
        requires { CanTake to (sure_outs_view self.old) }
        ensures writes { Writes to piece.now (sure_outs_view self.old) (sure_outs_view self.new) result }
        ensures exact { WritesIfListed to piece.now (sure_outs_view self.old) (sure_outs_view self.new) result }
        ensures ok { IsOk result }
    {
        let count = piece.len() as u64;
        self.calls = self.calls.saturating_add(1);
        match to {
            To::Stdout => self.stdout = self.stdout.saturating_add(count),
            To::Stderr => self.stderr = self.stderr.saturating_add(count),
            To::File => self.file = self.file.saturating_add(count),
        }
        Ok(piece.len())
    }
}
