ghost use Rattle.std.specs.Prelude.{◌≡◌, ◌≤◌, ◌<◌, ℕ, length, IfOk, OnErr};
ghost use Rattle.ga_counters.specs.Counts.{raised};
ghost use Rattle.ga_real.specs.Fresh.{nothing_taken};

use ga_base::Text;
use ga_ports::{Failed, Outs, TargetCounts, To};
use std::io::{self, Write};
use std::marker::Model;
use std::{fs, rt};

/// Standard output, standard error and the report's file. They tell no content; each failure is counted, and a write
/// that takes nothing of a piece that isn't empty is one.
#[derive(Drop)]
pub struct RealOuts<'a, R: rt::Files, P: Print, E: Print> {
    /// What makes the report's file.
    rt: &'a R,
    /// Standard output.
    output: &'a P,
    /// Standard error.
    errors: &'a E,
    /// The report's file, once it is made.
    report: Option<R::File>,
    /// What standard output took, and how often it failed.
    stdout: TargetCounts,
    /// The same of standard error.
    stderr: TargetCounts,
    /// The same of the report's file.
    file: TargetCounts,
    /// How often a report's file was asked for.
    made: u64,
    /// How many calls there were, over all targets.
    calls: u64,
}

impl<'a, R: rt::Files, P: Print, E: Print> Model for RealOuts<'a, R, P, E> {
    ghost use Rattle.std.specs.Prelude.{None, is_some};
    ghost use Rattle.ga_ports.specs.Outs.{OutsView};
    ghost use Rattle.ga_real.specs.Targets.{target_view};

    ghost Value = { OutsView };

    ghost view = { λ o. record {
      stdout = target_view o.stdout;
      stderr = target_view o.stderr;
      file = target_view o.file;
      is_made = is_some o.report;
      made = o.made;
      name = None;
      listed = None;
      calls = o.calls;
      starved = 0;
    } };
}

impl<'a, R: rt::Files, P: Print, E: Print> RealOuts<'a, R, P, E> {
    /// Targets that took nothing yet.
    pub fn new(rt: &'a R, output: &'a P, errors: &'a E) -> RealOuts<'a, R, P, E>
        ensures { result ≡ nothing_taken }
    {
        RealOuts {
            rt,
            output,
            errors,
            report: None,
            stdout: TargetCounts::ZERO,
            stderr: TargetCounts::ZERO,
            file: TargetCounts::ZERO,
            made: 0,
            calls: 0,
        }
    }
}

impl<'a, R: rt::Files, P: Print, E: Print> Outs for RealOuts<'a, R, P, E> {
    ghost view = { λ o. o };

    fn create(&mut self, name: &Text) -> Result<(), Failed> {
        self.calls = self.calls.saturating_add(1);
        self.made = self.made.saturating_add(1);
        match fs::create(self.rt, name.as_str()) {
            Ok(file) => {
                self.report = Some(file);
                Ok(())
            }
            Err(_) => {
                self.file.fail();
                Err(Failed)
            }
        }
    }

    fn write(&mut self, to: To, piece: &[u8]) -> Result<usize, Failed> {
        self.calls = self.calls.saturating_add(1);
        match to {
            To::Stdout => settle(&mut self.stdout, piece, self.output.write_some(piece)),
            To::Stderr => settle(&mut self.stderr, piece, self.errors.write_some(piece)),
            To::File => match &mut self.report {
                Some(file) => settle(&mut self.file, piece, file.write(piece)),
                None => {
                    self.file.fail();
                    Err(Failed)
                }
            },
        }
    }
}

/// Counts a write of a piece that was tried on a target: what it took, or a failure. Nothing taken of a piece that isn't
/// empty is a failure.
fn settle(
    counts: &mut TargetCounts,
    piece: &[u8],
    tried: io::Result<usize>,
) -> Result<usize, Failed>
    requires { IfOk tried (λ count. count ≤ length piece.now) }
    ensures ok { IfOk result (λ count. (count ≤ length piece.now) × (0 < length piece.now → 0 < count) × (counts.new ≡ record counts.old { taken = raised counts.old.taken count })) }
    ensures failed { OnErr result (counts.new ≡ record counts.old { faults = raised counts.old.faults 1 }) }
{
    match tried {
        Ok(count) if count > 0 || piece.is_empty() => {
            counts.take(count);
            Ok(count)
        }
        _ => {
            counts.fail();
            Err(Failed)
        }
    }
}
