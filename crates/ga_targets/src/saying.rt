ghost use Rattle.std.specs.Prelude.{◌≡◌, ◌≤◌, map};
ghost use Rattle.ga_ports.specs.declared.outs.To.TheVariants.{Stderr};
ghost use Rattle.ga_ports.specs.Trace.{OutsTrace};
ghost use Rattle.ga_targets.specs.Printing.{ChangesOnly, TakesOrStops, joined};

use crate::print;
use ga_ports::{Outs, To};

/// Writes pieces one after the other to standard error, up to its first fault.
pub fn say<O: Outs>(outs: &mut O, pieces: &[&[u8]])
    ensures line { TakesOrStops (joined (map (λ piece. piece.now) pieces.now)) (O.view outs.old).stderr (O.view outs.new).stderr }
    ensures others { ChangesOnly Stderr (O.view outs.old) (O.view outs.new) }
    ensures starved { (O.view outs.old).starved ≤ (O.view outs.new).starved }
    ensures calls { OutsTrace (O.view outs.old) (O.view outs.new) }
{
    for piece in pieces {
        match print(outs, To::Stderr, piece) {
            Ok(()) => {}
            Err(_) => return,
        }
    }
}
