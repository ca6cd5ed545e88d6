ghost use Rattle.ga_ports.specs.Outs.{CanTake};
ghost use Rattle.ga_ports.specs.Trace.{OutsTrace};
ghost use Rattle.ga_targets.specs.Printing.{Prints};

use ga_ports::{Outs, To};

/// Writes all bytes to a target. An `Err` is the number of bytes that it took before it failed.
pub fn print<O: Outs>(outs: &mut O, to: To, bytes: &[u8]) -> Result<(), u64>
    requires { CanTake to (O.view outs.old) }
    ensures prints { Prints to bytes.now (O.view outs.old) (O.view outs.new) result }
    ensures calls { OutsTrace (O.view outs.old) (O.view outs.new) }
{
    let mut at = 0;
    while at < bytes.len() {
        match outs.write(to, &bytes[at..]) {
            Ok(count) => at += count,
            Err(_) => return Err(at as u64),
        }
    }
    Ok(())
}
