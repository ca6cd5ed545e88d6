ghost use Rattle.ga_ports.specs.Trace.{OutsTrace};
ghost use Rattle.std.specs.Prelude.{option_map};
ghost use Rattle.std.specs.Option.{option_copied};
ghost use Rattle.ga_one_run.specs.Printing.{Delivers};

use ga_base::Text;
use ga_ports::{Outs, To};
use ga_targets::print;

/// Writes a report: to the file of this name, which is made first, or to standard output where there is none. An `Err` is
/// the number of bytes that were taken before its target failed, 0 where the file couldn't be made.
pub fn deliver<O: Outs>(outs: &mut O, file: Option<&Text>, text: &[u8]) -> Result<(), u64>
    ensures delivers { Delivers (option_copied file.entry) text.now (O.view outs.old) (O.view outs.new) result }
    ensures calls { OutsTrace (O.view outs.old) (O.view outs.new) }
{
    let Some(name) = file else {
        return print(outs, To::Stdout, text);
    };
    match outs.create(name) {
        Ok(()) => print(outs, To::File, text),
        Err(_) => Err(0),
    }
}
