//! The program goaccess_db: `program`, over two disks and the targets of the system.
#![tactic(auto)]

mod answers;
mod program;
#[cfg(test)]
mod tests;
mod words;

use ga_real::{RealDisk, RealOuts};
use program::program;
use std::env;
use std::process::ExitCode;

fn main(rt: HostRuntime) -> ExitCode {
    let (stdout, stderr) = (rt.stdout(), rt.stderr());
    let mut first = RealDisk::new(&rt, rt.alloc());
    let mut second = RealDisk::new(&rt, rt.alloc());
    let mut outs = RealOuts::new(&rt, &stdout, &stderr);
    program(
        rt.alloc(),
        env::args(&rt),
        &mut first,
        &mut second,
        &mut outs,
    )
}
