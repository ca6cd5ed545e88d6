//! The program goaccess: `program`, over the files, the disk and the targets of the system.
#![tactic(auto)]

mod answers;
mod program;
#[cfg(test)]
mod tests;
mod words;

use ga_real::{RealDisk, RealFiles, RealOuts};
use program::program;
use std::env;
use std::process::ExitCode;

fn main(rt: HostRuntime) -> ExitCode {
    let (stdout, stderr) = (rt.stdout(), rt.stderr());
    let mut files = RealFiles::new(&rt);
    let mut disk = RealDisk::new(&rt, rt.alloc());
    let mut outs = RealOuts::new(&rt, &stdout, &stderr);
    program(
        &rt,
        rt.alloc(),
        env::args(&rt),
        &mut files,
        &mut disk,
        &mut outs,
    )
}
