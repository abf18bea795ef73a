//! The words of the command line.
ghost use Rattle.std.specs.Prelude.{IfErr};
ghost use Rattle.mgr_args.specs.CommandLine.{mistake};
ghost use Rattle.mgr_args.specs.Job.{IsFaultOf};

use crate::job::{JobFault, mistake};
use rga_ops::of_io;
use std::rt::Env;

/// The words of the command line, of which the first is the program's name. `Usage` where one of
/// them is not UTF-8, and `Memory`.
pub fn words<R: Env + AllocGlobal>(rt: &R) -> Result<Vec<String>, JobFault>
    ensures { IfErr result (IsFaultOf mistake) }
{
    match std::env::args(rt) {
        Ok(args) => Ok(args.collect(rt.alloc())?),
        Err(error) => Err(match of_io(&error) {
            Some(memory) => JobFault::Memory(memory),
            None => mistake(rt.alloc(), "an argument is not UTF-8"),
        }),
    }
}
