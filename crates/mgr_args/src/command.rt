//! The command line as clap is told of it.
ghost use Rattle.std.specs.Prelude.{◌≡◌, IfOk};
ghost use Rattle.clap.specs.Simple.{app_of};
ghost use Rattle.mgr_args.specs.CommandLine.{command_line, program_alone};

use crate::edit::edit;
use crate::logs::{join, merge, show};
use crate::note::{claims, compact, log, mend, missing, who};
use crate::part::described;
use clap::Command;
use std::alloc::{AllocError, Global};

/// The version of the package, and the toolchain that proves it.
pub const VERSION: &str = "0.1.0 (rattle-kit-13f)";

const MGR_HELP: &str = "`mgr help show` is the help of `show`, and so on.";

const MGR_USAGE: &str = "mgr <COMMAND>
       mgr-live <NAME>  (edits on a terminal)";

/// The program without its jobs.
fn program<'a>(alloc: Global) -> Command<'a>
    ensures { app_of result ≡ program_alone }
{
    let about = "An editor whose buffers are replicas of one text";
    described(alloc, "mgr", about, MGR_HELP)
        .version(VERSION)
        .override_usage(MGR_USAGE)
        .subcommand_required(true)
        .disable_help_subcommand(true)
}

/// The program with its jobs.
pub(crate) fn command<'a>(alloc: Global) -> Result<Command<'a>, AllocError>
    ensures { IfOk result (λ c. app_of c ≡ command_line) }
{
    program(alloc)
        .subcommand(show(alloc)?)?
        .subcommand(edit(alloc)?)?
        .subcommand(compact(alloc)?)?
        .subcommand(join(alloc)?)?
        .subcommand(log(alloc)?)?
        .subcommand(who(alloc)?)?
        .subcommand(claims(alloc)?)?
        .subcommand(missing(alloc)?)?
        .subcommand(merge(alloc)?)?
        .subcommand(mend(alloc)?)
}
