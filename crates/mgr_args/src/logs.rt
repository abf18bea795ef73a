//! The subcommands that read logs as they came: `show`, `join` and `merge`.
ghost use Rattle.std.specs.Prelude.{IfOk};
ghost use Rattle.mgr_args.specs.Rules.{IsLocal, IsPlain, join_app, merge_app};
ghost use Rattle.mgr_args.specs.Rules.{optional_logs_rule, show_app};

use crate::part::{described, flag, name, number};
use clap::{Arg, ArgAction, Command};
use std::alloc::{AllocError, Global};

const SHOW_HELP: &str =
    "The log of NAME is NAME.ops. Without NAME, lines come on standard input, from one log or several:

    mgr show notes
    mgr show notes --lines 100
    cat FILE FILE | mgr show";

const JOIN_HELP: &str = "Each LOG is the path of a log, or - for standard input:

    mgr join notes.ops copy/notes.ops > both.ops

A log that does not agree with those before it is refused, and nothing is written.";

const MERGE_HELP: &str = "Each LOG is the path of a log, or - for standard input:

    mgr merge notes /mnt/share/notes.ops
    ssh host mgr claims notes | mgr missing notes | ssh host mgr merge notes - --adopt

NAME.ops and the text NAME then have what the logs have. If one is refused, both stay. Without
LOG a text NAME that is missing is put.";

/// `show`, with the words of its help.
pub(crate) fn show<'a>(alloc: Global) -> Result<Command<'a>, AllocError>
    ensures { IfOk result (IsPlain show_app) }
{
    let name = Arg::new(alloc, "name")
        .action(ArgAction::Set)
        .value_name("NAME")
        .help("The note whose log NAME.ops is read");
    let help = "Only what the first N lines make: an older text";
    let about = "Read operation lines and write the text that they make";
    described(alloc, "show", about, SHOW_HELP)
        .arg(name)?
        .arg(number(alloc, "lines", 0, u64::MAX, help))
}

/// `join`, with the words of its help.
pub(crate) fn join<'a>(alloc: Global) -> Result<Command<'a>, AllocError>
    ensures { IfOk result (IsPlain join_app) }
{
    let about = "Write the log that logs make together";
    let logs = optional_logs(alloc, "The logs to join");
    described(alloc, "join", about, JOIN_HELP).arg(logs.required(true))
}

/// `merge`, with the words of its help.
pub(crate) fn merge<'a>(alloc: Global) -> Result<Command<'a>, AllocError>
    ensures { IfOk result (IsPlain merge_app) }
{
    let about = "Merge logs into a text and its log";
    described(alloc, "merge", about, MERGE_HELP)
        .arg(name(alloc))?
        .arg(optional_logs(alloc, "The logs to merge"))?
        .arg(flag(alloc, "adopt", "Take logs of another note, too"))
}

/// Paths, which may be left out, with the words of their help.
fn optional_logs<'a>(alloc: Global, help: &'a str) -> Arg<'a>
    ensures { IsLocal optional_logs_rule result }
{
    Arg::new(alloc, "logs")
        .action(ArgAction::Append)
        .num_args(1..)
        .value_name("LOG")
        .help(help)
}
