//! The subcommand `edit`: what it takes, as clap is told of it.
ghost use Rattle.std.specs.Prelude.{IfOk};
ghost use Rattle.mgr_args.specs.Edit.{edit_app};
ghost use Rattle.mgr_args.specs.Rules.{IsPlain};

use crate::part::{described, flag, name, number};
use clap::Command;
use std::alloc::{AllocError, Global};

const EDIT_HELP: &str =
    "Keys come on standard input, and the frame behind the last of them goes to standard output.
The log is NAME.ops, and the text NAME. C-x C-s saves, C-x C-c ends:

    printf 'hello\\030\\023' | mgr edit notes --replica 1

`mgr-live` shows it on a terminal.";

/// `edit`, with the words of its help. The number of the replica has to be given.
pub(crate) fn edit<'a>(alloc: Global) -> Result<Command<'a>, AllocError>
    ensures { IfOk result (IsPlain edit_app) }
{
    let about = "Take keys and write frames: edit a text and its log";
    let replica = "The number of this copy, which no other copy of the text has";
    let live = "A session for a front: reports among the keys, statuses and frames out";
    let changes = "With --live, tell changes of the text in place of frames";
    let runs = "Append more than 32 operations to the log in runs";
    let brief = "Exchange with a peer that does so too only what either lacks";
    let strict = "Fail where the last save or exchange of a buffer failed";
    described(alloc, "edit", about, EDIT_HELP)
        .arg(name(alloc))?
        .arg(number(alloc, "replica", 1, 65535, replica).required(true))?
        .arg(number(alloc, "rows", 3, 200, "The rows of the screen").default_value("24"))?
        .arg(number(alloc, "cols", 20, 500, "Its columns").default_value("80"))?
        .arg(number(alloc, "fill", 1, 9999, "The fill column").default_value("70"))?
        .arg(number(alloc, "port", 1, 65535, "The port of exchanges"))?
        .arg(flag(alloc, "trace", "Write a frame behind each step"))?
        .arg(flag(alloc, "live", live))?
        .arg(flag(alloc, "changes", changes))?
        .arg(flag(alloc, "runs", runs))?
        .arg(flag(alloc, "brief", brief))?
        .arg(flag(alloc, "strict", strict))
}
