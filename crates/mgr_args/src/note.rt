//! The subcommands that take a note and a flag, `compact`, `log` and `who`, or a note alone,
//! `claims`, `missing` and `mend`.
ghost use Rattle.std.specs.Prelude.{codes, IfOk};
ghost use Rattle.mgr_args.specs.Rules.{IsPlain, name_app, note_app};

use crate::part::{described, flag, name};
use clap::Command;
use std::alloc::{AllocError, Global};

const COMPACT_HELP: &str =
    "NAME.ops then stands for the same operations in fewer lines; what it was is NAME.ops~:

    mgr compact notes

An mgr without `compact` does not read it, nor one without `--dels` what that wrote.";

const LOG_HELP: &str = "NAME.ops is read, and the text NAME. A note that is open may be read, too:

    mgr log notes
    mgr log --json notes | jq .visible";

const WHO_HELP: &str = "Each piece of the text is a line of JSON, with the replica that wrote it:

    mgr who notes
    mgr who --lines notes | less";

const CLAIMS_HELP: &str =
    "Lines of JSON say what NAME.ops has, or a log on standard input if NAME is -:

    ssh host mgr claims notes | mgr missing notes | ssh host mgr merge notes - --adopt

`mgr missing` reads these lines.";

const MISSING_HELP: &str =
    "What the other log has comes on standard input, in the lines of `mgr claims`:

    ssh host mgr claims notes | mgr missing notes | ssh host mgr merge notes - --adopt

What is written is a log, which `mgr merge` takes.";

const MEND_HELP: &str =
    "Each whole line of NAME.ops that is an operation stays, of two that conflict one:

    mgr mend notes

What is left out goes to NAME.ops.refused, and the old log to NAME.ops~.";

/// `compact`, with the words of its help.
pub(crate) fn compact<'a>(alloc: Global) -> Result<Command<'a>, AllocError>
    ensures { IfOk result (IsPlain (note_app (codes "compact") (codes "dels"))) }
{
    let help = "Write deletions in runs, too";
    let about = "Write the log of a text anew, in fewer lines";
    described(alloc, "compact", about, COMPACT_HELP)
        .arg(name(alloc))?
        .arg(flag(alloc, "dels", help))
}

/// `log`, with the words of its help.
pub(crate) fn log<'a>(alloc: Global) -> Result<Command<'a>, AllocError>
    ensures { IfOk result (IsPlain (note_app (codes "log") (codes "json"))) }
{
    let help = "Write one JSON object";
    let about = "Count what stands in the log of a text";
    described(alloc, "log", about, LOG_HELP)
        .arg(name(alloc))?
        .arg(flag(alloc, "json", help))
}

/// `who`, with the words of its help.
pub(crate) fn who<'a>(alloc: Global) -> Result<Command<'a>, AllocError>
    ensures { IfOk result (IsPlain (note_app (codes "who") (codes "lines"))) }
{
    let help = "Write the lines of the text, with the replicas that wrote in each";
    let about = "Write a text with the replicas that wrote it";
    described(alloc, "who", about, WHO_HELP)
        .arg(name(alloc))?
        .arg(flag(alloc, "lines", help))
}

/// `claims`, with the words of its help.
pub(crate) fn claims<'a>(alloc: Global) -> Result<Command<'a>, AllocError>
    ensures { IfOk result (IsPlain (name_app (codes "claims"))) }
{
    let about = "Write what the log of a text has, in short";
    described(alloc, "claims", about, CLAIMS_HELP).arg(name(alloc))
}

/// `missing`, with the words of its help.
pub(crate) fn missing<'a>(alloc: Global) -> Result<Command<'a>, AllocError>
    ensures { IfOk result (IsPlain (name_app (codes "missing"))) }
{
    let about = "Write the operations that another log of a text lacks";
    described(alloc, "missing", about, MISSING_HELP).arg(name(alloc))
}

/// `mend`, with the words of its help.
pub(crate) fn mend<'a>(alloc: Global) -> Result<Command<'a>, AllocError>
    ensures { IfOk result (IsPlain (name_app (codes "mend"))) }
{
    let about = "Make a refused or torn log one that is read";
    described(alloc, "mend", about, MEND_HELP).arg(name(alloc))
}
