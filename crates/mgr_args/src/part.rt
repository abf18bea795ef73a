//! Commands and arguments, as clap is told of them.
ghost use Rattle.clap.specs.Simple.{new_app};
ghost use Rattle.mgr_args.specs.Rules as spec;

use clap::builder::ValueParser;
use clap::{Arg, ArgAction, Command};
use std::alloc::Global;

/// A command with the words of its help: what it does, and more behind its arguments.
pub(crate) fn described<'a>(
    alloc: Global,
    name: &'a str,
    about: &'a str,
    more: &'a str,
) -> Command<'a>
    ensures { spec.IsPlain (new_app name.entry.now) result }
{
    Command::new(alloc, name).about(about).after_help(more)
}

/// The name of a buffer.
pub(crate) fn name<'a>(alloc: Global) -> Arg<'a>
    ensures { spec.IsLocal spec.name_rule result }
{
    Arg::new(alloc, "name")
        .action(ArgAction::Set)
        .value_name("NAME")
        .required(true)
        .help("The buffer, and the file of its text")
}

/// A number after `--id`, within limits, with the words of its help.
pub(crate) fn number<'a>(
    alloc: Global,
    id: &'a str,
    least: u64,
    most: u64,
    help: &'a str,
) -> Arg<'a>
    ensures { spec.IsLocal (spec.number_rule id.entry.now least most) result }
{
    Arg::new(alloc, id)
        .long(id)
        .action(ArgAction::Set)
        .value_name("N")
        .value_parser(ValueParser::unsigned(least, most))
        .help(help)
}

/// A flag `--id`, with the words of its help.
pub(crate) fn flag<'a>(alloc: Global, id: &'a str, help: &'a str) -> Arg<'a>
    ensures { spec.IsLocal (spec.flag id.entry.now) result }
{
    Arg::new(alloc, id)
        .long(id)
        .action(ArgAction::SetTrue)
        .help(help)
}
