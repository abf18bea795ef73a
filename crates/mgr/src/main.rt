//! mgr: an editor whose buffers are replicas of one text.
//!
//! The program does what the words of the command line ask for, by standard input and output. Which
//! job that is belongs to mgr_args, what is read and written in between to mgr_show and mg_session,
//! and files to mgr_port. The shell may rest on the statuses (`do_job`): 0 for `show` says that the
//! text was written, each other answer of `show_ops` and of `run_keys` has the status of its fault,
//! and help or the version that was not printed is never told as done; and on what is told of a
//! fault (`Tell`): the line of its `Report` and nothing else. `run` does that for standard input,
//! output and error and for files, which have no name in a clause.
#![tactic(auto)]

mod printed;
mod report;
mod shell;
mod sources;
mod streams;
mod tell;

use std::process::ExitCode;

fn main(rt: HostRuntime) -> ExitCode {
    ExitCode::from(shell::run(&rt))
}
