//! The command line of mgr: the words after the program's name, and the job that they ask for.
//!
//! clap reads them; no other crate knows it. The program above may rest on the contracts: the job
//! is the one that the words ask for, help and the version are told where they are asked for, and
//! every other command line is refused (`job_of`). What follows the word of a job is read as clap's
//! own definition says; that `show` alone reads standard input is a law (`laws`).
#![tactic(auto)]

mod arguments;
mod command;
mod edit;
mod given;
mod job;
pub mod laws;
mod logs;
mod note;
mod part;

pub use arguments::words;
pub use given::{Merging, Note, Shown};
pub use job::{Job, JobFault, Topic, job_of, job_status};
