//! Work to be timed, by the scripts of `bench/`.
//!
//! The first word says of what: `edits` of a document, `commands` on a text, commands on `buffers`,
//! `frames` of a screen, `logs` and exchanges, or `worlds` of sites; the words behind it are said at
//! the head of the module of that name. What is printed follows from the work: a number, or what a
//! task of its own writes. The program stands on the crates that it times, and nothing stands on it.
#![tactic(auto)]

mod buffers;
mod command_kind;
mod commands;
mod edits;
mod fault;
mod frames;
mod logs;
mod text;
mod worlds;

use fault::Fault;
use rga_flat::FlatStore;
use rga_store::TextStore;
use rga_tree::TreeStore;
use std::alloc::Global;
use std::io;
use std::process::ExitCode;

fn main(rt: HostRuntime) -> io::Result<ExitCode> {
    let Ok(words) = std::env::args(&rt)?.collect::<Vec<String>>(rt.alloc()) else {
        eprintln!(rt; "out of memory")?;
        return Ok(ExitCode::FAILURE);
    };
    print(&rt, outcome::<FlatStore, TreeStore>(&rt, &words))
}

fn print(rt: &HostRuntime, outcome: Result<Option<u64>, Fault>) -> io::Result<ExitCode> {
    match outcome {
        Ok(Some(count)) => println!(rt; "{count}")?,
        Ok(None) => {}
        Err(fault) => {
            eprintln!(rt; "{}", fault)?;
            return Ok(ExitCode::FAILURE);
        }
    }
    Ok(ExitCode::SUCCESS)
}

/// What comes of the task that the words say, of which the first is the program's name. Nothing
/// where the task writes. Worlds have a store of the second kind.
fn outcome<S: TextStore, T: TextStore>(
    rt: &HostRuntime,
    words: &[String],
) -> Result<Option<u64>, Fault> {
    let Some(part) = words.get(1) else {
        return Err(Fault::Words);
    };
    match part.as_str() {
        "logs" => logs::outcome::<S>(rt, words),
        "worlds" => worlds::outcome::<T>(rt, words),
        part => Ok(Some(counted::<S>(rt.alloc(), part, words)? as u64)),
    }
}

fn counted<S: TextStore>(alloc: Global, part: &str, words: &[String]) -> Result<usize, Fault> {
    match part {
        "edits" => edits::outcome::<S>(alloc, words),
        "commands" => commands::outcome(alloc, words),
        "buffers" => buffers::outcome::<S>(alloc, words),
        "frames" => frames::outcome(alloc, words),
        _ => Err(Fault::Words),
    }
}
