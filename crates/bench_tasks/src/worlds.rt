//! Random events in a world of eight sites, and what the laws say of it, looked at as they happen:
//! `worlds SEED EVENTS`.
//!
//! So many events are made, others for each seed: edits, saves, deliveries and restarts, some of
//! which are refused. Each inserted character is another one. Every thousand events what all sites
//! have saved is joined, by operations, in which no conflict may come. Then each text has to show
//! what is saved of it in the order of that join, and the order of the join before has to be a part
//! of its order. It writes how many events were done and refused, how many elements were saved at
//! the last look, how many looks there were, and how many differences.
mod events;
mod looks;
mod simulation;

use crate::fault::Fault;
use crate::text::number_at;
use rga_store::TextStore;
use rga_world::WorldRefusal;
use simulation::{Counts, Simulation};
use std::alloc::Global;
use std::io;

pub fn outcome<S: TextStore>(rt: &HostRuntime, words: &[String]) -> Result<Option<u64>, Fault> {
    let (Some(seed), Some(events)) = (number_at(words, 2), number_at(words, 3)) else {
        return Err(Fault::Words);
    };
    match simulated::<S>(rt.alloc(), seed as u64, events) {
        Ok(counts) => told(rt, counts),
        Err(_) => Err(Fault::Refused),
    }
}

fn told(rt: &HostRuntime, counts: Counts) -> Result<Option<u64>, Fault> {
    match tell(rt, counts) {
        Ok(()) => Ok(None),
        Err(_) => Err(Fault::Write),
    }
}

fn tell(rt: &HostRuntime, counts: Counts) -> io::Result<()> {
    println!(rt;
        "{} events were done, {} refused\n{} elements are saved\n{} looks, {} differences",
        counts.done, counts.refused, counts.saved, counts.looks, counts.differences
    )
}

/// What was counted in a world over so many events.
fn simulated<S: TextStore>(
    alloc: Global,
    seed: u64,
    events: usize,
) -> Result<Counts, WorldRefusal> {
    let mut simulation = Simulation::<S>::new(alloc, seed)?;
    run(alloc, &mut simulation, events)
}

fn run<S: TextStore>(
    alloc: Global,
    simulation: &mut Simulation<S>,
    events: usize,
) -> Result<Counts, WorldRefusal> {
    for number in 0..events {
        simulation.go_on(alloc)?;
        if number % 1000 == 999 {
            simulation.look(alloc)?;
        }
    }
    Ok(simulation.counts())
}
