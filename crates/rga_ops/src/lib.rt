//! Identifiers and operations of a replicated text, and what they mean.
//!
//! The text is a Replicated Growable Array in its timestamped-insertion-tree form (Attiya and
//! others 2016; Roh and others 2011). This crate has the two things that travel, `Id` and `Op`,
//! the answers to them, `Taken` and `Refusal`, and in `specs/` the definitions that the contracts
//! of every crate above cite: content, join, root path, order list, text, place. It stands on std
//! alone. The layer above may rest on `Id`'s ranges, on `Op::check`, on `answer_to`, by which a
//! store answers from what it finds, and on the theorems of `laws`: each is the contract of a
//! function with no body, so that the check proves it.
#![tactic(auto)]

mod answer;
mod id;
pub mod laws;
mod op;
mod out_of_memory;
mod refusal;
mod splice;

pub use answer::{Found, answer_to};
pub use id::Id;
pub use op::Op;
pub use out_of_memory::{OutOfMemory, counted_together, of_io};
pub use refusal::{Refusal, Taken};
pub use splice::Splice;
