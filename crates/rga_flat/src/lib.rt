//! The flat store: a text as records and one sequence.
//!
//! A `FlatStore` keeps what is known of each identifier in records by identifier (rga_records), and
//! the complete elements as one sequence of entries in their order (rga_sequence). An insertion
//! goes behind its parent in the sequence, past the larger identifiers that stand there (Roh and
//! others 2011); where its parent is not complete it waits in a list under it. What was taken of a
//! list of operations can be removed again without memory, so that a list is taken whole or not at
//! all. The layer above may rest on the contracts of `Taker`, `TextStore` and `Teller` in
//! rga_store, which this store meets: all that it answers is a function of its content and its
//! limit.
#![tactic(auto)]

mod chains;
mod flat_store;
mod newer;
mod placing;
mod reading;
mod taking;
mod undoing;
mod waiting;
mod whole_list;

pub use flat_store::FlatStore;
