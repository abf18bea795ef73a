//! The tree store: a text as a node for each identifier.
//!
//! A `TreeStore` finds an element by its identifier, and walks the tree of parents and children for
//! the order. What it took it can remove again without memory, so that a list of operations is
//! taken whole or not at all. The crate stands on rga_ops, on the traits of rga_store, on indexmap
//! and on smallvec. The layer above may rest on the contracts of `Taker`, `TextStore` and `Teller`,
//! which this store meets: all that it answers is a function of its content and its limit.
#![tactic(auto)]

mod child_list;
mod counting_back;
mod merging;
mod nodes;
mod operations;
mod preceding;
mod tree_store;
mod walk;

pub use tree_store::TreeStore;
