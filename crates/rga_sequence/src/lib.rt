//! One flat sequence: the elements of a text in their order, deleted ones too, in blocks.
//!
//! A Replicated Growable Array may be kept as a tree or as one sequence, in which an insertion goes
//! behind its parent, past the larger identifiers that stand there (Roh and others 2011); where
//! each identifier is larger than its parent's, both show one order. This crate has that sequence:
//! an `Entry` is put, deleted or taken out again, found by its identifier, and told by its place
//! among the visible ones. It stands on rga_ops, and on rga_pages for the laws of lists in parts.
//! The layer above may rest on the contracts, which see a `Sequence` as the list of its entries,
//! and on the laws, which say what the same is to their identifiers; the names of blocks serve
//! speed alone, and no answer depends on them.
#![tactic(auto)]

mod block;
mod bounds;
mod counts;
mod entry;
mod finding;
mod groups;
pub mod laws;
mod listing;
mod names;
mod near;
mod place;
mod putting;
mod removing;
mod scans;
mod sequence;
mod skipping;

pub use entry::Entry;
pub use near::Near;
pub use putting::MOST_AT_ONCE;
pub use sequence::{Put, Sequence};
