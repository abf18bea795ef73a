//! What the tests of the crates above share: operations and stores written short, a device in
//! memory that fails, and numbers that look random.
//!
//! Tests use this crate, and so does what is timed (bench_tasks). It stands on rga_ops and
//! rga_store; the layer above may rest on the comments of what is here, and on no contract.
#![tactic(auto)]

mod devices;
mod lists;
mod operations;
mod random;
mod stores;

pub use devices::Narrow;
pub use lists::{is, same};
pub use operations::{are_ops_of, chain, deletion, id, insertion, op_of, ops_of, prints, spells};
pub use random::Random;
pub use stores::{store_of, store_shows, take};
