//! Stores: what takes operations, and what shows their elements in order.
//!
//! Two traits say what any store does, by the content that it stands for: `Taker` takes operations,
//! and `TextStore` is a `Taker` of a text, with the order of its elements. What any store would
//! answer is told before it takes anything (`answers`). A `Teller` is a `TextStore` that tells its
//! operations one by one, so that who looks at each of them needs no list. How a store's clock
//! rises and how it counts the identifiers that it knows is said once (`counts`), and so is how the
//! operations of a list are noted for the way back (`Step`). No store stands here, so nothing above
//! the traits waits for one. The crate stands on rga_ops, and on indexmap, which no public
//! signature names. The layer above rests on the traits' contracts and on nothing that a store
//! keeps inside: all that a store answers is a function of its content and its limit, so replicas
//! that took the same operations show the same (`laws`).
#![tactic(auto)]

mod answers;
pub mod counts;
pub mod laws;
mod positions;
mod steps;
mod taker;
mod telling;
mod text_store;

pub use answers::{
    Holder, Lookup, answer_at, answer_to_list, early_answer_at, has_unknown, new_operations_at,
};
pub use positions::position_of;
pub use steps::{Step, note};
pub use taker::Taker;
pub use telling::{Listener, Teller};
pub use text_store::{MAX_LIMIT, TextStore};
