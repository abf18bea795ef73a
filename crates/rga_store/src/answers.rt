//! What a store answers to an operation, and which operations of a list are new to it, before it
//! takes any.
//!
//! A taker above a store asks here for what it has to know before anything is changed: so it finds
//! each refusal, and makes room for what it notes beside the store, and the taking comes last. Each
//! call says what the definitions `answer`, `new_operations` and, as far as no memory is needed,
//! `list_answer` of rga_ops give for the content and the limit of any store. What the stores answer
//! themselves to a list that they take whole or not at all stands here too, over look-ups
//! (`answer_to_list`).
mod answer;
mod early_answer;
mod list_answer;
mod new_operations;
mod unknown;

pub use answer::answer_at;
pub use early_answer::early_answer_at;
pub use list_answer::{Lookup, answer_to_list};
pub use new_operations::new_operations_at;
pub use unknown::{Holder, has_unknown};
