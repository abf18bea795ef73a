//! Records: what is known of each identifier of a text.
//!
//! A `Records` says of each identifier whether it is inserted, with which parent and character,
//! whether it is deleted, and where in a sequence its element may stand. It stands on rga_ops for
//! the operations, on rga_store for what a store's content and limit are and who is told the
//! operations one by one, on rga_sequence for what `Near` is, and on rga_pages, which keeps the
//! records in the order of their identifiers: none that is chosen can make a search slow, and what
//! is listed is in order already. So the text can be read off in one pass: each element that comes
//! is newer than all before it, and stands directly behind its parent. A `Records` takes operations
//! itself (`Taker`), where nobody asks for places meanwhile, as of a log that is read to its end; a
//! store that puts its elements in a sequence has finer calls, and notes each operation as a `Step`
//! of rga_store, for the way back. The layer above may rest on the contracts, which see a `Records`
//! as a content and a limit; where elements may stand serves speed alone and is no part of that
//! value.
#![tactic(auto)]

mod chains;
mod entries;
mod linking;
mod merging;
mod nodes;
mod operations;
mod records_by_id;
mod taker;
mod taking;
mod telling;
mod walking;

pub use records_by_id::Records;
