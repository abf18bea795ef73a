//! Documents: a text of one replica, edited by place.
//!
//! A `Doc` is a store with the number of its own replica. Its text is edited by splices: each makes
//! the operations that a splice stands for, which the document takes itself and the caller passes
//! on to other replicas. An edit can be drafted and taken later, and it is reverted by what it
//! inserted and deleted. A place among others' edits is kept by an `Anchor`. A document may list
//! the characters of its visible elements, so that they are lent, and edits change them in place:
//! `Characters` has room at both ends, so that an edit moves the shorter side of the text.
//!
//! The crate stands on rga_ops, on the traits of rga_store, and on indexmap, which no public
//! signature names; it is generic over any `TextStore`. The layer above may rest on the contracts:
//! the operations answered are those of the definition, the content is joined with them, and the
//! text afterwards is the splice of the text before; by a law, the revert of splices gives the text
//! from before them.
#![tactic(auto)]

mod anchor;
mod characters;
mod doc;
mod draft;
mod edit;
mod excerpt;
mod following;
pub mod laws;
mod listing;
mod rereading;
mod revert;
mod shifting;
mod splicing;
mod taking;

pub use anchor::Anchor;
pub use characters::Characters;
pub use doc::Doc;
