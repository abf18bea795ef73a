//! Records of identifiers in sorted pages: a map in order.
//!
//! Identifiers mostly come rising, each next to the one before: so a full page that is put into at
//! its end stays full and a new one begins, what is above all others comes in there without a
//! search, and what is looked for is tried first from the place that was used last on, and then on
//! both sides of it in its page. A search ends after a binary search for the page and a walk through
//! it, whatever identifiers are chosen. Whoever goes through the pages finds places in them by
//! `find`. The crate stands on rga_ops. The layer above may rest on the contracts, which see `Pages`
//! as the list of their entries, whose identifiers rise; the place that was used last serves speed
//! alone and is no part of that value.
#![tactic(auto)]

mod appending;
mod entry;
mod page;
mod pages;
mod putting;
mod removing;
mod search;
mod spot;

pub use entry::Record;
pub use page::Page;
pub use pages::Pages;
pub use search::find;
pub use spot::Spot;
