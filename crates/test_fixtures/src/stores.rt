//! Stores that are made from words, and what they show.
use crate::operations::{ops_of, spells};
use rga_ops::Refusal;
use rga_store::{Taker, TextStore};
use std::alloc::Global;

/// What is answered to the operations that the words say, given as one list.
pub fn take<T: Taker>(alloc: Global, taker: &mut T, words: &str) -> Result<(), Refusal> {
    taker.apply_all(&ops_of(alloc, words)?)
}

/// A store of this limit that took the operations of the words, as one list.
pub fn store_of<S: TextStore>(alloc: Global, limit: usize, words: &str) -> Result<S, Refusal> {
    let mut store = S::new(alloc, limit)?;
    take(alloc, &mut store, words)?;
    Ok(store)
}

/// Whether the text of the store is this one.
pub fn store_shows<S: TextStore>(alloc: Global, store: &S, text: &str) -> bool {
    match store.text(alloc) {
        Ok(chars) => spells(&chars, text),
        Err(_) => false,
    }
}
