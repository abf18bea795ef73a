//! Stores that are made from words, and compared with words and with one another.
use rga_ops::Refusal;
use rga_store::TextStore;
use std::alloc::Global;
use test_fixtures::{op_of, ops_of, same};

/// A store that took the operations of these words one by one.
pub fn store_one_by_one<S: TextStore>(
    alloc: Global,
    limit: usize,
    words: &str,
) -> Result<S, Refusal> {
    let mut store = S::new(alloc, limit)?;
    apply_each(&mut store, words)?;
    Ok(store)
}

fn apply_each<S: TextStore>(store: &mut S, words: &str) -> Result<(), Refusal> {
    for word in words.split_whitespace() {
        let _taken = store.apply(op_of(word)?)?;
    }
    Ok(())
}

/// Whether these are the operations of the store, in their order.
pub fn holds<S: TextStore>(alloc: Global, store: &S, words: &str) -> bool {
    same(store.ops(), ops_of(alloc, words))
}

/// The place of each element of the order, in turn.
pub fn places<S: TextStore>(alloc: Global, store: &S) -> Result<Vec<Option<usize>>, Refusal> {
    let mut found = Vec::new(alloc);
    for id in &store.order()? {
        found.push(store.place_of(*id))?;
    }
    Ok(found)
}

/// Whether both stores hold the same operations, and have the same order.
pub fn alike<S: TextStore>(a: &S, b: &S) -> bool {
    same(a.ops(), b.ops()) && same(a.order(), b.order())
}
