//! Merges of small stores: answers, contents and orders.
use crate::words::{alike, store_one_by_one};
use rga_ops::Refusal;
use rga_store::TextStore;
use std::alloc::Global;
use std::process::Abort;
use test_fixtures::prints;

/// Two elements one behind the other.
const HERE: &str = "a1.1<0.0 b2.1<1.1";

/// Another element at the root, and the deletion of the second.
const THERE: &str = "x1.2<0.0 -2.1";

/// What both say.
const BOTH: &str = "a1.1<0.0 b2.1<1.1 x1.2<0.0 -2.1";

/// Whether the store has the answer to a merge with one that took these operations.
fn answers<S: TextStore>(
    alloc: Global,
    store: &mut S,
    other: &str,
    answer: &str,
) -> Result<bool, Refusal> {
    let other = store_one_by_one::<S>(alloc, 10, other)?;
    Ok(prints(alloc, &store.merge(&other), answer))
}

/// Whether the store has the operations and the order of one that took these.
fn is_like<S: TextStore>(alloc: Global, store: &S, words: &str) -> Result<bool, Refusal> {
    Ok(alike(store, &store_one_by_one::<S>(alloc, 10, words)?))
}

/// Whether a merge of two stores has the answer, keeps the limit, and leaves what stands last.
fn merges<S: TextStore>(
    alloc: Global,
    limit: usize,
    own: &str,
    other: &str,
    answer: &str,
    after: &str,
) -> Result<bool, Refusal> {
    let mut store = store_one_by_one::<S>(alloc, limit, own)?;
    Ok(
        answers(alloc, &mut store, other, answer)?
            && store.limit() == limit
            && is_like(alloc, &store, after)?,
    )
}

/// Each merge has its answer, and joins either way round.
pub fn check_merges<S: TextStore, R: Abort>(rt: &R, alloc: Global) {
    const ROWS: &[(usize, &str, &str, &str, &str)] = &[
        (2, HERE, "", "Ok(())", HERE), // Nothing.
        (2, HERE, "-1.1", "Ok(())", "a1.1<0.0 b2.1<1.1 -1.1"), // A known element deleted.
        (2, HERE, THERE, "Err(Full)", HERE), // Too many.
        (3, HERE, THERE, "Ok(())", BOTH), // Just enough.
        (3, THERE, HERE, "Ok(())", BOTH), // The other way round.
        // Two conflicts.
        (
            2,
            HERE,
            "z2.1<0.0 q1.1<0.0",
            "Err(Conflict(Id { counter: 1, replica: 1 }))",
            HERE,
        ),
    ];
    for (limit, own, other, answer, after) in ROWS {
        assert!(rt;
            merges::<S>(alloc, *limit, own, other, answer, after) == Ok(true),
            "{limit} {other}"
        );
    }
}

/// Whether a merge of a store with its own copy changes nothing.
pub fn takes_its_copy<S: TextStore>(alloc: Global) -> Result<bool, Refusal> {
    let mut store = store_one_by_one::<S>(alloc, 2, HERE)?;
    let copy = store.copy()?;
    Ok(store.merge(&copy) == Ok(()) && alike(&store, &copy))
}
