//! Lists of operations that a store takes whole or not at all.
use crate::words::{holds, store_one_by_one};
use rga_ops::Refusal;
use rga_store::TextStore;
use std::alloc::Global;
use std::process::Abort;
use test_fixtures::{ops_of, prints};

/// An insertion.
const A: &str = "a1.1<0.0";

/// The same, and one behind it.
const AB: &str = "a1.1<0.0 b2.1<1.1";

/// The answer to another insertion of (1, 1).
const CONFLICT: &str = "Err(Conflict(Id { counter: 1, replica: 1 }))";

/// Whether a store that took the operations before has the answer to the list, and then holds those
/// after.
fn takes<S: TextStore>(
    alloc: Global,
    limit: usize,
    before: &str,
    list: &str,
    answer: &str,
    after: &str,
) -> Result<bool, Refusal> {
    let mut store = store_one_by_one::<S>(alloc, limit, before)?;
    let answered = store.apply_all(&ops_of(alloc, list)?);
    Ok(prints(alloc, &answered, answer) && holds(alloc, &store, after))
}

/// Limits, the operations before, the list, the answer to it, and the operations after.
const ROWS: &[(usize, &str, &str, &str, &str)] = &[
    (1, "", "", "Ok(())", ""), // Nothing.
    (1, "", "-1.1 a1.1<0.0", "Ok(())", "a1.1<0.0 -1.1"), // One identifier, twice.
    (2, "", "a1.1<0.0 b2.1<1.1 a1.1<0.0 b2.1<1.1", "Ok(())", AB), // Repeats.
    // Known ones.
    (
        2,
        "a1.1<0.0 -1.1",
        "a1.1<0.0 b2.1<1.1 -1.1",
        "Ok(())",
        "a1.1<0.0 b2.1<1.1 -1.1",
    ),
    (2, "", "b2.1<1.1 a1.1<0.0", "Ok(())", AB), // A child first.
    (1, "", AB, "Err(Full)", ""), // Too many.
    (1, A, "-2.1", "Err(Full)", A), // A deletion too many.
    (1, "", "a1.1<0.0 b2.1<1.1 b1.1<0.0", CONFLICT, ""), // Two insertions.
    (9, A, "b2.1<1.1 b1.1<0.0", CONFLICT, A), // One of the store.
    (9, A, "b2.1<1.1 c3.1<2.1 b1.1<0.0", CONFLICT, A), // Behind a chain.
    (2, "", "a1.1<0.0 b2.1<1.1 c3.1<2.1", "Err(Full)", ""), // In a chain.
    (
        9,
        "",
        "a1.1<0.0 b2.1<1.1 c1.2<2.1 d2.2<1.2",
        "Err(BadOrder)",
        "",
    ), // Chains.
    (
        9,
        "b2.1<1.1 -3.1",
        "a1.1<0.0 b2.1<1.1 c3.1<2.1",
        "Ok(())",
        "a1.1<0.0 b2.1<1.1 c3.1<2.1 -3.1",
    ),
    (9, A, "b1.1<0.0 c3.1<3.1", "Err(BadOrder)", A), // Ill-formed.
    (9, "", "-0.0 c3.1<3.1", "Err(BadId)", ""), // The root.
];

/// A list is taken whole, or it is refused and changes nothing.
pub fn check_lists<S: TextStore, R: Abort>(rt: &R, alloc: Global) {
    for (limit, before, list, answer, after) in ROWS {
        assert!(rt;
            takes::<S>(alloc, *limit, before, list, answer, after) == Ok(true),
            "{limit} {list}"
        );
    }
}
