//! Lists of operations, and those of them that are new to a store.
use crate::words::store_one_by_one;
use rga_ops::Refusal;
use rga_store::{TextStore, new_operations_at};
use rga_tree::TreeStore;
use std::alloc::Global;
use test_fixtures::{are_ops_of, ops_of};

/// Whether these operations of the list are new to a store that took the operations before.
fn has_new<S: TextStore>(
    alloc: Global,
    before: &str,
    list: &str,
    new: &str,
) -> Result<bool, Refusal> {
    let store = store_one_by_one::<S>(alloc, 9, before)?;
    let found = new_operations_at(alloc, &store, &ops_of(alloc, list)?)?;
    Ok(are_ops_of(alloc, &found, new))
}

#[test]
fn what_is_held_and_repeats_are_not_new(rt: HostRuntime) {
    const ROWS: &[(&str, &str, &str)] = &[
        ("a1.1<0.0", "", ""), // Nothing.
        ("", "-1.1 a1.1<0.0", "-1.1 a1.1<0.0"), // All.
        ("a1.1<0.0 -1.1", "-1.1 b2.1<1.1 a1.1<0.0", "b2.1<1.1"), // Known ones.
        ("", "b2.1<1.1 -2.1 b2.1<1.1 -2.1", "b2.1<1.1 -2.1"), // Repeats.
        ("a1.1<0.0", "b1.1<0.0", "b1.1<0.0"), // A conflict.
    ];
    for (before, list, new) in ROWS {
        let found = has_new::<TreeStore>(rt.alloc(), before, list, new);
        assert!(rt; found == Ok(true), "{list}");
    }
}
