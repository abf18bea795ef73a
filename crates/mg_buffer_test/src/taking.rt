//! What a document answers to operations, and to a replica that is none.
use crate::documents::{AB, ABC, Held, document};
use crate::steps::{Row, Step, walk};
use rga_ops::Refusal;
use rga_store::TextStore;
use rga_tree::TreeStore;
use std::alloc::Global;

/// What is answered where the element (2, 1) is another one.
const CONFLICT: &str = "Err(Conflict(Id { counter: 2, replica: 1 }))";

#[test]
fn list_is_taken_whole_or_not_at_all(rt: HostRuntime) {
    const STEPS: &[Row] = &[
        (Step::Take("-2.1 x4.2<1.1"), "Ok(())", "axc"),
        (Step::Take("x4.2<1.1 z2.1<0.0"), CONFLICT, "axc"),
    ];
    walk(&rt, rt.alloc(), (2, 4, ABC), STEPS);
}

#[test]
fn an_operation_is_taken_once(rt: HostRuntime) {
    const STEPS: &[Row] = &[
        (Step::Apply("-2.1"), "Ok(New)", "a"),
        (Step::Apply("-2.1"), "Ok(Known)", "a"),
    ];
    walk(&rt, rt.alloc(), (2, 4, AB), STEPS);
}

/// Whether there is no such document, as a number is out of range.
fn is_refused<S: TextStore>(alloc: Global, held: Held) -> bool {
    matches!(document::<S>(alloc, held), Err(Refusal::BadId))
}

#[test]
fn replica_zero_is_none(rt: HostRuntime) {
    assert!(rt; is_refused::<TreeStore>(rt.alloc(), (0, 1, "")));
}
