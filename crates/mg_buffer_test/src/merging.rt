//! Merges of documents: two people who edit apart, both ways round, and refusals.
use crate::documents::{AB, Held, document, shows, splice};
use crate::steps::{Row, Step, walk, walk_copy};
use rga_doc::Doc;
use rga_ops::Refusal;
use rga_store::TextStore;
use rga_tree::TreeStore;
use std::alloc::Global;

/// Whether a note that Alice writes is this text, once Bob edited a copy of it apart, and each took
/// the other's changes.
fn two_people_write<S: TextStore>(alloc: Global, alice: &mut Doc<S>, text: &str) -> bool {
    splice(alloc, alice, (0, 0), "oats").is_ok()
        && edit_apart(alloc, alice) == Ok(())
        && shows(alice, text)
}

/// The same of a note that is new.
fn two_people_write_anew<S: TextStore>(alloc: Global, text: &str) -> bool {
    match document::<S>(alloc, (1, 1000, "")) {
        Ok(mut alice) => two_people_write(alloc, &mut alice, text),
        Err(_) => false,
    }
}

fn edit_apart<S: TextStore>(alloc: Global, alice: &mut Doc<S>) -> Result<(), Refusal> {
    let mut bob = Doc::new(alloc, alice.store().copy()?, 2)?;
    edit_both(alice, &mut bob)
}

fn edit_both<S: TextStore>(alice: &mut Doc<S>, bob: &mut Doc<S>) -> Result<(), Refusal> {
    drop(alice.splice(0, 1, &['O'])?);
    drop(bob.splice(4, 4, &['!'])?);
    alice.merge(bob)?;
    bob.merge(alice)
}

#[test]
fn what_two_people_wrote_apart(rt: HostRuntime) {
    assert!(rt; two_people_write_anew::<TreeStore>(rt.alloc(), "Oats!"));
}

/// What two documents hold, of which the second may know three identifiers.
const FIRST: Held = (1, 100, AB);

const SECOND: Held = (2, 3, "x1.2<0.0 -2.1");

#[test]
fn documents_merged_both_ways(rt: HostRuntime) {
    const THERE: &[Row] = &[
        (Step::Merge(SECOND), "Ok(())", "xa"),
        (Step::Numbers, "(1, 3, 100)", "xa"),
    ];
    const BACK: &[Row] = &[
        (Step::Merge(FIRST), "Ok(())", "xa"),
        (Step::Numbers, "(2, 3, 3)", "xa"),
    ];
    walk_copy(&rt, rt.alloc(), FIRST, THERE);
    walk_copy(&rt, rt.alloc(), SECOND, BACK);
}

/// What is answered where the element (1, 1) is another one.
const CONFLICT: &str = "Err(Conflict(Id { counter: 1, replica: 1 }))";

#[test]
fn merge_that_is_refused_changes_nothing(rt: HostRuntime) {
    const STEPS: &[Row] = &[
        (Step::Merge((2, 100, "x1.2<0.0 -2.1")), "Err(Full)", "ab"),
        (Step::Merge((2, 100, "z2.1<0.0 q1.1<0.0")), CONFLICT, "ab"),
    ];
    walk(&rt, rt.alloc(), (1, 2, AB), STEPS);
}
