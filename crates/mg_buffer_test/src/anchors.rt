//! Anchors, at the ends of a text and while others edit.
use crate::documents::{AB, ABC};
use crate::steps::{Row, Step, walk};
use rga_doc::{Anchor, Doc};
use rga_ops::{Id, Refusal};
use rga_store::TextStore;
use test_fixtures::id;

/// The element that the anchor of a place is.
pub fn element_at<S: TextStore>(doc: &Doc<S>, place: usize) -> Result<Id, Refusal> {
    Ok(doc.anchor_at(place)?.element)
}

/// The same by the list of a document; the root where the text is shorter.
pub fn listed_element<S: TextStore>(doc: &mut Doc<S>, place: usize) -> Result<Id, Refusal> {
    doc.list()?;
    if place > doc.characters().len() {
        return Ok(Id::ROOT);
    }
    Ok(doc.anchor_within(place).element)
}

/// The place of the anchor that is the element with this counter and replica.
pub fn place_of<S: TextStore>(
    doc: &Doc<S>,
    (counter, replica): (u64, u16),
) -> Result<usize, Refusal> {
    let element = id(counter, replica)?;
    doc.place(Anchor { element })
}

/// The answer that is the element (2, 1).
const SECOND: &str = "Ok(Id { counter: 2, replica: 1 })";

#[test]
fn anchor_keeps_its_place_under_remote_edits(rt: HostRuntime) {
    const STEPS: &[Row] = &[
        (Step::Anchor(2), SECOND, "abc"),
        (Step::Take("-2.1"), "Ok(())", "ac"),
        (Step::Place((2, 1)), "Ok(1)", "ac"),
        (Step::Take("x4.2<1.1"), "Ok(())", "axc"),
        (Step::Place((2, 1)), "Ok(2)", "axc"),
    ];
    walk(&rt, rt.alloc(), (1, 100, ABC), STEPS);
}

#[test]
fn anchors_at_the_ends(rt: HostRuntime) {
    const STEPS: &[Row] = &[
        (Step::Anchor(0), "Ok(Id { counter: 0, replica: 0 })", "ab"),
        (Step::Anchor(3), "Err(Range)", "ab"),
        (Step::Place((9, 9)), "Err(Range)", "ab"),
    ];
    walk(&rt, rt.alloc(), (1, 100, AB), STEPS);
}

#[test]
fn anchors_by_the_list(rt: HostRuntime) {
    const STEPS: &[Row] = &[
        (Step::ListedAnchor(2), SECOND, "abc"),
        (Step::Place((2, 1)), "Ok(2)", "abc"),
        (Step::Anchor(4), "Err(Range)", "abc"),
    ];
    walk(&rt, rt.alloc(), (1, 100, ABC), STEPS);
}
