//! Reverts, as a user meets them: the operations that they answer, and the text then.
use crate::documents::ABC;
use crate::steps::{Row, Step, walk};
use rga_doc::Doc;
use rga_ops::{Id, Op, Refusal};
use rga_store::TextStore;
use std::alloc::Global;
use test_fixtures::ops_of;

/// The elements that the operations insert.
fn elements_of(alloc: Global, words: &str) -> Result<Vec<Id>, Refusal> {
    let mut ids = Vec::new(alloc);
    for op in &ops_of(alloc, words)? {
        ids.push(op.id())?;
    }
    Ok(ids)
}

/// The elements that the operations insert, with their characters.
fn pairs_of(alloc: Global, words: &str) -> Result<Vec<(Id, char)>, Refusal> {
    let mut pairs = Vec::new(alloc);
    for op in &ops_of(alloc, words)? {
        if let Op::Insert { id, ch, .. } = op {
            pairs.push((*id, *ch))?;
        }
    }
    Ok(pairs)
}

/// What a document answers to the revert of an edit that inserted the elements of the first
/// insertions and deleted those of the second ones, or to a draft of that.
pub fn revert<S: TextStore>(
    alloc: Global,
    doc: &mut Doc<S>,
    (gone, back): (&str, &str),
    is_draft: bool,
) -> Result<Vec<Op>, Refusal> {
    let gone = elements_of(alloc, gone)?;
    let back = pairs_of(alloc, back)?;
    revert_elements(doc, &gone, &back, is_draft)
}

fn revert_elements<S: TextStore>(
    doc: &mut Doc<S>,
    gone: &[Id],
    back: &[(Id, char)],
    is_draft: bool,
) -> Result<Vec<Op>, Refusal> {
    if is_draft {
        doc.draft_revert(gone, back)
    } else {
        doc.revert(gone, back)
    }
}

#[test]
fn deleted_elements_come_back_around_what_others_put_between(rt: HostRuntime) {
    const STEPS: &[Row] = &[
        (Step::Splice((0, 0), "abc"), ABC, "abc"),
        (Step::Splice((0, 3), ""), "-1.1 -2.1 -3.1", ""),
        (Step::Take("x4.2<2.1"), "Ok(())", "x"),
        (Step::Revert("", ABC), "a5.1<1.1 b6.1<2.1 c7.1<3.1", "abxc"),
    ];
    walk(&rt, rt.alloc(), (1, 100, ""), STEPS);
}

/// Elements of which one is named twice, and two are not visible.
const GONE: &str = "c3.1<2.1 a1.1<0.0 b2.1<1.1 c3.1<2.1 z9.2<8.2";

#[test]
fn inserted_elements_go_once_where_they_are_visible(rt: HostRuntime) {
    const STEPS: &[Row] = &[
        (Step::Take("-2.1 z9.2<8.2"), "Ok(())", "ac"),
        (Step::Draft(GONE, "b2.1<1.1"), "-3.1 -1.1 b10.1<2.1", "ac"),
        (Step::Revert(GONE, "b2.1<1.1"), "-3.1 -1.1 b10.1<2.1", "b"),
    ];
    walk(&rt, rt.alloc(), (1, 100, ABC), STEPS);
}

const TOO_MANY: &str = "a1.1<0.0 b2.1<1.1 a1.1<0.0";

const VISIBLE: &str = "a1.1<0.0 a1.1<0.0";

#[test]
fn reverts_that_are_refused(rt: HostRuntime) {
    const STEPS: &[Row] = &[
        (Step::Take("z9.2<8.2"), "Ok(())", "abc"),
        (Step::Draft("", TOO_MANY), "Full", "abc"),
        (Step::Revert("", TOO_MANY), "Full", "abc"),
        (Step::Draft("", VISIBLE), "Range", "abc"),
        (Step::Revert("", VISIBLE), "Range", "abc"),
        (Step::Draft("", "z9.2<8.2"), "Range", "abc"),
        (Step::Revert("", "z9.2<8.2"), "Range", "abc"),
        (Step::Draft("", "y7.2<0.0"), "Range", "abc"),
        (Step::Revert("", "y7.2<0.0"), "Range", "abc"),
    ];
    walk(&rt, rt.alloc(), (1, 6, ABC), STEPS);
}

/// The last insertion that a clock allows.
const LAST: &str = "z9007199254740991.2<0.0";

#[test]
fn used_up_clock_restores_nothing(rt: HostRuntime) {
    const STEPS: &[Row] = &[
        (Step::Draft("", LAST), "Clock", "z"),
        (Step::Revert("", LAST), "Clock", "z"),
        (Step::Revert(LAST, ""), "-9007199254740991.2", ""),
    ];
    walk(&rt, rt.alloc(), (1, 100, LAST), STEPS);
}
