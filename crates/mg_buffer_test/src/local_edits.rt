//! Splices by place, as a user meets them: the operations that they answer, and the text then.
use crate::documents::{AB, ABC};
use crate::steps::{Row, Step, walk};
use rga_doc::Doc;
use rga_ops::{Op, Refusal, Splice};
use rga_store::TextStore;
use std::alloc::Global;

#[test]
fn used_up_clock_allows_deletions_alone(rt: HostRuntime) {
    const STEPS: &[Row] = &[
        (Step::Splice((1, 1), "q"), "Clock", "z"),
        (Step::Splice((0, 1), ""), "-9007199254740991.2", ""),
    ];
    walk(&rt, rt.alloc(), (1, 100, "z9007199254740991.2<0.0"), STEPS);
}

#[test]
fn clock_goes_on_from_a_deletion(rt: HostRuntime) {
    const STEPS: &[Row] = &[(Step::Splice((0, 0), "q"), "q8.1<0.0", "q")];
    walk(&rt, rt.alloc(), (1, 100, "-7.1"), STEPS);
}

/// One letter at each of the places.
fn letters(alloc: Global, places: [(usize, char); 2]) -> Result<Vec<Splice>, Refusal> {
    let mut splices = Vec::new(alloc);
    for (place, letter) in places {
        let mut put = Vec::new(alloc);
        put.push(letter)?;
        splices.push(Splice {
            lo: place,
            hi: place,
            put,
        })?;
    }
    Ok(splices)
}

/// What a document answers to one letter at each of the places.
pub fn put_letters<S: TextStore>(
    alloc: Global,
    doc: &mut Doc<S>,
    places: [(usize, char); 2],
) -> Result<Vec<Op>, Refusal> {
    let splices = letters(alloc, places)?;
    doc.splices(&splices)
}

/// The same of a draft that is then taken.
pub fn take_letters<S: TextStore>(
    alloc: Global,
    doc: &mut Doc<S>,
    places: [(usize, char); 2],
) -> Result<(), Refusal> {
    let splices = letters(alloc, places)?;
    let ops = doc.draft(&splices)?;
    Ok(doc.take(&splices, &ops)?)
}

#[test]
fn splices_of_falling_places_and_of_rising_ones(rt: HostRuntime) {
    const STEPS: &[Row] = &[
        (Step::Letters([(1, 'c'), (2, 'd')]), "Range", "ab"),
        (
            Step::Letters([(2, 'd'), (1, 'c')]),
            "d3.1<2.1 c4.1<1.1",
            "acbd",
        ),
    ];
    walk(&rt, rt.alloc(), (1, 100, AB), STEPS);
}

#[test]
fn splices_that_are_refused(rt: HostRuntime) {
    const STEPS: &[Row] = &[
        (Step::Splice((2, 1), ""), "Range", "abc"),
        (Step::Splice((2, 4), ""), "Range", "abc"),
        (Step::Splice((9, 9), "xyz"), "Full", "abc"),
    ];
    walk(&rt, rt.alloc(), (2, 5, ABC), STEPS);
}

#[test]
fn splice_replaces_what_stands_between(rt: HostRuntime) {
    const STEPS: &[Row] = &[
        (Step::Splice((1, 2), "xy"), "-2.1 x4.2<1.1 y5.2<4.2", "axyc"),
        (Step::Numbers, "(2, 5, 5)", "axyc"),
    ];
    walk(&rt, rt.alloc(), (2, 5, ABC), STEPS);
}

#[test]
fn draft_is_taken(rt: HostRuntime) {
    const LETTERS: [(usize, char); 2] = [(2, 'd'), (1, 'c')];
    const STEPS: &[Row] = &[
        (Step::DraftLetters(LETTERS), "Ok(())", "acbd"),
        (Step::List, "acbd", "acbd"),
        (Step::DraftLetters(LETTERS), "Err(Full)", "acbd"),
    ];
    walk(&rt, rt.alloc(), (1, 4, AB), STEPS);
}
