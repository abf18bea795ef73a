//! Elements by index and by place: two people write at once, and then one element is deleted.
use crate::words::store_one_by_one;
use rga_ops::Refusal;
use rga_store::{TextStore, position_of};
use std::alloc::Global;
use std::process::Abort;
use test_fixtures::{id, prints};

/// What both wrote, and the same with the deletion of the `c`.
const WRITTEN: &str = "a1.1<0.0 c3.1<1.1 d4.1<3.1 b2.2<1.1";

const LEFT: &str = "a1.1<0.0 c3.1<1.1 d4.1<3.1 b2.2<1.1 -3.1";

/// The elements of the `a`, the `d` and the `b`, which are left, in this order.
const ELEMENTS: &str = "Ok([Id { counter: 1, replica: 1 }, Id { counter: 4, replica: 1 }, \
    Id { counter: 2, replica: 2 }])";

/// Whether a store has these elements, and by index too.
pub fn has_elements<S: TextStore>(alloc: Global) -> Result<bool, Refusal> {
    let store = store_one_by_one::<S>(alloc, 100, LEFT)?;
    Ok(
        prints(alloc, &store.elements(alloc, 0, 9), ELEMENTS)
            && store.element_at(2) == Some(id(2, 2)?)
            && store.element_at(3).is_none()
            && store.elements(alloc, 1, 9)?.len() == 2,
    )
}

/// Whether the element has this place, and this index where it is visible.
fn stands_at<S: TextStore>(
    alloc: Global,
    words: &str,
    (counter, replica): (u64, u16),
    answers: &str,
) -> Result<bool, Refusal> {
    let store = store_one_by_one::<S>(alloc, 100, words)?;
    let id = id(counter, replica)?;
    let answered = (store.place_of(id), position_of(&store, id));
    Ok(prints(alloc, &answered, answers))
}

/// Each element has its place, and its index where it is visible.
pub fn check_places<S: TextStore, R: Abort>(rt: &R, alloc: Global) {
    for (words, element, answers) in &[
        (WRITTEN, (4, 1), "(Some(3), Some(2))"),
        (WRITTEN, (2, 2), "(Some(4), Some(3))"),
        (LEFT, (0, 0), "(Some(0), None)"),
        (LEFT, (1, 1), "(Some(1), Some(0))"),
        (LEFT, (3, 1), "(Some(1), None)"),
        (LEFT, (4, 1), "(Some(2), Some(1))"),
        (LEFT, (9, 9), "(None, None)"),
        ("a1.1<0.0 w9.1<8.1", (9, 1), "(None, None)"),
    ] {
        assert!(rt;
            stands_at::<S>(alloc, words, *element, answers) == Ok(true),
            "{words} {element:?}"
        );
    }
}
