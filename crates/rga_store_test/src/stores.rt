//! Both stores on worked examples.
use crate::words::{holds, store_one_by_one};
use rga_ops::{Id, Refusal};
use rga_store::{MAX_LIMIT, TextStore, answer_at};
use std::alloc::Global;
use std::process::Abort;
use test_fixtures::{id, insertion, op_of, prints, store_shows};

/// Whether a store that took these operations shows the text, and so many elements wait. Each
/// character of the text has one byte.
fn tells<S: TextStore>(
    alloc: Global,
    words: &str,
    expected: &str,
    waiting: usize,
) -> Result<bool, Refusal> {
    let store = store_one_by_one::<S>(alloc, 100, words)?;
    Ok(
        store_shows(alloc, &store, expected)
            && store.visible_len() == expected.len()
            && store.waiting_count()? == waiting,
    )
}

/// The text follows the root paths.
pub fn check_texts<S: TextStore, R: Abort>(rt: &R, alloc: Global) {
    const ROWS: &[(&str, &str, usize)] = &[
        ("", "", 0), // Nothing.
        ("a1.1<0.0 b2.1<1.1", "ab", 0), // Typing.
        ("a1.1<0.0 x1.2<0.0", "xa", 0), // Concurrent at the root.
        ("x1.2<0.0 a1.1<0.0", "xa", 0), // The other way round.
        ("b2.1<1.1", "", 1), // Waiting for its parent.
        ("b2.1<1.1 a1.1<0.0", "ab", 0), // The parent comes.
        ("-1.1 a1.1<0.0", "", 0), // Deleted early.
        // Behind its parent, past larger ones.
        ("a1.1<0.0 c3.1<1.1 d4.1<3.1 b2.2<1.1", "acdb", 0),
        ("a1.1<0.0 c3.1<1.1 d4.1<3.1 b2.2<1.1 -3.1", "adb", 0), // One of them deleted.
        ("c3.1<2.1 b2.1<1.1", "", 2), // Two wait.
        ("c3.1<2.1 b2.1<1.1 a1.1<0.0", "abc", 0), // Both go on.
        ("a1.1<0.0 b2.1<1.1 c3.1<2.1 x1.2<0.0 y2.2<1.2", "xyabc", 0), // Two replicas.
        ("a1.1<0.0 b2.1<1.1 c3.1<2.1 -2.1 w4.2<2.1", "awc", 0), // Behind a deleted element.
    ];
    for (words, text, waiting) in ROWS {
        assert!(rt;
            tells::<S>(alloc, words, text, *waiting) == Ok(true),
            "{words}"
        );
    }
}

/// Operations that are given to a store that may know three identifiers, in turn, and its answers.
const ANSWERS: &[(&str, &str)] = &[
    ("a0.0<0.0", "Err(BadId)"),
    ("a1.1<1.2", "Err(BadOrder)"),
    ("a1.1<0.0", "Ok(New)"),
    ("a1.1<0.0", "Ok(Known)"),
    ("b1.1<0.0", "Err(Conflict(Id { counter: 1, replica: 1 }))"),
    ("b2.1<1.1", "Ok(New)"),
    ("-3.1", "Ok(New)"),
    ("d4.1<3.1", "Err(Full)"),
    ("-9.9", "Err(Full)"),
    ("c3.1<2.1", "Ok(New)"),
    ("-3.1", "Ok(Known)"),
    ("-2.1", "Ok(New)"),
    ("-2.1", "Ok(Known)"),
];

/// The order of such a store then.
const ORDER: &str = "Ok([Id { counter: 1, replica: 1 }, Id { counter: 2, replica: 1 }, \
    Id { counter: 3, replica: 1 }])";

/// The same where elements that wait fill the store: then it has no room for their parent, and one
/// of them can be deleted.
const WAITING: &[(&str, &str)] = &[
    ("p5.1<4.1", "Ok(New)"),
    ("q6.1<4.1", "Ok(New)"),
    ("r7.1<4.1", "Ok(New)"),
    ("s4.1<0.0", "Err(Full)"),
    ("-4.1", "Err(Full)"),
    ("-5.1", "Ok(New)"),
];

/// Whether the store has this answer to the operation that a word says, and tells it before it takes
/// it.
fn answers<S: TextStore>(
    alloc: Global,
    store: &mut S,
    word: &str,
    answer: &str,
) -> Result<bool, Refusal> {
    let op = op_of(word)?;
    Ok(prints(alloc, &answer_at(store, op), answer) && prints(alloc, &store.apply(op), answer))
}

fn ask<S: TextStore, R: Abort>(rt: &R, alloc: Global, store: &mut S, rows: &[(&str, &str)]) {
    for (word, answer) in rows {
        assert!(rt; answers(alloc, store, word, answer) == Ok(true), "{word}");
    }
}

/// Whether a store that may know three identifiers answers so in turn, and then has this order and
/// this text, and so many elements that wait.
fn answers_each<S: TextStore, R: Abort>(
    rt: &R,
    alloc: Global,
    rows: &[(&str, &str)],
    order: &str,
    text: &str,
    waiting: usize,
) -> Result<bool, Refusal> {
    let mut store = S::new(alloc, 3)?;
    ask(rt, alloc, &mut store, rows);
    Ok(
        prints(alloc, &store.order(), order)
            && store_shows(alloc, &store, text)
            && store.waiting_count()? == waiting,
    )
}

/// Each operation has its answer; elements that wait fill a store, which then shows nothing.
pub fn check_answers<S: TextStore, R: Abort>(rt: &R, alloc: Global) {
    for (rows, order, text, waiting) in [(ANSWERS, ORDER, "a", 0), (WAITING, "Ok([])", "", 3)] {
        let answered = answers_each::<S, R>(rt, alloc, rows, order, text, waiting);
        assert!(rt; answered == Ok(true), "{order}");
    }
}

/// The operations of a small tree, by identifier.
const TREE: &str = "a1.1<0.0 b2.2<1.1 c3.1<1.1 d4.1<3.1 -3.1 -7.2";

/// The same in another order.
const SHUFFLED: &str = "-7.2 a1.1<0.0 c3.1<1.1 -3.1 d4.1<3.1 b2.2<1.1";

/// Whether the store has an element, a deletion and an insertion, and no other one in its place.
fn has_facts<S: TextStore>(store: &S) -> Result<bool, Refusal> {
    Ok(
        store.get(id(1, 1)?) == Some((Id::ROOT, 'a'))
            && store.is_deleted(id(7, 2)?)
            && store.contains(&op_of("c3.1<1.1")?)
            && !store.contains(&op_of("x3.1<1.1")?),
    )
}

/// Whether a store tells the clock of the small tree, how many identifiers it knows, and how many it
/// may; and the facts, the text and the operations.
fn is_small_tree<S: TextStore>(alloc: Global, store: &S) -> bool {
    (store.clock(), store.known(), store.limit()) == (7, 5, 7)
        && has_facts(store) == Ok(true)
        && store_shows(alloc, store, "adb")
        && holds(alloc, store, TREE)
}

/// Whether a store and its copy tell their content, the operations by identifier.
pub fn tells_small_tree<S: TextStore>(alloc: Global) -> Result<bool, Refusal> {
    let store = store_one_by_one::<S>(alloc, 7, SHUFFLED)?;
    Ok(is_small_tree(alloc, &store) && is_small_tree(alloc, &store.copy()?))
}

/// A limit is one to a million.
pub fn check_limits<S: TextStore, R: Abort>(rt: &R, alloc: Global) {
    for (limit, answer) in &[
        (0usize, false),
        (1, true),
        (MAX_LIMIT, true),
        (MAX_LIMIT + 1, false),
    ] {
        assert!(rt; S::new(alloc, *limit).is_ok() == *answer, "{limit}");
    }
}

/// The counter of the `k`-th of 199 siblings.
fn sibling(shape: usize, k: u64) -> u64 {
    match shape {
        0 => k.wrapping_add(1),
        1 => 199u64.wrapping_sub(k),
        _ => k
            .wrapping_mul(77)
            .checked_rem(199)
            .unwrap_or(0)
            .wrapping_add(1),
    }
}

/// Has the store take all of the siblings.
fn apply_siblings<S: TextStore>(store: &mut S, shape: usize) -> Result<(), Refusal> {
    for k in 0..199 {
        let _taken = store.apply(insertion((sibling(shape, k), 1), (0, 0), 'a')?)?;
    }
    Ok(())
}

/// Whether all of the siblings, once a store took them, stand by falling identifier.
fn family_falls<S: TextStore>(alloc: Global, shape: usize) -> Result<bool, Refusal> {
    let mut store = S::new(alloc, 1000)?;
    apply_siblings(&mut store, shape)?;
    let order = store.order()?;
    Ok(order.as_slice().len() == 199 && order.as_slice().is_sorted_by(|a, b| a > b))
}

/// A large family stands by falling identifier, whichever way it came.
pub fn check_siblings<S: TextStore, R: Abort>(rt: &R, alloc: Global) {
    for shape in 0..3 {
        assert!(rt; family_falls::<S>(alloc, shape) == Ok(true), "{shape}");
    }
}
