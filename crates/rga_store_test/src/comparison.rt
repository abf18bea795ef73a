//! Each store answers and shows as the plain list does.
use crate::list_store::{ListStore, Shown};
use crate::random::random_op;
use crate::words::places;
use rga_ops::{Op, Refusal};
use rga_store::TextStore;
use std::alloc::Global;
use std::process::Abort;
use test_fixtures::{Random, chain, is};

/// Whether both answer the operation alike.
fn answer_alike<S: TextStore>(store: &mut S, list: &mut ListStore, op: Op) -> bool {
    store.apply(op) == list.apply(op)
        && store.known() == list.known()
        && store.is_deleted(op.id()) == list.is_deleted(op.id())
}

/// Whether the store shows what the plain list does.
fn show_alike<S: TextStore>(alloc: Global, store: &S, list: &ListStore) -> Result<bool, Refusal> {
    Ok(shows(alloc, store, &list.shown()?))
}

/// Whether the store shows this.
fn shows<S: TextStore>(alloc: Global, store: &S, shown: &Shown) -> bool {
    is(store.order(), &shown.order)
        && is(store.text(alloc), &shown.text)
        && lists(alloc, store, shown) == Ok(true)
        && store.visible_len() == shown.visible.len()
        && is(
            store.elements(alloc, 0, shown.visible.len()),
            &shown.visible,
        )
        && is(places(alloc, store), &shown.places)
}

/// Whether the store lists these visible elements, and their text.
fn lists<S: TextStore>(alloc: Global, store: &S, shown: &Shown) -> Result<bool, Refusal> {
    let (ids, chars) = store.visible(alloc)?;
    Ok(ids.as_slice() == shown.visible.as_slice() && chars.as_slice() == shown.text.as_slice())
}

/// Whether both take 80 operations alike, and show the same behind each.
fn take_each_alike<S: TextStore>(
    alloc: Global,
    store: &mut S,
    list: &mut ListStore,
    random: &mut Random,
) -> Result<bool, Refusal> {
    for _ in 0..80 {
        let op = random_op(random)?;
        if !answer_alike(store, list, op) || !show_alike(alloc, store, list)? {
            return Ok(false);
        }
    }
    Ok(true)
}

/// Whether both with this limit take the operations of this seed alike.
fn are_alike<S: TextStore>(alloc: Global, limit: usize, seed: u64) -> Result<bool, Refusal> {
    let mut store = S::new(alloc, limit)?;
    let mut list = ListStore::new(alloc, limit);
    take_each_alike(alloc, &mut store, &mut list, &mut Random::new(seed))
}

/// The store answers as the plain list does.
pub fn check_beside_a_list<S: TextStore, R: Abort>(rt: &R, alloc: Global) {
    for limit in &[3usize, 8, 20, 100] {
        check_seeds::<S, R>(rt, alloc, *limit);
    }
}

/// The same with one limit, for each of some seeds.
fn check_seeds<S: TextStore, R: Abort>(rt: &R, alloc: Global, limit: usize) {
    for seed in 0..5 {
        let alike = are_alike::<S>(alloc, limit, seed);
        assert!(rt; alike == Ok(true), "{limit} {seed}");
    }
}

/// Whether the plain list takes the operations, or knows them.
fn takes_each(list: &mut ListStore, ops: &[Op]) -> bool {
    for op in ops {
        if list.apply(*op).is_err() {
            return false;
        }
    }
    true
}

/// Whether both take the operations, the store as one list.
fn take_list_alike<S: TextStore>(store: &mut S, list: &mut ListStore, ops: &[Op]) -> bool {
    store.apply_all(ops).is_ok() && takes_each(list, ops)
}

/// The store takes chains as the plain list takes their insertions. A block has at most 256 entries.
pub fn check_chains<S: TextStore, R: Abort>(rt: &R, alloc: Global) {
    const ROWS: &[(&str, (u64, u16), (u64, u16), u64)] = &[
        ("longer than a block", (1, 1), (0, 0), 270),
        ("in the middle of a full block", (400, 2), (20, 1), 70),
        ("before that", (401, 3), (20, 1), 3),
        ("behind the larger ones", (21, 3), (20, 1), 5),
        ("behind a full block", (600, 1), (256, 1), 10),
        ("known, and at the end", (260, 1), (259, 1), 20),
        ("early", (700, 1), (650, 1), 2),
        ("waited for in the middle", (645, 1), (20, 1), 10),
        ("known", (1, 1), (0, 0), 270),
    ];
    let mut store = S::new(alloc, 1000).expect(rt, "a store");
    let mut list = ListStore::new(alloc, 1000);
    for (name, first, parent, count) in ROWS {
        let ops = chain(alloc, *first, *parent, *count, 'a').expect(rt, "a chain");
        assert!(rt; take_list_alike(&mut store, &mut list, &ops), "{name}");
    }
    assert!(rt; show_alike(alloc, &store, &list) == Ok(true));
}
