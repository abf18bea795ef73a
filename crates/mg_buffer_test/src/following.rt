//! Operations of another replica, taken one by one by a listed document.
use crate::documents::{ABC, document, shows, splice};
use rga_doc::Doc;
use rga_ops::{Op, Refusal};
use rga_store::{Taker, TextStore};
use rga_tree::TreeStore;
use std::alloc::Global;
use test_fixtures::{insertion, ops_of, store_shows};

/// What another replica sends, the text then, a place in it, and the text with a `z` there.
type Row = (&'static str, &'static str, usize, &'static str);

const FOLLOWED: &[Row] = &[
    ("x4.2<1.1 y5.2<4.2 w6.2<0.0", "waxybc", 3, "waxzybc"),
    ("x4.2<3.1 -2.1 y5.2<2.1", "aycx", 2, "ayzcx"),
    ("-1.1 -3.1 -2.1", "", 0, "z"),
    // The first waits for the second.
    ("y5.2<4.2 x4.2<1.1 w6.2<4.2", "axwybc", 2, "axzwybc"),
    ("y5.2<4.2 -5.2 x4.2<1.1", "axbc", 2, "axzbc"),
    // It is deleted before it comes.
    ("-4.2 x4.2<1.1 y5.2<4.2", "aybc", 2, "ayzbc"),
    ("-2.1 -2.1 x4.2<1.1 x4.2<1.1", "axc", 1, "azxc"),
];

/// Has a document that is listed take the operations one by one.
fn take_each<S: TextStore>(doc: &mut Doc<S>, ops: &[Op]) -> Result<(), Refusal> {
    doc.list()?;
    for op in ops {
        let _taken = doc.apply(*op)?;
    }
    Ok(())
}

/// Whether a document shows this once it took what is sent, and that once a `z` was put in, as its
/// store does.
fn follows<S: TextStore>(alloc: Global, doc: &mut Doc<S>, row: &Row) -> Result<bool, Refusal> {
    take_each(doc, &ops_of(alloc, row.0)?)?;
    let shown = shows(doc, row.1);
    drop(splice(alloc, doc, (row.2, row.2), "z")?);
    Ok(shown && both_show(alloc, doc, row.3))
}

/// Whether a document and its store show the text.
fn both_show<S: TextStore>(alloc: Global, doc: &Doc<S>, text: &str) -> bool {
    shows(doc, text) && store_shows(alloc, doc.store(), text)
}

/// The same of a document of three elements.
fn is_followed<S: TextStore>(alloc: Global, row: &Row) -> bool {
    match document::<S>(alloc, (1, 100, ABC)) {
        Ok(mut doc) => follows(alloc, &mut doc, row) == Ok(true),
        Err(_) => false,
    }
}

#[test]
fn listed_document_follows_operations(rt: HostRuntime) {
    for row in FOLLOWED {
        assert!(rt; is_followed::<TreeStore>(rt.alloc(), row), "{}", row.0);
    }
}

/// Has a document that is listed take insertions in a row, up to this counter.
fn take_many<S: TextStore>(doc: &mut Doc<S>, count: u64) -> Result<(), Refusal> {
    doc.list()?;
    for counter in 4..count {
        let _taken = doc.apply(insertion((counter, 2), (2, 1), 'r')?)?;
    }
    Ok(())
}

/// Whether the text is the store's where so many insertions come in a row.
fn follows_many<S: TextStore>(
    alloc: Global,
    doc: &mut Doc<S>,
    count: u64,
) -> Result<bool, Refusal> {
    take_many(doc, count)?;
    Ok(doc.text()? == doc.store().text(alloc)?)
}

/// The same of a document of three elements.
fn are_followed<S: TextStore>(alloc: Global, count: u64) -> bool {
    match document::<S>(alloc, (1, 1000, ABC)) {
        Ok(mut doc) => follows_many(alloc, &mut doc, count) == Ok(true),
        Err(_) => false,
    }
}

#[test]
fn long_exchange_is_listed_anew(rt: HostRuntime) {
    for count in 66..71 {
        assert!(rt; are_followed::<TreeStore>(rt.alloc(), count), "{count}");
    }
}
