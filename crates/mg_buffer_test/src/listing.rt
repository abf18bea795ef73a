//! The listed elements and characters of a document, and what is asked of them.
use crate::anchors::element_at;
use crate::documents::{AB, document};
use crate::local_edits::take_letters;
use rga_doc::Doc;
use rga_ops::{Id, Op, Refusal};
use rga_store::{Taker, TextStore};
use rga_tree::TreeStore;
use std::alloc::Global;

/// Whether the characters that a document lists are the store's own text.
fn lists_its_text<S: TextStore>(alloc: Global, doc: &mut Doc<S>) -> Result<bool, Refusal> {
    doc.list()?;
    let own = doc.store().text(alloc)?;
    Ok(doc.characters() == own.as_slice())
}

/// An insertion of another replica behind the element left of a place, taken twice.
fn insert_remotely<S: TextStore>(doc: &mut Doc<S>, place: usize) -> Result<(), Refusal> {
    let op = Op::Insert {
        id: Id::new(doc.store().clock().saturating_add(1), 2)?,
        parent: element_at(doc, place)?,
        ch: 'r',
    };
    take_twice(doc, &op)
}

fn take_twice<S: TextStore>(doc: &mut Doc<S>, op: &Op) -> Result<(), Refusal> {
    let _new = doc.apply(*op)?;
    let _known = doc.apply(*op)?;
    Ok(())
}

/// A deletion by another replica, which is refused at the front.
fn delete_remotely<S: TextStore>(doc: &mut Doc<S>, place: usize) -> Result<(), Refusal> {
    let id = element_at(doc, place)?;
    let _refused_at_the_front = doc.apply(Op::Delete { id });
    Ok(())
}

/// The elements behind places of the text, each with its character.
fn elements_between<S: TextStore>(
    alloc: Global,
    doc: &Doc<S>,
    (lo, hi): (usize, usize),
) -> Result<Vec<(Id, char)>, Refusal> {
    let mut pairs = Vec::new(alloc);
    for place in lo..hi {
        push_element(doc, &mut pairs, element_at(doc, place.saturating_add(1))?)?;
    }
    Ok(pairs)
}

fn push_element<S: TextStore>(
    doc: &Doc<S>,
    pairs: &mut Vec<(Id, char)>,
    element: Id,
) -> Result<(), Refusal> {
    if let Some((_, ch)) = doc.store().get(element) {
        pairs.push((element, ch))?;
    }
    Ok(())
}

/// What stands between two places deleted. What was deleted.
fn delete<S: TextStore>(
    alloc: Global,
    doc: &mut Doc<S>,
    (lo, hi): (usize, usize),
) -> Result<Vec<(Id, char)>, Refusal> {
    let back = elements_between(alloc, doc, (lo, hi))?;
    drop(doc.splice(lo, hi, &[])?);
    Ok(back)
}

/// What was deleted at a place brought back behind another replica's insertion.
fn restore<S: TextStore>(
    doc: &mut Doc<S>,
    place: usize,
    back: &[(Id, char)],
) -> Result<(), Refusal> {
    insert_remotely(doc, place)?;
    doc.list()?;
    drop(doc.revert(&[], back)?);
    Ok(())
}

/// What was deleted brought back by a draft.
fn restore_by_draft<S: TextStore>(doc: &mut Doc<S>, back: &[(Id, char)]) -> Result<(), Refusal> {
    let ops = doc.draft_revert(&[], back)?;
    let _front = doc.take_revert(&[], back, &ops)?;
    Ok(())
}

/// What stands between two places deleted, and brought back behind another replica's insertion.
fn delete_and_insert<S: TextStore>(
    alloc: Global,
    doc: &mut Doc<S>,
    range: (usize, usize),
) -> Result<(), Refusal> {
    let back = delete(alloc, doc, range)?;
    restore(doc, range.0, &back)
}

/// What stands between two places deleted, and brought back by a draft.
fn delete_and_draft<S: TextStore>(
    alloc: Global,
    doc: &mut Doc<S>,
    range: (usize, usize),
) -> Result<(), Refusal> {
    let back = delete(alloc, doc, range)?;
    restore_by_draft(doc, &back)
}

/// What stands between two places deleted and brought back, in two ways.
fn delete_and_restore<S: TextStore>(
    alloc: Global,
    doc: &mut Doc<S>,
    range: (usize, usize),
) -> Result<(), Refusal> {
    delete_and_insert(alloc, doc, range)?;
    delete_and_draft(alloc, doc, range)
}

/// Two places of a text, which the number chooses.
fn range_of(number: u64, len: usize) -> (usize, usize) {
    let lo = ((number >> 20) as usize & 15).min(len);
    let hi = lo.saturating_add((number >> 30) as usize & 3).min(len);
    (lo, hi)
}

/// An edit that the number chooses.
fn edit<S: TextStore>(alloc: Global, doc: &mut Doc<S>, number: u64) -> Result<(), Refusal> {
    doc.list()?;
    let range = range_of(number, doc.characters().len());
    match number >> 61 {
        0 | 1 => insert_remotely(doc, range.0),
        2 => delete_remotely(doc, range.1),
        3 => take_letters(alloc, doc, [(range.1, 'd'), (range.0, 'c')]),
        4 => delete_and_restore(alloc, doc, range),
        _ => replace(doc, range),
    }
}

fn replace<S: TextStore>(doc: &mut Doc<S>, (lo, hi): (usize, usize)) -> Result<(), Refusal> {
    drop(doc.splice(lo, hi, &['x', 'y'])?);
    Ok(())
}

/// Whether the text is listed right behind an edit that the number chooses.
fn stays_true_by<S: TextStore>(
    alloc: Global,
    doc: &mut Doc<S>,
    number: u64,
) -> Result<bool, Refusal> {
    edit(alloc, doc, number)?;
    lists_its_text(alloc, doc)
}

/// Whether the listed text is the store's own after each of many edits, of this replica and of
/// another in turn.
fn stays_true<S: TextStore>(alloc: Global, doc: &mut Doc<S>, seed: u64) -> Result<bool, Refusal> {
    let mut number = seed;
    for _ in 0..100 {
        number = number
            .wrapping_mul(6364136223846793005)
            .wrapping_add(1442695040888963407);
        if !stays_true_by(alloc, doc, number)? {
            return Ok(false);
        }
    }
    Ok(true)
}

/// The same of a new document.
fn starts_and_stays_true<S: TextStore>(alloc: Global, seed: u64) -> Result<bool, Refusal> {
    let mut doc = document::<S>(alloc, (1, 1000, AB))?;
    stays_true(alloc, &mut doc, seed)
}

#[test]
fn list_stays_the_text_of_the_store(rt: HostRuntime) {
    for seed in 1..4 {
        let stays = starts_and_stays_true::<TreeStore>(rt.alloc(), seed);
        assert!(rt; stays == Ok(true), "{seed}");
    }
}
