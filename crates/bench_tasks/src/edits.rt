//! Edits of a document: `edits WORK SIZE TIMES`.
//!
//! A document of SIZE characters is made, and the work is done so many times: `order` asks the
//! store for its order; `type` puts a character in the middle and asks for the anchor behind it and
//! for the text; `remote` does so behind an insertion of another replica; `change` makes a thousand
//! changes in one edit; `revert` deletes all of the text and reverts that. The number is how many
//! elements there are in the end.
use crate::fault::Fault;
use crate::text::{Task, document, task_of};
use rga_doc::Doc;
use rga_ops::{Id, Op, Refusal, Splice};
use rga_store::{Taker, TextStore};
use std::alloc::Global;

/// How many changes an edit of many makes.
const CHANGES: usize = 1000;

/// What is done again and again.
#[derive(Clone, Copy)]
enum Work {
    Order,
    Type,
    Remote,
    Change,
    Revert,
}

/// The names of work.
const WORKS: [(&str, Work); 5] = [
    ("order", Work::Order),
    ("type", Work::Type),
    ("remote", Work::Remote),
    ("change", Work::Change),
    ("revert", Work::Revert),
];

pub fn outcome<S: TextStore>(alloc: Global, words: &[String]) -> Result<usize, Fault> {
    let Some(task) = task_of(words, &WORKS) else {
        return Err(Fault::Words);
    };
    done::<S>(alloc, &task).ok().ok_or(Fault::Refused)
}

/// Makes a document, and does the work with it again and again.
fn done<S: TextStore>(alloc: Global, task: &Task<Work>) -> Result<usize, Refusal> {
    let mut doc = document_of::<S>(alloc, task.size)?;
    do_again(alloc, &mut doc, task)
}

fn do_again<S: TextStore>(
    alloc: Global,
    doc: &mut Doc<S>,
    task: &Task<Work>,
) -> Result<usize, Refusal> {
    doc.list()?;
    for _ in 0..task.times {
        do_once(alloc, doc, task.work)?;
    }
    Ok(doc.store().known())
}

fn do_once<S: TextStore>(alloc: Global, doc: &mut Doc<S>, work: Work) -> Result<(), Refusal> {
    match work {
        Work::Order => {
            let _order = doc.store().order()?;
            Ok(())
        }
        Work::Type => type_letter(doc),
        Work::Remote => {
            insert_remotely(doc)?;
            type_letter(doc)
        }
        Work::Change => change(alloc, doc),
        Work::Revert => revert(alloc, doc),
    }
}

/// A document of so many characters.
fn document_of<S: TextStore>(alloc: Global, size: usize) -> Result<Doc<S>, Refusal> {
    document(alloc, &vec![in alloc; 'a'; size]?)
}

/// Puts a letter in the middle, and asks for the anchor behind it and for the text.
fn type_letter<S: TextStore>(doc: &mut Doc<S>) -> Result<(), Refusal> {
    doc.list()?;
    let middle = doc.characters().len() / 2;
    let _ops = doc.splice(middle, middle, &['b'])?;
    look(doc)
}

/// Asks for the text, and for the anchor of its middle.
fn look<S: TextStore>(doc: &mut Doc<S>) -> Result<(), Refusal> {
    doc.list()?;
    let place = doc.characters().len() / 2;
    let _anchor = doc.anchor_within(place);
    Ok(())
}

/// Takes an insertion of another replica, at the front.
fn insert_remotely<S: TextStore>(doc: &mut Doc<S>) -> Result<(), Refusal> {
    let id = Id::new(doc.store().clock().saturating_add(1), 2)?;
    let _taken = doc.apply(Op::Insert {
        id,
        parent: Id::ROOT,
        ch: 'c',
    })?;
    Ok(())
}

/// Puts another letter in the place of one, at many places in one edit.
fn change<S: TextStore>(alloc: Global, doc: &mut Doc<S>) -> Result<(), Refusal> {
    doc.list()?;
    let splices = changes(alloc, doc.characters().len() / CHANGES)?;
    let _ops = doc.splices(&splices)?;
    Ok(doc.list()?)
}

/// So many changes, each so far from the next.
fn changes(alloc: Global, apart: usize) -> Result<Vec<Splice>, Refusal> {
    let mut splices = Vec::with_capacity(alloc, CHANGES)?;
    for k in (0..CHANGES).rev() {
        splices.push(change_at(alloc, k.saturating_mul(apart))?)?;
    }
    Ok(splices)
}

/// Another letter in the place of the one there.
fn change_at(alloc: Global, lo: usize) -> Result<Splice, Refusal> {
    Ok(Splice {
        lo,
        hi: lo.saturating_add(1),
        put: vec![in alloc; 'c']?,
    })
}

/// Deletes all of the text, and reverts that.
fn revert<S: TextStore>(alloc: Global, doc: &mut Doc<S>) -> Result<(), Refusal> {
    let back = deleted(alloc, doc)?;
    let _ops = doc.revert(&[], &back)?;
    Ok(doc.list()?)
}

/// Deletes all of the text. What was deleted.
fn deleted<S: TextStore>(alloc: Global, doc: &mut Doc<S>) -> Result<Vec<(Id, char)>, Refusal> {
    doc.list()?;
    let size = doc.characters().len();
    pairs(alloc, &doc.splice(0, size, &[])?)
}

/// The identifiers of the operations, each with the character of such a text.
fn pairs(alloc: Global, ops: &[Op]) -> Result<Vec<(Id, char)>, Refusal> {
    let mut pairs = Vec::with_capacity(alloc, ops.len())?;
    for op in ops {
        pairs.push((op.id(), 'a'))?;
    }
    Ok(pairs)
}
