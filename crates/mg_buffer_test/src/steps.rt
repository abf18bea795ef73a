//! Steps of a document, as a user meets them: what each answers, and the text then.
use crate::anchors::{element_at, listed_element, place_of};
use crate::documents::{Held, document, merge, shows, splice};
use crate::local_edits::{put_letters, take_letters};
use crate::reverts::revert;
use rga_doc::Doc;
use rga_ops::{Op, Refusal, Taken};
use rga_store::{Taker, TextStore};
use rga_tree::TreeStore;
use std::alloc::Global;
use std::process::Abort;
use test_fixtures::{are_ops_of, op_of, prints, spells, take};

/// What is done with a document, or asked of it.
#[derive(Clone, Copy)]
pub enum Step {
    /// It takes the operations that the words say, as one list.
    Take(&'static str),
    /// It takes the operation that the word says.
    Apply(&'static str),
    /// It takes what another document holds.
    Merge(Held),
    /// The characters between two places are replaced by the text.
    Splice((usize, usize), &'static str),
    /// A letter is put at each of two places.
    Letters([(usize, char); 2]),
    /// That is drafted, and the draft taken.
    DraftLetters([(usize, char); 2]),
    /// An edit is reverted that inserted the elements of the first insertions, and deleted those of
    /// the second ones.
    Revert(&'static str, &'static str),
    /// That is drafted.
    Draft(&'static str, &'static str),
    /// The element that the anchor of a place is.
    Anchor(usize),
    /// The same by the list.
    ListedAnchor(usize),
    /// The place of the anchor that is the element with this counter and replica.
    Place((u64, u16)),
    /// The characters of the list.
    List,
    /// The replica, how many identifiers are known, and the limit.
    Numbers,
}

/// A step, what it answers, and the text then.
pub type Row = (Step, &'static str, &'static str);

fn apply<S: TextStore>(doc: &mut Doc<S>, word: &str) -> Result<Taken, Refusal> {
    doc.apply(op_of(word)?)
}

fn lists<S: TextStore>(doc: &mut Doc<S>, text: &str) -> bool {
    doc.list() == Ok(()) && spells(doc.characters(), text)
}

fn numbers<S: TextStore>(doc: &Doc<S>) -> (u16, usize, usize) {
    (doc.replica(), doc.store().known(), doc.store().limit())
}

/// Whether the answer is the operations that the words say, or the refusal that they print.
fn says(alloc: Global, answer: Result<Vec<Op>, Refusal>, words: &str) -> bool {
    match answer {
        Ok(ops) => are_ops_of(alloc, &ops, words),
        Err(refusal) => prints(alloc, &refusal, words),
    }
}

/// Whether this is answered to a step: operations, in words, or else what is printed.
fn answers<S: TextStore>(alloc: Global, doc: &mut Doc<S>, step: Step, answer: &str) -> bool {
    match step {
        Step::Take(words) => prints(alloc, &take(alloc, doc, words), answer),
        Step::Apply(word) => prints(alloc, &apply(doc, word), answer),
        Step::Merge(held) => prints(alloc, &merge(alloc, doc, held), answer),
        Step::Splice(range, put) => says(alloc, splice(alloc, doc, range, put), answer),
        Step::Letters(places) => says(alloc, put_letters(alloc, doc, places), answer),
        Step::DraftLetters(places) => prints(alloc, &take_letters(alloc, doc, places), answer),
        Step::Revert(gone, back) => says(alloc, revert(alloc, doc, (gone, back), false), answer),
        Step::Draft(gone, back) => says(alloc, revert(alloc, doc, (gone, back), true), answer),
        _ => tells(alloc, doc, step, answer),
    }
}

/// The same of a step that asks for something.
fn tells<S: TextStore>(alloc: Global, doc: &mut Doc<S>, step: Step, answer: &str) -> bool {
    match step {
        Step::Anchor(place) => prints(alloc, &element_at(doc, place), answer),
        Step::ListedAnchor(place) => prints(alloc, &listed_element(doc, place), answer),
        Step::Place(element) => prints(alloc, &place_of(doc, element), answer),
        Step::List => lists(doc, answer),
        _ => prints(alloc, &numbers(doc), answer),
    }
}

/// Whether a step has its answer, and behind it the text is this.
fn goes<S: TextStore>(alloc: Global, doc: &mut Doc<S>, row: &Row) -> bool {
    answers(alloc, doc, row.0, row.1) && shows(doc, row.2)
}

/// Does the steps; each has its answer, and behind it the text is this.
fn go<S: TextStore>(rt: &impl Abort, alloc: Global, doc: &mut Doc<S>, steps: &[Row]) {
    for row in steps {
        assert!(rt; goes(alloc, doc, row), "{} {}", row.1, row.2);
    }
}

/// Does the steps with a document that holds this.
pub fn walk(rt: &impl Abort, alloc: Global, held: Held, steps: &[Row]) {
    walk_over::<TreeStore, _>(rt, alloc, held, steps);
}

/// Does the steps with the copy of a document that holds this.
pub fn walk_copy(rt: &impl Abort, alloc: Global, held: Held, steps: &[Row]) {
    walk_copy_over::<TreeStore, _>(rt, alloc, held, steps);
}

fn walk_over<S: TextStore, R: Abort>(rt: &R, alloc: Global, held: Held, steps: &[Row]) {
    let mut doc = document::<S>(alloc, held).expect(rt, "a document");
    go(rt, alloc, &mut doc, steps);
}

fn walk_copy_over<S: TextStore, R: Abort>(rt: &R, alloc: Global, held: Held, steps: &[Row]) {
    let mut doc = copied::<S>(alloc, held).expect(rt, "a copy");
    go(rt, alloc, &mut doc, steps);
}

fn copied<S: TextStore>(alloc: Global, held: Held) -> Result<Doc<S>, Refusal> {
    Ok(document::<S>(alloc, held)?.copy()?)
}
