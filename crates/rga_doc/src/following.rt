//! What is listed, changed as one operation of another replica has changed the store.
ghost use Rattle.std.specs.Prelude.{◌≡◌, ℕ, true, Option, IfSome};
ghost use Rattle.rga_ops.specs.Prelude.{Identifier, text, visible};
ghost use Rattle.rga_doc.specs.Relisting.{DeletesAt, IsTextBefore};

use crate::listing::Listing;
use rga_ops::{Id, Op};
use rga_store::{TextStore, position_of};

/// After so many in a row what is listed is given up: to list all once costs less than to follow a
/// long exchange.
const MOST_IN_A_ROW: usize = 64;

impl Listing {
    /// The index of the visible element that an operation deletes, where it is of use: it is asked
    /// before the store takes the operation.
    pub(crate) fn index_deleted<S: TextStore>(&self, store: &S, op: &Op) -> Option<usize>
        ensures { IfSome result (λ k. DeletesAt (visible (S.content store.now)) op.now k) }
    {
        if !self.listed || self.followed >= MOST_IN_A_ROW {
            return None;
        }
        match op {
            Op::Delete { id } => position_of(store, *id),
            Op::Insert { .. } => None,
        }
    }

    /// Makes a new operation in what is listed that the store has taken, or gives up what is
    /// listed. The index is what `index_deleted` answered.
    pub(crate) fn follow_one<S: TextStore>(&mut self, store: &S, op: &Op, index: Option<usize>)
        requires { self.old.listed ≡ true →
            IsTextBefore (S.content store.now) op.now index self.old.characters.items }
        ensures { self.new.listed ≡ true →
            self.new.characters.items ≡ text (S.content store.now) }
    {
        if !self.listed {
            return;
        }
        if self.followed >= MOST_IN_A_ROW {
            self.listed = false;
            return;
        }
        self.followed += 1;
        self.listed = match op {
            Op::Delete { .. } => self.follow_deletion(store, index),
            Op::Insert { id, ch, .. } => self.follow_insertion(store, *id, *ch),
        };
        self.characters.give_back();
    }

    /// Takes out the character of a deleted element that stood at the index. Where it was not
    /// visible, all stays if nothing less is visible.
    fn follow_deletion<S: TextStore>(&mut self, store: &S, index: Option<usize>) -> bool
        requires { (id : Identifier) × IsTextBefore (S.content store.now) (Op.Delete id) index
            self.old.characters.items }
        ensures { result ≡ true → self.new.characters.items ≡ text (S.content store.now) }
    {
        let count = self.characters.len();
        if let Some(index) = index {
            self.characters.replace(index, index + 1, &[]);
            return true;
        }
        store.visible_len() == count
    }

    /// Puts in the character of a new element where it alone is visible beside those that are
    /// listed. Where nothing more is visible all stays: it is deleted, or waits for its parent. It
    /// may also have let others go on that waited; then nothing is done, nor where there is no room.
    fn follow_insertion<S: TextStore>(&mut self, store: &S, id: Id, ch: char) -> bool
        requires { (parent : Identifier) × (k : Option ℕ) × IsTextBefore (S.content store.now)
            (Op.Insert id parent ch) k self.old.characters.items }
        ensures { result ≡ true → self.new.characters.items ≡ text (S.content store.now) }
    {
        let count = store.visible_len();
        if count == self.characters.len() {
            return true;
        }
        if count == 0 || count - 1 != self.characters.len() {
            return false;
        }
        match position_of(store, id) {
            Some(index) => self.replace(index, index, &[ch]),
            None => false,
        }
    }
}
