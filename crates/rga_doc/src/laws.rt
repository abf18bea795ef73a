//! Theorems about local edits and reverts.
//!
//! Each function does nothing: its contract is a theorem that the check proves.
ghost use Rattle.std.specs.Prelude.{◌≡◌, true, ℕ, List, Ok};
ghost use Rattle.std.specs.FinMap as finite_map;
ghost use Rattle.rga_ops.specs.Prelude.{Content, Identifier, clock_of, content_of, join, list_answer, order, text, visible};
ghost use Rattle.rga_ops.specs.Splice.{Splice, spliced, text_after};
ghost use Rattle.rga_ops.specs.declared.op.Op.TheVariants.{Delete};
ghost use Rattle.rga_doc.specs.Document.{Document};
ghost use Rattle.rga_doc.specs.LocalEdit.{splice_operations, splices_operations, splice_answer, splices_answer, order_after, elements_after};

mod reverting;

use crate::doc::Doc;
pub use reverting::{
    a_revert_can_be_reverted, a_revert_puts_elements_back_in_their_places,
    undoing_an_edit_gives_the_text_before, what_has_a_place_keeps_one,
};
use rga_store::{Taker, TextStore};

/// The operations of a splice that is allowed are taken whole by a store of the same limit. They
/// make the text the splice of the old text, and the new elements stand in a row directly behind
/// their left neighbour, whatever stood there: their counters are above every other.
pub fn a_splice_changes_the_text_at_its_place()
    ensures taken { (limit replica lo hi : ℕ) (c : Content) (put : List ℕ) →
        splice_answer limit c lo hi put ≡ Ok tt →
        list_answer limit c (splice_operations replica c lo hi put) ≡ Ok tt }
    ensures text { (limit replica lo hi : ℕ) (c : Content) (put : List ℕ) →
        splice_answer limit c lo hi put ≡ Ok tt →
        let ops = splice_operations replica c lo hi put in
        text (join c (content_of ops)) ≡ spliced (text c) lo hi put }
    ensures order { (limit replica lo hi : ℕ) (c : Content) (put : List ℕ) →
        splice_answer limit c lo hi put ≡ Ok tt →
        let ops = splice_operations replica c lo hi put in
        order (join c (content_of ops)) ≡ order_after replica c lo put }
{}

/// The same for several splices in turn, and the visible elements: the new ones stand where their
/// characters do.
pub fn splices_change_the_text_in_turn()
    ensures taken { (limit replica : ℕ) (c : Content) (splices : List Splice) →
        splices_answer limit c splices ≡ Ok tt →
        list_answer limit c (splices_operations replica c splices) ≡ Ok tt }
    ensures text { (limit replica : ℕ) (c : Content) (splices : List Splice) →
        splices_answer limit c splices ≡ Ok tt →
        let ops = splices_operations replica c splices in
        text (join c (content_of ops)) ≡ text_after (text c) splices }
    ensures elements { (limit replica : ℕ) (c : Content) (splices : List Splice) →
        splices_answer limit c splices ≡ Ok tt →
        let ops = splices_operations replica c splices in
        visible (join c (content_of ops))
        ≡ elements_after replica (clock_of c) (visible c) splices }
{}

/// The deletion of an inserted element takes no memory at a document over any store either.
pub fn deletions_of_elements_take_no_memory<S: TextStore>()
    ensures { (d : Document) (id : Identifier) →
        finite_map.contains_key d.content.inserted id ≡ true →
        ¬ (⟦<Doc<S> as Taker>⟧.may_grow d (Delete id)) }
{}
