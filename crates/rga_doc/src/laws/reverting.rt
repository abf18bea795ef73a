//! Theorems about reverts.
ghost use Rattle.std.specs.Prelude.{◌≡◌, ◌+◌, true, ℕ, is_some, List, Some, Ok};
ghost use Rattle.std.specs.List.{list_all, slice_get};
ghost use Rattle.rga_ops.specs.Prelude.{Content, Identifier, clock_of, content_of, join, list_answer, order, place, text};
ghost use Rattle.rga_ops.specs.Identifier.{identifier};
ghost use Rattle.rga_ops.specs.RootPath.{is_complete};
ghost use Rattle.rga_ops.specs.Splice.{Splice};
ghost use Rattle.rga_doc.specs.LocalEdit.{splices_operations, splices_answer};
ghost use Rattle.rga_doc.specs.Revert.{revert_answer, revert_operations, put_back, are_restorable, StandsDirectlyBehind};
ghost use Rattle.rga_doc.specs.UndoGroup.{inserted_elements, deleted_elements, element_characters};

/// The operations of a revert that is allowed are taken whole by a store of the same limit. Each
/// restored element then stands directly behind the one that it restores, whatever stood there:
/// the counters of the restored elements are above every other.
pub fn a_revert_puts_elements_back_in_their_places()
    ensures taken { (limit replica : ℕ) (c : Content)
        (gone : List Identifier) (back : List (Identifier × ℕ)) →
        revert_answer limit c back ≡ Ok tt →
        list_answer limit c (revert_operations replica c gone back) ≡ Ok tt }
    ensures order { (limit replica : ℕ) (c : Content)
        (gone : List Identifier) (back : List (Identifier × ℕ)) →
        revert_answer limit c back ≡ Ok tt →
        let ops = revert_operations replica c gone back in
        order (join c (content_of ops)) ≡ put_back replica (clock_of c) back (order c) }
    ensures place { (limit replica i : ℕ) (c : Content)
        (gone : List Identifier) (back : List (Identifier × ℕ)) (b : Identifier × ℕ) →
        revert_answer limit c back ≡ Ok tt → slice_get back i ≡ Some b →
        let ops = revert_operations replica c gone back in
        StandsDirectlyBehind (order (join c (content_of ops)))
        b.0 (identifier (clock_of c + (i + 1)) replica) }
{}

/// The revert of splices that were allowed, on the content that they left, gives the text from
/// before them. It is never refused for an element that cannot be restored.
pub fn undoing_an_edit_gives_the_text_before()
    ensures restorable { (limit replica : ℕ) (c : Content) (splices : List Splice) →
        splices_answer limit c splices ≡ Ok tt →
        let ops = splices_operations replica c splices in
        are_restorable (join c (content_of ops)) (element_characters c (deleted_elements ops))
        ≡ true }
    ensures text { (limit replica : ℕ) (c : Content) (splices : List Splice) →
        splices_answer limit c splices ≡ Ok tt →
        let ops = splices_operations replica c splices in
        let left = join c (content_of ops) in
        let back = element_characters c (deleted_elements ops) in
        let undo = revert_operations replica left (inserted_elements ops) back in
        text (join left (content_of undo)) ≡ text c }
{}

/// A revert can be reverted: what it inserted is complete on the content that it left, and what it
/// deleted can be restored there.
pub fn a_revert_can_be_reverted()
    ensures inserted { (limit replica : ℕ) (c : Content)
        (gone : List Identifier) (back : List (Identifier × ℕ)) →
        revert_answer limit c back ≡ Ok tt →
        let ops = revert_operations replica c gone back in
        list_all (is_complete (join c (content_of ops))) (inserted_elements ops) ≡ true }
    ensures restorable { (limit replica : ℕ) (c : Content)
        (gone : List Identifier) (back : List (Identifier × ℕ)) →
        revert_answer limit c back ≡ Ok tt →
        let ops = revert_operations replica c gone back in
        are_restorable (join c (content_of ops)) (element_characters c (deleted_elements ops))
        ≡ true }
{}

/// What has a place keeps one, whatever is taken.
pub fn what_has_a_place_keeps_one()
    ensures { (c d : Content) (id : Identifier) →
        is_some (place c id) ≡ true → is_some (place (join c d) id) ≡ true }
{}
