//! What one operation more does to the visible elements and to the text.
ghost use Rattle.std.specs.Prelude.{◌≡◌, ℕ, suc, [], ◌∷◌, length, false, Some, None};
ghost use Rattle.std.specs.List.{slice_get};
ghost use Rattle.std.specs.FinMap as finite_map;
ghost use Rattle.std.specs.FinSet as finite_set;
ghost use Rattle.rga_ops.specs.Identifier.{Identifier};
ghost use Rattle.rga_ops.specs.Content.{Content, join, single};
ghost use Rattle.rga_ops.specs.Order.{text};
ghost use Rattle.rga_ops.specs.Places.{is_visible, visible, place};
ghost use Rattle.rga_ops.specs.Splice.{spliced};
ghost use Rattle.rga_ops.specs.declared.op.Op.{Op as Operation};

/// Where a new insertion of an element that is not deleted makes one element more visible, and the
/// new one has a place, it is put in there, with its character, and nothing else moves. Where as
/// many are visible as before, the text stays: the element waits, or was deleted. (It may be one
/// that others waited for, and so show more than itself.)
pub fn an_insertion_shows_one_element_or_none()
    ensures one { (c : Content) (id parent : Identifier) (ch k : ℕ) →
        let after = join c (single (Operation.Insert id parent ch)) in
        finite_map.get c.inserted id ≡ None → finite_set.contains c.deleted id ≡ false →
        place after id ≡ Some (suc k) → length (visible after) ≡ suc (length (visible c)) →
        visible after ≡ spliced (visible c) k k (id ∷ []) }
    ensures one_character { (c : Content) (id parent : Identifier) (ch k : ℕ) →
        let after = join c (single (Operation.Insert id parent ch)) in
        finite_map.get c.inserted id ≡ None → finite_set.contains c.deleted id ≡ false →
        place after id ≡ Some (suc k) → length (visible after) ≡ suc (length (visible c)) →
        text after ≡ spliced (text c) k k (ch ∷ []) }
    ensures none { (c : Content) (id parent : Identifier) (ch : ℕ) →
        let after = join c (single (Operation.Insert id parent ch)) in
        length (visible after) ≡ length (visible c) → visible after ≡ visible c }
    ensures no_character { (c : Content) (id parent : Identifier) (ch : ℕ) →
        let after = join c (single (Operation.Insert id parent ch)) in
        length (visible after) ≡ length (visible c) → text after ≡ text c }
{}

/// The deletion of a visible element cuts it out where it stands, with its character. That of any
/// other element is not seen.
pub fn a_deletion_cuts_one_element_or_none()
    ensures one { (c : Content) (id : Identifier) (k : ℕ) →
        slice_get (visible c) k ≡ Some id →
        visible (join c (single (Operation.Delete id))) ≡ spliced (visible c) k (suc k) [] }
    ensures one_character { (c : Content) (id : Identifier) (k : ℕ) →
        slice_get (visible c) k ≡ Some id →
        text (join c (single (Operation.Delete id))) ≡ spliced (text c) k (suc k) [] }
    ensures none { (c : Content) (id : Identifier) → is_visible c id ≡ false →
        visible (join c (single (Operation.Delete id))) ≡ visible c }
    ensures no_character { (c : Content) (id : Identifier) → is_visible c id ≡ false →
        text (join c (single (Operation.Delete id))) ≡ text c }
{}
