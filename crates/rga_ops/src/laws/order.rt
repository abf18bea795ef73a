//! The order of a content's elements, and its text.
ghost use Rattle.std.specs.Prelude.{◌≡◌, ◌≢◌, ◌<◌, ◌↔◌, ◌⊎◌, ◌+◌, ℕ, suc, List, true, false, Some, None, Ok, map, length, position, filter};
ghost use Rattle.std.specs.List.{IsDistinct, list_any, slice_get};
ghost use Rattle.std.specs.Ordering.{eq_by_cmp};
ghost use Rattle.std.specs.declared.cmp.Ordering.TheVariants.{Less};
ghost use Rattle.std.specs.FinMap as finite_map;
ghost use Rattle.rga_ops.specs.Identifier.{Identifier, id_cmp, is_id, is_root};
ghost use Rattle.rga_ops.specs.Operation.{checked};
ghost use Rattle.rga_ops.specs.Content.{Element, Content, IsSound, IsWithin, join, single, clock_of};
ghost use Rattle.rga_ops.specs.RootPath.{Path, root_path, is_complete, IsComplete, IsRootPath, IsBefore, path_cmp};
ghost use Rattle.rga_ops.specs.Order.{order, waiting, text, IsOrderList, Precedes};
ghost use Rattle.rga_ops.specs.Places.{is_visible, visible, character, place};
ghost use Rattle.rga_ops.specs.Placement.{put_behind, put_by_skip_rule, without};
ghost use Rattle.rga_ops.specs.declared.op.Op.{Op as Operation};

/// The functions that contracts compute with say what the relations say: which elements are
/// complete, what the root path of an identifier is, and which path is before which.
pub fn functions_say_what_the_relations_say()
    ensures complete { (c : Content) (id : Identifier) →
        (is_complete c id ≡ true) ↔ IsComplete c id }
    ensures path { (c : Content) (id : Identifier) (p : Path) →
        (root_path c id ≡ Some p) ↔ IsRootPath c id p }
    ensures before { (p q : Path) → IsBefore p q ↔ (path_cmp p q ≡ Less) }
{}

/// The path order is a strict total order, and each complete element has a root path of its own.
pub fn path_order_is_strict_and_total()
    ensures irreflexive { (p : Path) → ¬ IsBefore p p }
    ensures transitive { (p q r : Path) → IsBefore p q → IsBefore q r → IsBefore p r }
    ensures total { (p q : Path) → IsBefore p q ⊎ ((p ≡ q) ⊎ IsBefore q p) }
    ensures own_path { (c : Content) (a b : Identifier) (p : Path) →
        IsComplete c a → IsComplete c b → IsRootPath c a p → IsRootPath c b p → a ≡ b }
{}

/// So the complete elements of a content are in a strict total order by their root paths.
pub fn elements_are_in_one_order()
    ensures irreflexive { (c : Content) (a : Identifier) → ¬ Precedes c a a }
    ensures transitive { (c : Content) (a b d : Identifier) →
        Precedes c a b → Precedes c b d → Precedes c a d }
    ensures total { (c : Content) (a b : Identifier) →
        IsComplete c a → IsComplete c b → a ≢ b → Precedes c a b ⊎ Precedes c b a }
{}

/// There is exactly one order list: the list of the complete elements, each before its successor.
/// Each stands in it once.
pub fn there_is_one_order_list()
    ensures is_one { (c : Content) → IsOrderList c (order c) }
    ensures only { (c : Content) (ids : List Identifier) → IsOrderList c ids → ids ≡ order c }
    ensures once { (c : Content) → IsDistinct (eq_by_cmp id_cmp) (order c) }
{}

/// The order is for good: what is complete stays so in every content that holds this one, and keeps
/// its root path, and of any two elements the one that stands before the other stays before it. So
/// the order is that of the larger content, without the elements that are not complete here.
pub fn the_order_is_for_good()
    ensures complete { (c d : Content) (id : Identifier) →
        IsWithin c d → is_complete c id ≡ true → is_complete d id ≡ true }
    ensures path { (c d : Content) (id : Identifier) →
        IsWithin c d → is_complete c id ≡ true → root_path d id ≡ root_path c id }
    ensures order { (c d : Content) →
        IsWithin c d → order c ≡ filter (is_complete c) (order d) }
{}

/// Each inserted element either stands in the order or waits.
pub fn elements_stand_in_the_order_or_wait()
    ensures { (c : Content) → length (order c) + length (waiting c) ≡ finite_map.len c.inserted }
{}

/// The text is of the visible elements, those that are complete and not deleted: it has the
/// character of each, in order. Each stands at one index.
pub fn the_text_is_of_the_visible_elements()
    ensures visible { (c : Content) (id : Identifier) →
        list_any (eq_by_cmp id_cmp id) (visible c) ≡ is_visible c id }
    ensures characters { (c : Content) → map Some (text c) ≡ map (character c) (visible c) }
    ensures length { (c : Content) → length (text c) ≡ length (visible c) }

    ensures once { (c : Content) → IsDistinct (eq_by_cmp id_cmp) (visible c) }
    ensures own_index { (c : Content) (id : Identifier) (i : ℕ) →
        slice_get (visible c) i ≡ Some id → position (λ x. is_id x id) (visible c) ≡ Some i }
{}

/// What is neither the root nor complete has no place. A visible element's place is one more than
/// its index in the text, and so says its index.
pub fn places_in_words()
    ensures none { (c : Content) (id : Identifier) →
        (place c id ≡ None) ↔ ((is_root id ≡ false) × (is_complete c id ≡ false)) }
    ensures of_visible { (c : Content) (id : Identifier) (i : ℕ) →
        position (λ x. is_id x id) (visible c) ≡ Some i → place c id ≡ Some (i + 1) }
    ensures at_index { (c : Content) (id : Identifier) (i : ℕ) →
        is_visible c id ≡ true → place c id ≡ Some (suc i) → slice_get (visible c) i ≡ Some id }
{}

/// A well-formed insertion of a new identifier, which no element waits for, puts it into the order
/// of a sound content right of its parent and past the larger identifiers that stand there; nothing
/// else moves. Where its counter is above all others, it stands directly behind its parent. Where
/// the parent is neither the root nor complete, the new element waits and the order stays.
pub fn an_insertion_goes_to_its_place()
    ensures skip_rule { (c : Content) (id parent : Identifier) (ch : ℕ) →
        let op = Operation.Insert id parent ch in
        IsSound c → checked op ≡ Ok tt → finite_map.get c.inserted id ≡ None →
        ((child : Identifier) (x : Element) →
        finite_map.get c.inserted child ≡ Some x → x.parent ≢ id) →
        order (join c (single op)) ≡ put_by_skip_rule parent id (order c) }
    ensures newest { (c : Content) (id parent : Identifier) (ch : ℕ) → clock_of c < id.counter →
        let op = Operation.Insert id parent ch in
        order (join c (single op)) ≡ put_behind parent id (order c) }
{}

/// A deletion moves nothing: the insertions and the order stay, and of the visible elements the
/// deleted one alone is gone.
pub fn a_deletion_moves_nothing()
    ensures inserted { (c : Content) (id : Identifier) →
        (join c (single (Operation.Delete id))).inserted ≡ c.inserted }
    ensures order { (c : Content) (id : Identifier) →
        order (join c (single (Operation.Delete id))) ≡ order c }
    ensures visible { (c : Content) (id : Identifier) →
        visible (join c (single (Operation.Delete id))) ≡ without id (visible c) }
{}
