//! Contents: their join, their clock, and the lists of operations that have them.
ghost use Rattle.std.specs.Prelude.{◌≡◌, ◌≤◌, ◌↔◌, ◌++◌, ◌+◌, ℕ, List, true, Some, Ok, Contains};
ghost use Rattle.std.specs.FinMap as finite_map;
ghost use Rattle.std.specs.FinSet as finite_set;
ghost use Rattle.rga_ops.specs.Identifier.{Identifier};
ghost use Rattle.rga_ops.specs.Content.{Element, Content, nothing, known_count, Holds, IsSound, Agree, IsWithin, join, content_of, IsAgreed, HasSameOperations, HasCountersWithin, clock_of};
ghost use Rattle.rga_ops.specs.Order.{order, text};
ghost use Rattle.rga_ops.specs.Operations.{operations};
ghost use Rattle.rga_ops.specs.Answer.{taken_one_by_one};
ghost use Rattle.rga_ops.specs.declared.op.Op.{Op as Operation};

/// Within is a partial order of contents, and the join of contents that agree is their least
/// upper bound in it: associative, idempotent and commutative.
pub fn join_is_the_least_upper_bound()
    ensures within_itself { (c : Content) → IsWithin c c }
    ensures within_chain { (c d e : Content) → IsWithin c d → IsWithin d e → IsWithin c e }
    ensures within_both { (c d : Content) → IsWithin c d → IsWithin d c → c ≡ d }

    ensures first { (c d : Content) → IsWithin c (join c d) }
    ensures second { (c d : Content) → Agree c d → IsWithin d (join c d) }
    ensures least { (c d e : Content) → IsWithin c e → IsWithin d e → IsWithin (join c d) e }

    ensures associative { (c d e : Content) → join (join c d) e ≡ join c (join d e) }
    ensures idempotent { (c : Content) → join c c ≡ c }
    ensures commutative { (c d : Content) → Agree c d → join c d ≡ join d c }
{}

/// The clock of a content is the least number that no counter in it is above: neither an
/// insertion's, nor its parent's, nor a deletion's.
pub fn the_clock_is_the_greatest_counter()
    ensures bound { (c : Content) → HasCountersWithin c (clock_of c) }
    ensures least { (c : Content) (n : ℕ) → HasCountersWithin c n → clock_of c ≤ n }
{}

/// The content of a list of operations that agrees is its insertions as a map and its deletions as
/// a set. The content of two lists in a row is the join of theirs.
pub fn content_is_what_the_list_has()
    ensures inserted { (ops : List Operation) → IsAgreed ops → (id : Identifier) (x : Element) →
        (finite_map.get (content_of ops).inserted id ≡ Some x)
        ↔ Contains ops (Operation.Insert id x.parent x.ch) }
    ensures deleted { (ops : List Operation) (id : Identifier) →
        (finite_set.contains (content_of ops).deleted id ≡ true)
        ↔ Contains ops (Operation.Delete id) }
    ensures in_a_row { (xs ys : List Operation) →
        content_of (xs ++ ys) ≡ join (content_of xs) (content_of ys) }
{}

/// A content is that of its operations. An empty store takes them one by one, where each of them
/// is well-formed and the limit suffices.
pub fn a_content_is_that_of_its_operations()
    ensures content { (c : Content) → content_of (operations c) ≡ c }
    ensures held { (c : Content) (op : Operation) → Contains (operations c) op → Holds c op }
    ensures taken { (limit : ℕ) (c : Content) → IsSound c → known_count c ≤ limit →
        taken_one_by_one limit nothing (operations c) ≡ Ok c }
{}

/// The convergence of replicas: lists with the same operations, in any order and with any repeats,
/// have the same content, and so the same order list and the same text. The premise is that the
/// operations agree: no identifier names two insertions.
pub fn same_operations_show_the_same_text()
    ensures content { (xs ys : List Operation) → IsAgreed xs → HasSameOperations xs ys →
        content_of xs ≡ content_of ys }
    ensures order { (xs ys : List Operation) → IsAgreed xs → HasSameOperations xs ys →
        order (content_of xs) ≡ order (content_of ys) }
    ensures text { (xs ys : List Operation) → IsAgreed xs → HasSameOperations xs ys →
        text (content_of xs) ≡ text (content_of ys) }
{}
