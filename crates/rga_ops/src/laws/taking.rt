//! What a store answers, and what replicas hold by what they took.
ghost use Rattle.std.specs.Prelude.{◌≡◌, ◌≢◌, ◌<◌, ◌≤◌, ◌↔◌, ◌⊎◌, ◌++◌, ◌+◌, ℕ, List, [], ◌∷◌, true, false, Some, None, Ok, Err, Contains};
ghost use Rattle.std.specs.FinSet as finite_set;
ghost use Rattle.rga_ops.specs.Identifier.{Identifier};
ghost use Rattle.rga_ops.specs.Operation.{checked, id_of};
ghost use Rattle.rga_ops.specs.Content.{Content, nothing, known_count, known_ids, Holds, HasAnother, IsSound, Agree, join, content_of, IsAgreed, HasSameOperations};
ghost use Rattle.rga_ops.specs.Order.{order, text};
ghost use Rattle.rga_ops.specs.Operations.{operations};
ghost use Rattle.rga_ops.specs.Answer.{answer, taken, taken_one_by_one};
ghost use Rattle.rga_ops.specs.ListAnswer.{list_answer, merge_answer, early_conflict, AreWellFormed, IsJoinable, IsFirstIllFormed, IsFirstConflict, IsLeastConflict};
ghost use Rattle.rga_ops.specs.NewOperations.{holds, new_operations};
ghost use Rattle.rga_ops.specs.Took.{Took};
ghost use Rattle.rga_ops.specs.declared.op.Op.{Op as Operation};
ghost use Rattle.rga_ops.specs.declared.refusal.Taken.TheVariants.{Known, New};
ghost use Rattle.rga_ops.specs.declared.refusal.Refusal.{Refusal as Refused};
ghost use Rattle.rga_ops.specs.declared.refusal.Refusal.TheVariants.{BadId, BadOrder, Conflict, Full, Range, Clock};
ghost use Rattle.rga_ops.specs.Memory.{Memory};

/// The answers to an operation, each exactly where it comes. A store that knows as many
/// identifiers as its limit takes no operation of another one.
pub fn answers_in_words()
    ensures of_the_operation { (limit : ℕ) (c : Content) (op : Operation) (e : Refused) →
        ((answer limit c op ≡ Err e) × ((e ≡ BadId) ⊎ (e ≡ BadOrder))) ↔ (checked op ≡ Err e) }
    ensures known { (limit : ℕ) (c : Content) (op : Operation) →
        (answer limit c op ≡ Ok Known) ↔ ((checked op ≡ Ok tt) × Holds c op) }
    ensures conflict { (limit : ℕ) (c : Content) (op : Operation) (id : Identifier) →
        (answer limit c op ≡ Err (Conflict id))
        ↔ ((checked op ≡ Ok tt) × HasAnother c op × (id ≡ id_of op)) }
    ensures full { (limit : ℕ) (c : Content) (op : Operation) →
        (answer limit c op ≡ Err Full) ↔ ((checked op ≡ Ok tt)
        × (finite_set.contains (known_ids c) (id_of op) ≡ false) × (known_count c ≡ limit)) }
    ensures no_other { (limit : ℕ) (c : Content) (op : Operation) (e : Refused) →
        answer limit c op ≡ Err e → (e ≢ Range) × (e ≢ Clock) × (e ≢ Memory) }
{}

/// Of a list that is taken one by one at a content, the new operations are those that it did not
/// hold, and no other; they lead to the same content. A list in two parts has those of the first,
/// and then those of the second at what is held by then. What a store answers to an operation tells
/// whether it is new.
pub fn new_operations_in_words()
    ensures held { (c : Content) (op : Operation) → (holds c op ≡ true) ↔ Holds c op }
    ensures content { (c : Content) (ops : List Operation) →
        join c (content_of (new_operations c ops)) ≡ join c (content_of ops) }
    ensures of_the_list { (c : Content) (ops : List Operation) (op : Operation) →
        Contains (new_operations c ops) op → Contains ops op × (¬ (Holds c op)) }
    ensures no_other { (c : Content) (ops : List Operation) (op : Operation) →
        Contains ops op → Holds c op ⊎ Contains (new_operations c ops) op }
    ensures in_parts { (c : Content) (xs ys : List Operation) → new_operations c (xs ++ ys)
        ≡ new_operations c xs ++ new_operations (join c (content_of xs)) ys }
    ensures new { (limit : ℕ) (c : Content) (op : Operation) →
        answer limit c op ≡ Ok New → new_operations c (op ∷ []) ≡ op ∷ [] }
    ensures known { (limit : ℕ) (c : Content) (op : Operation) →
        answer limit c op ≡ Ok Known → new_operations c (op ∷ []) ≡ [] }
{}

/// Operations that are taken one by one, from nothing on, lead to the content of their list. They
/// are taken whole exactly where each is well-formed, they agree, and their content has no more
/// identifiers than the limit.
pub fn taking_one_by_one_leads_to_the_content()
    ensures content { (limit : ℕ) (ops : List Operation) (c : Content) →
        taken_one_by_one limit nothing ops ≡ Ok c → c ≡ content_of ops }
    ensures well_formed { (limit : ℕ) (ops : List Operation) (c : Content) →
        taken_one_by_one limit nothing ops ≡ Ok c → AreWellFormed ops }
    ensures agreed { (limit : ℕ) (ops : List Operation) (c : Content) →
        taken_one_by_one limit nothing ops ≡ Ok c → IsAgreed ops }
    ensures within { (limit : ℕ) (ops : List Operation) (c : Content) →
        taken_one_by_one limit nothing ops ≡ Ok c → known_count c ≤ limit }

    ensures whole { (limit : ℕ) (ops : List Operation) →
        AreWellFormed ops → IsAgreed ops → known_count (content_of ops) ≤ limit →
        taken_one_by_one limit nothing ops ≡ Ok (content_of ops) }
{}

/// The answers to a list that is taken whole or not at all, each exactly where it comes. Where it
/// is taken, its operations would all be taken one by one, and lead to the same content. Where they
/// would be, and what is held is within the limit, it is taken. An early conflict is the first one,
/// and a list that is taken has none.
pub fn answers_to_a_list_in_words()
    ensures taken { (limit : ℕ) (c : Content) (ops : List Operation) →
        (list_answer limit c ops ≡ Ok tt)
        ↔ (AreWellFormed ops × IsJoinable c ops × (known_count (join c (content_of ops)) ≤ limit)) }
    ensures ill_formed { (limit : ℕ) (c : Content) (ops : List Operation) (e : Refused) →
        ((list_answer limit c ops ≡ Err e) × ((e ≡ BadId) ⊎ (e ≡ BadOrder)))
        ↔ IsFirstIllFormed ops e }
    ensures conflict { (limit : ℕ) (c : Content) (ops : List Operation) (id : Identifier) →
        (list_answer limit c ops ≡ Err (Conflict id))
        ↔ (AreWellFormed ops × IsFirstConflict c ops id) }
    ensures full { (limit : ℕ) (c : Content) (ops : List Operation) →
        (list_answer limit c ops ≡ Err Full)
        ↔ (AreWellFormed ops × IsJoinable c ops × (limit < known_count (join c (content_of ops)))) }
    ensures no_other { (limit : ℕ) (c : Content) (ops : List Operation) (e : Refused) →
        list_answer limit c ops ≡ Err e → (e ≢ Range) × (e ≢ Clock) × (e ≢ Memory) }

    ensures one_by_one { (limit : ℕ) (c : Content) (ops : List Operation) →
        list_answer limit c ops ≡ Ok tt →
        taken_one_by_one limit c ops ≡ Ok (join c (content_of ops)) }
    ensures whole { (limit : ℕ) (c d : Content) (ops : List Operation) → known_count c ≤ limit →
        taken_one_by_one limit c ops ≡ Ok d → list_answer limit c ops ≡ Ok tt }

    ensures early { (c : Content) (ops : List Operation) (id : Identifier) →
        early_conflict c ops ≡ Some id → IsFirstConflict c ops id }
    ensures not_early { (limit : ℕ) (c : Content) (ops : List Operation) →
        list_answer limit c ops ≡ Ok tt → early_conflict c ops ≡ None }
{}

/// The answers to a merge, each exactly where it comes: contents that agree are joined where the
/// limit suffices. Where the other content is sound, that is where its operations would be taken as
/// a list.
pub fn merging_in_words()
    ensures taken { (limit : ℕ) (c d : Content) →
        (merge_answer limit c d ≡ Ok tt) ↔ (Agree c d × (known_count (join c d) ≤ limit)) }
    ensures conflict { (limit : ℕ) (c d : Content) (id : Identifier) →
        (merge_answer limit c d ≡ Err (Conflict id)) ↔ IsLeastConflict c d id }
    ensures full { (limit : ℕ) (c d : Content) →
        (merge_answer limit c d ≡ Err Full) ↔ (Agree c d × (limit < known_count (join c d))) }
    ensures no_other { (limit : ℕ) (c d : Content) (e : Refused) →
        merge_answer limit c d ≡ Err e → ((id : Identifier) × (e ≡ Conflict id)) ⊎ (e ≡ Full) }

    ensures as_a_list { (limit : ℕ) (c d : Content) → IsSound d →
        (merge_answer limit c d ≡ Ok tt) ↔ (list_answer limit c (operations d) ≡ Ok tt) }
{}

/// What a replica holds is the content of the operations that it took, however it took them: one
/// by one, as lists, or from other replicas; what was known already counts as taken too. So
/// replicas that took the same operations hold the same, in the same order, and show the same text.
/// The premise is that the operations agree.
pub fn replicas_that_took_the_same_hold_the_same()
    ensures taken { (limit : ℕ) (ops : List Operation) (c d : Content) (op : Operation) →
        Took ops c → taken limit c op ≡ Ok d → Took (ops ++ op ∷ []) d }
    ensures held { (ops : List Operation) (c : Content) → Took ops c → c ≡ content_of ops }
    ensures content { (xs ys : List Operation) (c d : Content) →
        Took xs c → Took ys d → IsAgreed xs → HasSameOperations xs ys → c ≡ d }
    ensures order { (xs ys : List Operation) (c d : Content) →
        Took xs c → Took ys d → IsAgreed xs → HasSameOperations xs ys → order c ≡ order d }
    ensures text { (xs ys : List Operation) (c d : Content) →
        Took xs c → Took ys d → IsAgreed xs → HasSameOperations xs ys → text c ≡ text d }
{}
