//! What takes operations.
ghost use Rattle.std.specs.Prelude.{◌≡◌, ◌≢◌, ℕ, true, List, [], ◌∷◌, ◌++◌, None, Ok, Err, OnOk, MatchResult};
ghost use Rattle.rga_ops.specs.Prelude.{Content, all_checked, answer, content_of, join, list_answer, single, Memory};
ghost use Rattle.rga_ops.specs.ListAnswer.{early_conflict};
ghost use Rattle.rga_ops.specs.declared.op.Op.{Op as Operation};
ghost use Rattle.rga_store.specs.Growth.{has_unknown};
ghost use Rattle.rga_store.specs.Taking.{TakesMore};

use rga_ops::{Op, Refusal, Taken};

/// Something that holds a content and takes operations into it.
pub trait Taker {
    /// What it holds.
    ghost content: { Self → Content };

    /// How many identifiers it may know.
    ghost limit: { Self → ℕ };

    /// The operations that it may need memory for.
    ghost may_grow: { Self → Operation → Type 0 };

    /// What may stand beside the content and the limit once these operations were taken in turn,
    /// from the first state to the second.
    ghost follows: { Self → List Operation → Self → Type 0 };

    /// To take nothing changes nothing.
    ghost follows_nothing: { (s : Self) → follows s [] s };

    /// Operations may be taken in parts.
    ghost follows_on: { (s t u : Self) (xs ys : List Operation) →
        follows s xs t → follows t ys u → follows s (xs ++ ys) u };

    /// Takes an operation. `New` adds exactly it to the content; `Known` says that it was there.
    ///
    /// Refusals, in this order: `BadId`, `BadOrder`, `Conflict`, `Full`, `Memory`. A refusal
    /// changes nothing. `Known` and every refusal but `Memory` take no memory.
    fn apply(&mut self, op: Op) -> Result<Taken, Refusal>
        ensures exact { result ≢ Err Memory →
            result ≡ answer (limit self.old) (content self.old) op }
        ensures memory { result ≡ Err Memory →
            answer (limit self.old) (content self.old) op ≡ Ok Taken.New }
        ensures growth { result ≡ Err Memory → may_grow self.old op }

        ensures new { result ≡ Ok Taken.New →
            content self.new ≡ join (content self.old) (single op) }
        ensures same { result ≢ Ok Taken.New → content self.new ≡ content self.old }
        ensures took { OnOk result (TakesMore (content self.old) (op ∷ []) (content self.new)) }
        ensures limit { limit self.new ≡ limit self.old }
        ensures follows { MatchResult result
            (λ _. follows self.old (op ∷ []) self.new) (λ _. follows self.old [] self.new) };

    /// Takes all operations of a list, or none.
    ///
    /// Refusals, in this order: `BadId` or `BadOrder` of the first operation that is ill-formed;
    /// `Conflict` of the first that conflicts with the content or with one before it in the list;
    /// `Full` where more identifiers would be known than the limit allows. `Memory` may come in the
    /// place of any answer but that to an ill-formed operation, and to a conflict in front of which
    /// nothing is inserted anew: these are found without memory, and so is that all is known. A
    /// refusal changes nothing.
    fn apply_all(&mut self, ops: &[Op]) -> Result<(), Refusal>
        ensures exact { result ≢ Err Memory →
            result ≡ list_answer (limit self.old) (content self.old) ops.now }
        ensures memory { result ≡ Err Memory → all_checked ops.now ≡ Ok tt }
        ensures early { result ≡ Err Memory →
            early_conflict (content self.old) ops.now ≡ None }
        ensures growth { result ≡ Err Memory → has_unknown (content self.old) ops.now ≡ true }

        ensures whole { result ≡ Ok tt →
            content self.new ≡ join (content self.old) (content_of ops.now) }
        ensures same { result ≢ Ok tt → content self.new ≡ content self.old }
        ensures took { OnOk result (TakesMore (content self.old) ops.now (content self.new)) }
        ensures limit { limit self.new ≡ limit self.old }
        ensures follows { MatchResult result
            (λ _. follows self.old ops.now self.new) (λ _. follows self.old [] self.new) };
}
