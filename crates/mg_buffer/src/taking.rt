//! Operations that a buffer takes from elsewhere.
ghost use Rattle.std.specs.Prelude.{◌≡◌, ◌≢◌, ◌++◌, [], ◌∷◌, true, Ok, Err, None};
ghost use Rattle.rga_ops.specs.Answer.{answer};
ghost use Rattle.rga_ops.specs.Content.{join, content_of, single};
ghost use Rattle.rga_ops.specs.ListAnswer.{all_checked, early_conflict, list_answer};
ghost use Rattle.rga_ops.specs.NewOperations.{new_operations};
ghost use Rattle.rga_ops.specs.Prelude.{Memory};
ghost use Rattle.rga_ops.specs.declared.refusal.Taken.TheVariants.{New};
ghost use Rattle.rga_store.specs.Growth.{has_unknown};

use crate::buffer::Buffer;
use crate::line_numbers::KnownLine;
use crate::room::add_all;
use rga_doc::Doc;
use rga_ops::{Op, Refusal, Taken};
use rga_store::{Taker, TextStore, answer_at, early_answer_at, has_unknown, new_operations_at};
use std::alloc::Global;

impl<S: TextStore> Taker for Buffer<S> {
    ghost use Rattle.mg_buffer.specs.Following.{TakesOperations, takes_no_operations, takes_more_operations};

    ghost content = { λ b. b.content };

    ghost limit = { λ b. b.limit };

    ghost may_grow = { λ b op. Unit {0} };

    ghost follows = { λ b ops d. TakesOperations b ops d };

    ghost follows_nothing = { λ b. takes_no_operations b };

    ghost follows_on = { λ b d e xs ys f g. takes_more_operations f g };

    #[tactic(auto, using(crate::proofs::TakingLaws::refused))]
    fn apply(&mut self, op: Op) -> Result<Taken, Refusal> {
        if take_one(&mut self.doc, &mut self.unsaved, op)? == Taken::Known {
            return Ok(Taken::Known);
        }
        self.listed = false;
        self.line = KnownLine::FIRST;
        Ok(Taken::New)
    }

    #[tactic(auto, using(crate::proofs::TakingLaws::refused, crate::proofs::TakingLaws::all_are_added, rga_store::proofs::TakingLaws::joined_taken))]
    fn apply_all(&mut self, ops: &[Op]) -> Result<(), Refusal> {
        take_all(self.alloc, &mut self.doc, &mut self.unsaved, ops)?;
        if ops.is_empty() {
            return Ok(());
        }
        self.listed = false;
        self.line = KnownLine::FIRST;
        Ok(())
    }
}

/// Takes an operation in a document, and puts it behind the unsaved ones if it is new. Answers as
/// `Taker::apply` does.
fn take_one<S: TextStore>(doc: &mut Doc<S>, unsaved: &mut Vec<Op>, op: Op) -> Result<Taken, Refusal>
    ensures exact { result ≢ Err Memory → result ≡ answer doc.old.limit doc.old.content op }
    ensures memory { result ≡ Err Memory → answer doc.old.limit doc.old.content op ≡ Ok New }
    ensures new { result ≡ Ok New → doc.new ≡ record doc.old
        { content = join doc.old.content (single op); listed = doc.new.listed } }
    ensures unsaved { result ≡ Ok New → unsaved.new.items ≡ unsaved.old.items ++ op ∷ [] }
    ensures same { result ≢ Ok New →
        (doc.new ≡ doc.old) × (unsaved.new.items ≡ unsaved.old.items) }
{
    if answer_at(doc.store(), op)? == Taken::Known {
        return Ok(Taken::Known);
    }
    unsaved.reserve(1)?;
    doc.apply(op)?;
    add_all(unsaved, &[op]);
    Ok(Taken::New)
}

/// Takes all operations of a list in a document, or none, and puts those that are new behind the
/// unsaved ones. Answers as `Taker::apply_all` does.
fn take_all<S: TextStore>(
    alloc: Global,
    doc: &mut Doc<S>,
    unsaved: &mut Vec<Op>,
    ops: &[Op],
) -> Result<(), Refusal>
    ensures exact { result ≢ Err Memory →
        result ≡ list_answer doc.old.limit doc.old.content ops.now }
    ensures early { result ≡ Err Memory → (all_checked ops.now ≡ Ok tt)
        × (early_conflict doc.old.content ops.now ≡ None) }
    ensures growth { result ≡ Err Memory → has_unknown doc.old.content ops.now ≡ true }
    ensures whole { result ≡ Ok tt → doc.new ≡ record doc.old
        { content = join doc.old.content (content_of ops.now); listed = doc.new.listed } }
    ensures listed { result ≡ Ok tt → ops.now ≡ [] → doc.new.listed ≡ doc.old.listed }
    ensures unsaved { result ≡ Ok tt → unsaved.new.items
        ≡ unsaved.old.items ++ new_operations doc.old.content ops.now }
    ensures same { result ≢ Ok tt →
        (doc.new ≡ doc.old) × (unsaved.new.items ≡ unsaved.old.items) }
{
    if let Err(refusal) = early_answer_at(doc.store(), ops) {
        return Err(refusal);
    }
    let _known = doc.store().known();
    if !has_unknown(doc, ops) {
        return Ok(());
    }
    let new = new_operations_at(alloc, doc.store(), ops)?;
    unsaved.reserve(new.len())?;
    doc.apply_all(ops)?;
    add_all(unsaved, &new);
    Ok(())
}
