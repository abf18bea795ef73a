//! Theorems about buffers.
//!
//! Each function does nothing: its contract is a theorem that the check proves.
ghost use Rattle.std.specs.Prelude.{◌≡◌, ◌≢◌, ℕ, List, [], Some, slice_get};
ghost use Rattle.rga_ops.specs.Content.{Content, IsAgreed, HasSameOperations};
ghost use Rattle.rga_ops.specs.Identifier.{Identifier};
ghost use Rattle.rga_ops.specs.Order.{order, text};
ghost use Rattle.rga_ops.specs.Places.{visible};
ghost use Rattle.rga_ops.specs.Took.{Took};
ghost use Rattle.rga_ops.specs.declared.op.Op.{Op as Operation};
ghost use Rattle.mg_buffer.specs.Carried.{character_place};
ghost use Rattle.mg_buffer.specs.Ran.{Ran, operations_of_splices};
ghost use Rattle.mg_buffer.specs.Sight.{CommandCall, Notes};
ghost use Rattle.mg_buffer.specs.State.{State};
ghost use Rattle.mg_buffer.specs.Undid.{Undid};

use crate::buffer::Buffer;
use rga_store::TextStore;
use rga_store::laws::replicas_that_took_the_same_show_the_same;

/// An undo directly after a command that changed something gives the text from before the command.
pub fn undoing_a_command_gives_the_text_before()
    ensures { (call : CommandCall) (before between after : State)
        (first second third : Notes) (ran : Ran call before first between second) →
        operations_of_splices before ran.plan.splices ≢ [] → Undid between second after third →
        text after.content ≡ text before.content }
{}

/// The place of a character that the text shows is the index of its element.
pub fn a_shown_character_is_at_its_place()
    ensures { (c : Content) (id : Identifier) (i : ℕ) →
        slice_get (visible c) i ≡ Some id → character_place c id ≡ i }
{}

/// Two buffers that took the same operations, in any order and with any repeats, own ones and
/// others', hold the same and show the same text, whatever their stores and their limits are. The
/// premise is that the operations agree: no identifier names two insertions.
pub fn buffers_that_took_the_same_show_the_same<S: TextStore, T: TextStore>()
    ensures content { (xs ys : List Operation) (b c : State) →
        Took xs b.content → Took ys c.content → IsAgreed xs → HasSameOperations xs ys →
        b.content ≡ c.content }
    ensures order { (xs ys : List Operation) (b c : State) →
        Took xs b.content → Took ys c.content → IsAgreed xs → HasSameOperations xs ys →
        order b.content ≡ order c.content }
    ensures text { (xs ys : List Operation) (b c : State) →
        Took xs b.content → Took ys c.content → IsAgreed xs → HasSameOperations xs ys →
        text b.content ≡ text c.content }
{
    replicas_that_took_the_same_show_the_same::<Buffer<S>, Buffer<T>>();
}
