//! Theorems about presses.
//!
//! Each function does nothing: its contract is a theorem over the definitions of `specs/`, which
//! the check proves like any other contract.
ghost use Rattle.std.specs.Prelude.{◌≡◌, ◌≢◌, ◌⊎◌, ℕ, ◌<◌, List, [], ◌∷◌, ◌++◌, length, None, Ok, Err};
ghost use Rattle.rga_ops.specs.Splice.{text_after};
ghost use Rattle.mg_plain.specs.declared.command.Command.{Command};
ghost use Rattle.mg_plain.specs.Commands.{effect};
ghost use Rattle.mg_plain.specs.Effect.{Effect};
ghost use Rattle.mg_buffer.specs.Sight.{situation_of};
ghost use Rattle.mg_keys.specs.declared.step.Step.TheVariants.{Run};
ghost use Rattle.mg_keys.specs.Begun.{HasBegun};
ghost use Rattle.mg_keys.specs.Meaning.{meaning, whole};
ghost use Rattle.mg_minibuffer.specs.declared.ending.Request.{Request};
ghost use Rattle.mg_minibuffer.specs.declared.message.Message.TheVariants.{Nothing};
ghost use Rattle.mg_workspace.specs.Actions.{current_state};
ghost use Rattle.rga_ops.specs.Memory.{out_of_memory};
ghost use Rattle.mg_editor.specs.Editors.{Editor};
ghost use Rattle.mg_editor.specs.Opening.{current_text};
ghost use Rattle.mg_editor.specs.Presses.{Pressed};

/// A press that finds no memory changes no text, no point and no window, and of what is talked no
/// more than the keys.
pub fn a_press_that_is_refused_changes_nothing()
    ensures work { (byte : ℕ) (old new : Editor) → Pressed byte old new (Err out_of_memory) →
        new.work ≡ old.work }
    ensures talk { (byte : ℕ) (old new : Editor) → Pressed byte old new (Err out_of_memory) →
        new.talk ≡ record old.talk { keys = new.talk.keys } }
{}

/// Where no prompt is open and a buffer is current, the byte that ends the key sequence of a command
/// leaves in it the text that the command's effect gives; or it changes nothing of what is worked
/// on, and a message says why.
pub fn a_key_leaves_the_text_that_its_command_gives()
    ensures { (byte n : ℕ) (bytes : List ℕ) (command : Command) (old new : Editor)
        (request : Request) → old.talk.prompt ≡ None → HasBegun old.talk.keys bytes →
        meaning old.talk.keys.mode (bytes ++ byte ∷ []) ≡ whole (Run command n) →
        old.work.buffers.current < length old.work.buffers.all →
        Pressed byte old new (Ok request) →
        let seen = situation_of (current_state old.work) old.work.notes in
        ((f : Effect) × (effect command n seen old.work.fill ≡ Ok f)
        × (current_text new ≡ text_after (current_text old) f.splices))
        ⊎ ((new.work ≡ old.work) × (new.talk.message ≢ Nothing)) }
{}
