//! Theorems about what is held of the open buffers. Each function does nothing: its contract is the
//! theorem.
ghost use Rattle.std.specs.Prelude.{◌≡◌, ◌⊎◌, ◌++◌, ◌<◌, ℕ, true, false, List, [], ◌∷◌, length, Option, Some, None, Ok, encode_utf8_all};
ghost use Rattle.std.specs.List.{Contains};
ghost use Rattle.std.specs.Str.{all_scalars};
ghost use Rattle.mg_files.specs.Calls.{Call};
ghost use Rattle.rga_ops.specs.Prelude.{answer, list_answer};
ghost use Rattle.rga_ops.specs.declared.op.Op.{Op};
ghost use Rattle.rga_ops.specs.declared.refusal.Taken.{Taken};
ghost use Rattle.mg_plain.specs.declared.command.Command.TheVariants.{ReplaceRange};
ghost use Rattle.mg_buffer.specs.OpenState.{OpenState, is_changed};
ghost use Rattle.mg_files.specs.Held.{Held, MayLead};
ghost use Rattle.mg_files.specs.Kept.{IsBuffer, IsLoggedBy};
ghost use Rattle.mg_minibuffer.specs.declared.ending.Request.{Request};
ghost use Rattle.mg_minibuffer.specs.declared.ending.Request.TheVariants.{Find};
ghost use Rattle.mg_files.specs.Asking.{Role};
ghost use Rattle.mg_files.specs.Linking.{Account, ExchangesOver};
ghost use Rattle.mg_screen.specs.Settings.{Values};
ghost use Rattle.mg_workspace.specs.declared.failures.Task.TheVariants.{Exchange};
ghost use Rattle.mg_workspace.specs.Actions.{ActionVerdict};
ghost use Rattle.mg_workspace.specs.AtIndex.{RunsAt, state_at};
ghost use Rattle.mg_workspace.specs.Buffers.{Buffers};
ghost use Rattle.mg_workspace.specs.Opening.{workspace};
ghost use Rattle.mg_workspace.specs.Workspaces.{Workspace};
ghost use Rattle.mg_editor.specs.Carrying.{Carried};
ghost use Rattle.mg_editor.specs.Editors.{Editor};
ghost use Rattle.mg_editor.specs.Holding.{AreLogged, AreOpen, HaveOwnNames, GoesOn, IsOpen, IsOpenedBy};
ghost use Rattle.mg_editor.specs.LiveTaking.{taking};
ghost use Rattle.mg_editor.specs.Meeting.{meeting_outcome, role_of};
ghost use Rattle.mg_editor.specs.Pasting.{PasteAnswer, Pasted};
ghost use Rattle.mg_editor.specs.Presses.{Pressed, PressAnswer};
ghost use Rattle.mg_editor.specs.Telling.{CarryAnswer, ChangesCurrent};

use mg_files::Port;

/// Each buffer that is open after a press was open before, and steps lead to it: commands that it
/// ran, undos, and what leaves its operations. No step takes operations of others. So what was held
/// of it stays held.
pub fn a_press_takes_steps_of_buffers()
    ensures { (byte : ℕ) (old new : Editor) (r : PressAnswer) (s : Held)
        → AreOpen old.work.buffers → AreOpen new.work.buffers → Pressed byte old new r
        → (d : OpenState) → Contains new.work.buffers.all d → GoesOn [] old.work.buffers s d s }
{}

/// So it is with a text that is pasted, as a command or by typing, whatever came of it.
pub fn a_paste_takes_steps_of_buffers()
    ensures { (put : List ℕ) (old new : Editor) (r : PasteAnswer) (s : Held)
        → AreOpen old.work.buffers → AreOpen new.work.buffers → Pasted put old new r
        → (d : OpenState) → Contains new.work.buffers.all d → GoesOn [] old.work.buffers s d s }
{}

/// And with characters that are replaced in the buffer at an index, whatever came of it.
pub fn a_splice_is_a_step_of_its_buffer()
    ensures { (i lo hi : ℕ) (put : List ℕ) (old new : Editor) (r : ActionVerdict) (s : Held)
        → i < length old.work.buffers.all → AreOpen new.work.buffers
        → RunsAt i (ReplaceRange lo hi put) 1 old.work (new.work, r)
        → (d : OpenState) → Contains new.work.buffers.all d → GoesOn [] old.work.buffers s d s }
{}

/// What the buffer at an index takes of others is a step of it, if its answer allowed that. What
/// the steps take is among those operations.
pub fn what_is_taken_is_a_step_of_its_buffer()
    ensures list { (i : ℕ) (ops : List Op) (old new : Editor) (s : Held)
        → i < length old.work.buffers.all → AreOpen new.work.buffers
        → let b = state_at i old.work in list_answer b.limit b.content ops ≡ Ok tt
        → new ≡ taking i ops old
        → (d : OpenState) → Contains new.work.buffers.all d → GoesOn ops old.work.buffers s d s }
    ensures one { (i : ℕ) (op : Op) (taken : Taken) (old new : Editor) (s : Held)
        → i < length old.work.buffers.all → AreOpen old.work.buffers → AreOpen new.work.buffers
        → let b = state_at i old.work in answer b.limit b.content op ≡ Ok taken
        → new ≡ taking i (op ∷ []) old → (d : OpenState) → Contains new.work.buffers.all d
        → GoesOn (op ∷ []) old.work.buffers s d s }
{}

/// A request that meets no peer leads on by what its calls lead to: a save is the one step of the
/// current buffer, and a buffer that was not open before was opened by what was held.
pub fn a_request_takes_steps_of_buffers()
    ensures { (request : Request) (before made : List Call) (old new : Editor) (r : CarryAnswer)
        (s t : Held) → role_of request ≡ None → AreOpen old.work.buffers
        → HaveOwnNames old.work.buffers
        → Carried request (Some before) (Some (before ++ made)) old new r → MayLead made s t
        → (d : OpenState) → Contains new.work.buffers.all d
        → GoesOn [] old.work.buffers s d t ⊎ ((name : List ℕ) × (request ≡ Find name)
        × IsOpenedBy (encode_utf8_all name) old.work s d t) }
{}

/// So does one that meets a peer: saves of the current buffer, and what it takes of the peer.
pub fn a_meeting_takes_steps_of_buffers<P: Port>()
    ensures { (a : Account P.Link) (role : Role) (before made : List Call) (old new : Editor)
        (r : CarryAnswer) (s t : Held) → AreOpen old.work.buffers → HaveOwnNames old.work.buffers
        → AreOpen new.work.buffers → a.calls ≡ Some before → a.made ≡ Some (before ++ made)
        → ChangesCurrent Exchange (λ answer b d. ExchangesOver a b d role answer)
        meeting_outcome old new r → MayLead made s t
        → (ops : List Op) × ((d : OpenState) → Contains new.work.buffers.all d
        → GoesOn ops old.work.buffers s d t) }
{}

/// A buffer that steps lead to, or that was opened so, is kept beside its log, if before each open
/// buffer was.
pub fn what_is_open_is_logged()
    ensures { (ops : List Op) (name : List ℕ) (old : Workspace) (s t : Held) (d : OpenState)
        → AreLogged old.buffers s → GoesOn ops old.buffers s d t ⊎ IsOpenedBy name old s d t
        → IsBuffer d → IsLoggedBy d (t d.buffer.name).log }
{}

/// No two open buffers have one name after a press or a request, if before it no two had; nor after
/// a splice or a paste, or what was taken of others. At first one buffer is open. The characters
/// that a request names are such, as the type of names keeps.
pub fn open_buffers_keep_own_names()
    ensures opened { (values : Values) (b : OpenState) → HaveOwnNames (workspace values b).buffers }
    ensures pressed { (byte : ℕ) (old new : Editor) (r : PressAnswer)
        → HaveOwnNames old.work.buffers → Pressed byte old new r → HaveOwnNames new.work.buffers }
    ensures carried { (request : Request) (calls more : Option (List Call)) (old new : Editor)
        (r : CarryAnswer) → ((name : List ℕ) → request ≡ Find name → all_scalars name ≡ true)
        → HaveOwnNames old.work.buffers → Carried request calls more old new r
        → HaveOwnNames new.work.buffers }
    ensures taken { (i : ℕ) (ops : List Op) (old new : Editor)
        → HaveOwnNames old.work.buffers → new ≡ taking i ops old → HaveOwnNames new.work.buffers }
    ensures spliced { (i lo hi : ℕ) (put : List ℕ) (old new : Editor) (r : ActionVerdict)
        → HaveOwnNames old.work.buffers
        → RunsAt i (ReplaceRange lo hi put) 1 old.work (new.work, r)
        → HaveOwnNames new.work.buffers }
    ensures pasted { (put : List ℕ) (old new : Editor) (r : PasteAnswer)
        → HaveOwnNames old.work.buffers → Pasted put old new r → HaveOwnNames new.work.buffers }
{}

/// A buffer that steps lead to has the name that it had.
pub fn a_buffer_keeps_its_name()
    ensures { (ops : List Op) (before : Buffers) (s t : Held) (d : OpenState)
        (g : GoesOn ops before s d t) → d.buffer.name ≡ g.b.buffer.name }
{}

/// A buffer that was open before a press is open by its name after it, or there was nothing to save
/// of it: only such a one is removed. Requests, splices, texts that are pasted and what is taken of
/// others remove none.
pub fn a_removed_buffer_is_saved()
    ensures pressed { (byte : ℕ) (old new : Editor) (r : PressAnswer) → Pressed byte old new r
        → (b : OpenState) → Contains old.work.buffers.all b
        → IsOpen b.buffer.name new.work.buffers ⊎ (is_changed b ≡ false) }
    ensures carried { (request : Request) (calls more : Option (List Call)) (old new : Editor)
        (r : CarryAnswer) → Carried request calls more old new r
        → (b : OpenState) → Contains old.work.buffers.all b
        → IsOpen b.buffer.name new.work.buffers }
    ensures taken { (i : ℕ) (ops : List Op) (old new : Editor) → new ≡ taking i ops old
        → (b : OpenState) → Contains old.work.buffers.all b
        → IsOpen b.buffer.name new.work.buffers }
    ensures spliced { (i lo hi : ℕ) (put : List ℕ) (old new : Editor) (r : ActionVerdict)
        → RunsAt i (ReplaceRange lo hi put) 1 old.work (new.work, r)
        → (b : OpenState) → Contains old.work.buffers.all b
        → IsOpen b.buffer.name new.work.buffers }
    ensures pasted { (put : List ℕ) (old new : Editor) (r : PasteAnswer) → Pasted put old new r
        → (b : OpenState) → Contains old.work.buffers.all b
        → IsOpen b.buffer.name new.work.buffers }
{}
