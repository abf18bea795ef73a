//! Theorems about what a live session writes. Each function does nothing: its contract is the
//! theorem.
ghost use Rattle.std.specs.Prelude.{◌≡◌, ◌⊎◌, ◌++◌, ℕ, Bool, List, [], Option, Result, Some, true, false, length, slice_get};
ghost use Rattle.std.specs.List.{Contains};
ghost use Rattle.mg_buffer.specs.OpenState.{OpenState};
ghost use Rattle.mg_files.specs.Calls.{Call};
ghost use Rattle.mg_files.specs.Saving.{SavesTo, written, unlogged};
ghost use Rattle.mg_files.specs.declared.port.PortFault.{PortFault};
ghost use Rattle.mg_files.specs.Held.{Held, MayLead};
ghost use Rattle.mg_workspace.specs.Buffers.{Buffers};
ghost use Rattle.mg_editor.specs.Holding.{AreOpen, HaveOwnNames, GoesOn};
ghost use Rattle.mg_editor.specs.LiveSaving.{Course, Ended, KeepsBuffer, Sweeps, WritesTo, is_due, is_log_due};
ghost use Rattle.mg_editor.specs.declared.live_saving.Writing.{Writing};
ghost use Rattle.mg_editor.specs.declared.live_saving.Writing.TheVariants.{Log};

/// After each log that was due had its turn, a buffer whose log was due has nothing unsaved; or its
/// log could not be written, and the buffer is as it was but that the next writing is a whole one. A
/// log is due after that only if it is to be written whole: so none is, if each writing ended well.
pub fn a_log_that_was_due_has_all_or_is_to_be_written_whole()
    ensures turned { (bs ds : List OpenState) (old new : Course) (i : ℕ) (b d : OpenState) →
        Sweeps Log 0 bs ds old new → slice_get bs i ≡ Some b → slice_get ds i ≡ Some d →
        is_log_due b ≡ true → (d ≡ written b) ⊎ (d ≡ unlogged b) }
    ensures owed { (bs ds : List OpenState) (old new : Course) (i : ℕ) (b d : OpenState) →
        Sweeps Log 0 bs ds old new → slice_get bs i ≡ Some b → slice_get ds i ≡ Some d →
        is_log_due d ≡ true → d.whole ≡ true }
{}

/// Buffers that have their turns stay as many as they are. None changes but in what is still to be
/// written of it: its content, name, point, mark and groups stay, whatever fails. One that was not
/// due does not change at all.
pub fn a_sweep_changes_no_text()
    ensures count { (writing : Writing) (bs ds : List OpenState) (old new : Course) →
        Sweeps writing 0 bs ds old new → length ds ≡ length bs }
    ensures kept { (writing : Writing) (bs ds : List OpenState) (old new : Course) (i : ℕ)
        (b d : OpenState) → Sweeps writing 0 bs ds old new →
        slice_get bs i ≡ Some b → slice_get ds i ≡ Some d → KeepsBuffer b d }
    ensures others { (writing : Writing) (bs ds : List OpenState) (old new : Course) (i : ℕ)
        (b d : OpenState) → Sweeps writing 0 bs ds old new →
        slice_get bs i ≡ Some b → slice_get ds i ≡ Some d →
        is_due writing i b ≡ false → d ≡ b }
{}

/// What is written of a buffer that is due is what some save would write, and leaves what that would
/// leave. So what mg_files has of saves it has of logs too: what was held stays held.
pub fn a_writing_is_a_step_of_a_save()
    ensures { (writing : Writing) (i : ℕ) (ended : Ended) (old new : Option (List Call))
        (b d : OpenState) → is_due writing i b ≡ true → WritesTo writing ended old new b d →
        (answer : Result Bool PortFault) × SavesTo answer old new b d }
{}

/// Each buffer that is open after a sweep was open before, and steps lead to it, by what the calls of
/// the sweep lead to: saves, and what leaves its operations. So what was held of it stays held. No two
/// have one name afterwards, if before no two had.
pub fn a_sweep_takes_steps_of_buffers()
    ensures steps { (writing : Writing) (before made : List Call) (bs : Buffers)
        (ds : List OpenState) (old new : Course) (s t : Held) → AreOpen bs → HaveOwnNames bs →
        old.calls ≡ Some before → new.calls ≡ Some (before ++ made) →
        Sweeps writing 0 bs.all ds old new → MayLead made s t →
        (d : OpenState) → Contains ds d → GoesOn [] bs s d t }
    ensures names { (writing : Writing) (bs : Buffers) (ds : List OpenState) (old new : Course) →
        HaveOwnNames bs → Sweeps writing 0 bs.all ds old new →
        HaveOwnNames (record bs { all = ds }) }
{}
