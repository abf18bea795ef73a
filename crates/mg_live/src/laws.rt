//! Laws of the definitions, each proved by a function with nothing to do.
//!
//! Those on what is held are of a port whose told calls lead from what it holds before to what it
//! holds after (`MayLead`), as those of mg_files. They have as a premise what the types keep of each
//! moment (`AreKept`), and between the press of a key and what it requests (`AreKeptWithin`).
ghost use Rattle.std.specs.Prelude.{◌≡◌, ◌≤◌, ◌++◌, ℕ, Bool, List, [], length, Some, None, Ok};
ghost use Rattle.std.specs.List.{Contains};
ghost use Rattle.rga_ops.specs.Splice.{Splice, spliced};
ghost use Rattle.mg_buffer.specs.OpenState.{OpenState};
ghost use Rattle.mg_files.specs.Calls.{Call};
ghost use Rattle.mg_files.specs.Held.{Held, MayLead};
ghost use Rattle.mg_events.specs.Reading.{Told};
ghost use Rattle.mg_editor.specs.Editors.{Editor};
ghost use Rattle.mg_editor.specs.Holding.{GoesOn};
ghost use Rattle.mg_session.specs.Opening.{LoadsTo};
ghost use Rattle.mg_screen.specs.Settings.{Values};
ghost use Rattle.mg_live.specs.Blocks.{EndsBlock, told_operations};
ghost use Rattle.mg_live.specs.Changes.{change_between};
ghost use Rattle.mg_live.specs.Running.{TakesEvent, live_at_start};
ghost use Rattle.mg_live.specs.Standing.{AreInLog, AreKept, AreKeptWithin, ComesBy, Stands, live_name};
ghost use Rattle.mg_live.specs.States.{Moment};

/// The change from one text to another makes the other one of it, by replacing characters that it
/// has. There is none exactly where they are the same.
pub fn a_change_makes_the_text()
    ensures text { (old new : List ℕ) (s : Splice) → change_between old new ≡ Some s →
        spliced old s.lo s.hi s.put ≡ new }
    ensures within { (old new : List ℕ) (s : Splice) → change_between old new ≡ Some s →
        (s.lo ≤ s.hi) × (s.hi ≤ length old) }
    ensures none { (old new : List ℕ) → change_between old new ≡ None → old ≡ new }
    ensures same { (text : List ℕ) → change_between text text ≡ None }
{}

/// A session stands so at its start, by what its load answers of what is held.
pub fn a_session_stands_at_its_start()
    ensures { (values : Values) (noted : Bool) (first : Editor) (told made : List Call)
        (s t : Held) (m : Moment) → LoadsTo values (Some told) (Some (told ++ made)) (Ok first)
        → MayLead made s t → AreKept first.work.buffers → m.editor ≡ first
        → m.live ≡ live_at_start noted values first → Stands t m }
{}

/// A session that stands beside what is held stands so after an event: each open buffer is kept
/// beside its log, and what was made in the live buffer and is not told is in it, or in its log.
pub fn an_event_keeps_a_session_standing()
    ensures { (event : Told) (before after : Moment) (taken : TakesEvent event before after)
        (s t : Held) (told made : List Call) → Stands s before
        → AreKeptWithin event before after taken → AreKept after.editor.work.buffers
        → before.calls ≡ Some told → after.calls ≡ Some (told ++ made) → MayLead made s t
        → Stands t after }
{}

/// So it stands after the end of a block.
pub fn a_block_keeps_a_session_standing()
    ensures { (before after : Moment) → EndsBlock before after → (s t : Held)
        (told made : List Call) → Stands s before → AreKept after.editor.work.buffers
        → before.calls ≡ Some told → after.calls ≡ Some (told ++ made) → MayLead made s t
        → Stands t after }
{}

/// What is told of the live buffer is in its log: the content that the log stands for, once it is
/// written, holds each of the operations.
pub fn what_is_told_is_in_the_log()
    ensures { (before after : Moment) (block : EndsBlock before after) (s t : Held)
        (told made : List Call) → Stands s before → AreKept after.editor.work.buffers
        → before.calls ≡ Some told → after.calls ≡ Some (told ++ made) → MayLead made s t
        → AreInLog (told_operations block.written.live block.written.editor)
        (t (live_name block.written)).log }
{}

/// Each buffer that is open after an event or the end of a block came by steps from one that was
/// open before, or was opened by what was held. What its steps take of others is what a report
/// says, and what came of a peer that a key asked to meet.
///
/// By `steps_join_operations` of mg_files it then holds what it held, what its replica made, and what
/// it took. If what is taken is in logs, sessions are writers of mg_files: each step is an act of
/// theirs, and so is an opening.
pub fn a_live_buffer_goes_by_steps()
    ensures event { (event : Told) (before after : Moment) (taken : TakesEvent event before after)
        (s t : Held) (told made : List Call) → Stands s before
        → AreKeptWithin event before after taken → AreKept after.editor.work.buffers
        → before.calls ≡ Some told → after.calls ≡ Some (told ++ made) → MayLead made s t
        → (d : OpenState) → Contains after.editor.work.buffers.all d
        → ComesBy event before after taken s d t }
    ensures block { (before after : Moment) → EndsBlock before after → (s t : Held)
        (told made : List Call) → Stands s before → AreKept after.editor.work.buffers
        → before.calls ≡ Some told → after.calls ≡ Some (told ++ made) → MayLead made s t
        → (d : OpenState) → Contains after.editor.work.buffers.all d
        → GoesOn [] before.editor.work.buffers s d t }
{}
