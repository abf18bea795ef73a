//! The ends of blocks: statuses, and logs between them.
ghost use Rattle.std.specs.Prelude.{◌≡◌, ◌&&◌, ℕ, [], true, IfOk, IfSome};
ghost use Rattle.rga_exchange.specs.Counting.{Calls};
ghost use Rattle.rga_exchange.specs.RunLines.{runs_text};
ghost use Rattle.mg_session.specs.Moments.{Known, ToldCalls, seen, StepIf};
ghost use Rattle.mg_live.specs.Blocks as spec;
ghost use Rattle.mg_live.specs.States.{moment};
ghost use Rattle.mg_live.specs.Statuses.{can_show, Shows};

use crate::live::Live;
use crate::picture::show;
use mg_editor::{Editor, Writing};
use mg_files::Port;
use mg_session::Course;
use rga_exchange::{Counted, append_runs};
use rga_ops::{Op, OutOfMemory};
use rga_store::{Teller, TextStore};
use std::alloc::Global;
use std::io::Write;

/// The index of the live buffer, where it took something of others since its load.
fn touched<S: TextStore>(live: &Live, editor: &Editor<S>) -> Option<usize>
    ensures { result ≡ spec.touched live.now editor.now }
{
    if live.telling.took {
        editor.live_index(live.name.as_slice())
    } else {
        None
    }
}

/// Whether nobody types, and there is something to save.
fn are_saves_due<S: TextStore>(live: &Live, editor: &Editor<S>) -> bool
    ensures { result ≡ spec.saves_due live.now editor.now }
{
    live.telling.resting && editor.owes_save(touched(live, editor))
}

/// Whether something was made in this block, and a log is due.
fn are_logs_due<S: TextStore>(live: &Live, editor: &Editor<S>) -> bool
    ensures { result ≡ spec.logs_due live.now editor.now }
{
    live.telling.made && editor.owes_log()
}

/// Whether nothing of the live buffer is missing in its log.
fn can_tell<S: TextStore>(live: &Live, editor: &Editor<S>) -> bool
    ensures { result ≡ spec.can_tell live.now editor.now }
{
    match editor.live_index(live.name.as_slice()) {
        Some(index) => editor.unsaved_at(index).is_empty(),
        None => true,
    }
}

/// What was made in the live buffer and not told, if the log has it.
fn told_operations<'a, S: TextStore>(live: &'a Live, editor: &Editor<S>) -> &'a [Op]
    ensures { result.now ≡ spec.told_operations live.now editor.now }
{
    if can_tell(live, editor) {
        live.telling.untold.as_slice()
    } else {
        &[]
    }
}

/// Whether a second status follows.
fn has_more<S: TextStore>(live: &Live, editor: &Editor<S>) -> bool
    ensures { result ≡ spec.has_more live.now editor.now }
{
    are_saves_due(live, editor)
        || are_logs_due(live, editor)
        || !told_operations(live, editor).is_empty()
}

/// What is to be written at the end of a block: all that was made or taken, or the logs of what was
/// made.
fn writing_due<S: TextStore>(live: &Live, editor: &Editor<S>) -> Option<Writing>
    ensures { result ≡ spec.writing_due live.now editor.now }
{
    if are_saves_due(live, editor) {
        return Some(Writing::LogAndText(touched(live, editor)));
    }
    if are_logs_due(live, editor) {
        return Some(Writing::Log);
    }
    None
}

/// Saves what was made or taken, if that is due; else writes the logs of what was made, if these are
/// due. How the last writing ended is kept.
fn write<S: TextStore, P: Port>(
    live: &mut Live,
    editor: &mut Editor<S>,
    port: &mut P,
    writing: Option<Writing>,
)
    ensures { (screen : Calls Known) → (course : Course) → spec.Writes writing
        (moment editor.old (P.calls port.old) (P.failures port.old) screen course live.old)
        (moment editor.new (P.calls port.new) (P.failures port.new) screen course live.new) }
{
    live.saved = match writing {
        None => live.saved,
        Some(Writing::Log) => editor.log_made(port, live.saved),
        Some(Writing::LogAndText(touched)) => editor.save_touched(touched, port, live.saved),
    };
}

/// What was told of reports and changes is told once. Takes no memory.
fn mark_reported(live: &mut Live)
    ensures { live.new ≡ spec.reported live.old }
{
    live.tally.refused.clear();
    if let Some(changes) = &mut live.changes {
        changes.list.clear();
    }
}

/// Operations as lines, those in a row that are a run in one. Out of memory alone.
fn told_lines(alloc: Global, ops: &[Op]) -> Result<Vec<u8>, OutOfMemory>
    ensures { IfOk result (λ bytes. bytes.items ≡ runs_text ops.now) }
{
    let mut writer = Counted::new(Vec::new(alloc));
    match append_runs(alloc, ops, &mut writer) {
        Ok(_) => Ok(writer.into_inner()),
        Err(fault) => Err(fault.in_memory()),
    }
}

/// What was told is told no more, if it was told and the status could be written. Takes no memory.
fn mark_told(live: &mut Live, is_told: bool, course: Course)
    ensures { live.new ≡ spec.with_told (can_show course && is_told) live.old }
{
    if can_show(course) && is_told {
        live.telling.untold.clear();
    }
}

/// Writes a second status, and after it the operations that the log has.
fn tell<S: TextStore, W: Write>(
    live: &mut Live,
    editor: &mut Editor<S>,
    screen: &mut Counted<W>,
    fresh: bool,
    course: Course,
) -> Course
    ensures { (calls : ToldCalls) (faults : ℕ) → spec.Tells fresh
        (moment editor.old calls faults (seen W.contents screen.old) course live.old)
        (moment editor.new calls faults (seen W.contents screen.new) result live.new) }
{
    let is_told = can_tell(live, editor);
    let told = match told_lines(live.alloc, told_operations(live, editor)) {
        Ok(told) => told,
        Err(memory) => return Course::NoMemory(memory),
    };
    let course = show(live, editor, screen, fresh, false, &told, course);
    mark_told(live, is_told, course);
    course
}

/// Whether a status may be written.
fn can_show(course: Course) -> bool
    ensures { result ≡ can_show course }
{
    match course {
        Course::On | Course::Quit => true,
        Course::NoKeys | Course::NoScreen | Course::NoMemory(_) => false,
    }
}

/// Writes a status with a fresh frame, where one may be written.
fn show_if<S: TextStore, W: Write>(
    live: &mut Live,
    editor: &mut Editor<S>,
    screen: &mut Counted<W>,
    more: bool,
    course: Course,
) -> Course
    ensures { (calls : ToldCalls) (faults : ℕ) → StepIf (can_show course) (Shows true more [])
        (moment editor.old calls faults (seen W.contents screen.old) course live.old)
        (moment editor.new calls faults (seen W.contents screen.new) result live.new) }
{
    if !can_show(course) {
        return course;
    }
    show(live, editor, screen, true, more, &[], course)
}

/// Writes a second status, where one follows and may be written.
fn tell_if<S: TextStore, W: Write>(
    more: bool,
    live: &mut Live,
    editor: &mut Editor<S>,
    screen: &mut Counted<W>,
    fresh: bool,
    course: Course,
) -> Course
    ensures { (calls : ToldCalls) (faults : ℕ) → StepIf (more && can_show course) (spec.Tells fresh)
        (moment editor.old calls faults (seen W.contents screen.old) course live.old)
        (moment editor.new calls faults (seen W.contents screen.new) result live.new) }
{
    if more && can_show(course) {
        tell(live, editor, screen, fresh, course)
    } else {
        course
    }
}

/// Nothing is due. Takes no memory.
fn end_due(live: &mut Live)
    ensures { live.new ≡ spec.ended live.old }
{
    live.telling.made = false;
    live.telling.resting = false;
}

/// Ends a block: a status is written, with the frame after it; then what was made is logged, or all is
/// saved where nobody types, whatever became of the status; and where something was due a second
/// status tells it, and after it the operations that the log has.
pub(crate) fn end_block<S: Teller, W: Write, P: Port>(
    live: &mut Live,
    editor: &mut Editor<S>,
    screen: &mut Counted<W>,
    port: &mut P,
    course: Course,
) -> Course
    ensures { spec.EndsBlock
        (moment editor.old (P.calls port.old) (P.failures port.old)
        (seen W.contents screen.old) course live.old)
        (moment editor.new (P.calls port.new) (P.failures port.new)
        (seen W.contents screen.new) result live.new) }
{
    let more = has_more(live, editor);
    let fresh = are_saves_due(live, editor);
    let writing = writing_due(live, editor);
    let course = show_if(live, editor, screen, more, course);
    mark_reported(live);
    write(live, editor, port, writing);
    let course = tell_if(more, live, editor, screen, fresh, course);
    end_due(live);
    course
}
