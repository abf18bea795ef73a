//! How the live buffer's text changed.
ghost use Rattle.std.specs.Prelude.{◌≡◌, ◌<◌, ℕ, List, length, is_ok, Some};
ghost use Rattle.rga_ops.specs.Order.{text};
ghost use Rattle.mg_session.specs.declared.course.Course.TheVariants.{On};
ghost use Rattle.mg_workspace.specs.AtIndex.{state_at};
ghost use Rattle.mg_live.specs.Changes.{AreKept, Changes as ToldText};
ghost use Rattle.mg_live.specs.Reports as spec;
ghost use Rattle.mg_live.specs.Told as told;

use crate::changes::{Changes, Kept};
use crate::live::Live;
use mg_editor::Editor;
use mg_session::Course;
use rga_ops::{Id, OutOfMemory};
use rga_store::TextStore;

/// How far an event reaches in the live buffer's text.
#[derive(Clone, Copy)]
pub(crate) enum Reach {
    Anywhere,
    /// It puts in an element of this identifier, if anything.
    Element(Id),
    /// It replaces the characters from one place up to another, if anything.
    Between { lo: u64, hi: u64 },
}

/// Notes how the live buffer's text changed by an event that reaches so far, where that is asked for
/// and the buffer is open. Else, and where there is memory for it, the session stands as it did.
pub(crate) fn note_changes<S: TextStore>(
    live: &mut Live,
    editor: &mut Editor<S>,
    course: Course,
    reach: Reach,
) -> Course
    requires { told.WasTold reach live.old editor.old }
    ensures noted { spec.NotesChanges editor.old course live.old live.new result }
    ensures same { editor.new ≡ editor.old }
{
    if live.changes.is_none() {
        return course;
    }
    let Some(index) = editor.live_index(live.name.as_slice()) else {
        return course;
    };
    editor.list();
    let text = match editor.text_at(index) {
        Ok(text) => text,
        Err(memory) => return Course::NoMemory(memory),
    };
    match note(live, text.as_slice(), kept(live, editor, index, reach)) {
        Ok(()) => course,
        Err(memory) => Course::NoMemory(memory),
    }
}

/// Notes that the text is this one now, of which so much is as it was told. Out of memory alone.
fn note(live: &mut Live, text: &[char], kept: Kept) -> Result<(), OutOfMemory>
    requires { (c : ToldText) → live.old.changes ≡ Some c → AreKept kept c.text text.now }
    ensures { spec.NotesText text.now live.old live.new (is_ok result) }
{
    match &mut live.changes {
        Some(changes) => changes.note(text, kept),
        None => Ok(()),
    }
}

/// How much of the text of the buffer at an index is as it was told.
fn kept<S: TextStore>(live: &Live, editor: &Editor<S>, index: usize, reach: Reach) -> Kept
    requires within { index < length editor.now.work.buffers.all }
    requires reached { (c : ToldText) → live.now.changes ≡ Some c →
        told.MayReach reach c.text (state_at index editor.now.work).content }
    ensures { (c : ToldText) → live.now.changes ≡ Some c →
        AreKept result c.text (text (state_at index editor.now.work).content) }
{
    match &live.changes {
        Some(changes) => kept_of(changes, editor, index, reach),
        None => Kept::NOTHING,
    }
}

/// The same, where changes are asked for.
fn kept_of<S: TextStore>(changes: &Changes, editor: &Editor<S>, index: usize, reach: Reach) -> Kept
    requires within { index < length editor.now.work.buffers.all }
    requires reached { told.MayReach reach
        changes.now.text (state_at index editor.now.work).content }
    ensures { AreKept result changes.now.text (text (state_at index editor.now.work).content) }
{
    match reach {
        Reach::Anywhere => Kept::NOTHING,
        Reach::Element(id) => kept_beside(changes, editor, index, id),
        Reach::Between { lo, hi } => kept_around(changes.text_len(), lo, hi),
    }
}

/// What stays beside an element that may have been put in.
fn kept_beside<S: TextStore>(changes: &Changes, editor: &Editor<S>, index: usize, id: Id) -> Kept
    requires within { index < length editor.now.work.buffers.all }
    requires reached { told.MayHaveTaken id
        changes.now.text (state_at index editor.now.work).content }
    ensures { AreKept result changes.now.text (text (state_at index editor.now.work).content) }
{
    let Ok(text) = editor.text_at(index) else {
        return Kept::NOTHING;
    };
    let text = text.as_slice();
    let count = changes.text_len();
    if text.len() == count {
        return Kept {
            front: count,
            end: 0,
        };
    }
    let Some(place) = editor.position_at(index, id) else {
        return Kept::NOTHING;
    };
    if text.len() <= count || text.len() - count > 1 {
        return Kept::NOTHING;
    }
    Kept {
        front: place,
        end: count - place,
    }
}

/// What stays of so many characters around those that may have been replaced.
fn kept_around(count: usize, lo: u64, hi: u64) -> Kept
    ensures { (old new : List ℕ) → length old ≡ count → told.MayBeSpliced lo hi old new →
        AreKept result old new }
{
    Kept {
        front: (lo as usize).min(count),
        end: count - (hi as usize).min(count),
    }
}
