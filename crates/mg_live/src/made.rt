//! What commands and undos make, and what of it is to be told.
ghost use Rattle.std.specs.Prelude.{◌≡◌, ◌<◌, ℕ, List, length, is_ok, IfErr, option_map};
ghost use Rattle.mg_editor.specs.Editors as editors;
ghost use Rattle.mg_live.specs.Made as spec;

use crate::live::Live;
use mg_editor::Editor;
use rga_ops::{Op, OutOfMemory};
use rga_store::TextStore;

/// How a buffer stands before something is done in it.
#[derive(Clone, Copy)]
pub(crate) struct Mark {
    /// Its index, and how many buffers are open.
    index: usize,
    buffers: usize,
    /// How many of its operations are unsaved.
    unsaved: usize,
    /// Whether it is the live buffer.
    is_live: bool,
}

/// How the current buffer stands.
pub(crate) fn mark_current<S: TextStore>(live: &Live, editor: &Editor<S>) -> Mark
    ensures { spec.IsMark live.now.name editor.now.work.buffers.current editor.now result }
{
    mark_at(live, editor, editor.current_index())
}

/// How the buffer at an index stands.
pub(crate) fn mark_at<S: TextStore>(live: &Live, editor: &Editor<S>, index: usize) -> Mark
    requires { index < length editor.now.work.buffers.all }
    ensures { spec.IsMark live.now.name index editor.now result }
{
    Mark {
        index,
        buffers: editor.buffer_count(),
        unsaved: editor.unsaved_at(index).len(),
        is_live: is_live_at(live, editor, index),
    }
}

/// Whether the live buffer is the one at an index.
fn is_live_at<S: TextStore>(live: &Live, editor: &Editor<S>, index: usize) -> bool
    ensures { result ≡ spec.is_live live.now.name index editor.now }
{
    match editor.live_index(live.name.as_slice()) {
        Some(found) => found == index,
        None => false,
    }
}

/// What became unsaved since in the buffer that stood so.
fn made_since<'a, S: TextStore>(editor: &'a Editor<S>, mark: Mark) -> &'a [Op]
    ensures { (name : List ℕ) (i : ℕ) (old : editors.Editor) → spec.IsMark name i old mark →
        result.now ≡ spec.made_at i old editor.now }
{
    if editor.buffer_count() != mark.buffers || mark.index >= mark.buffers {
        return &[];
    }
    match editor.unsaved_at(mark.index).get(mark.unsaved..) {
        Some(made) => made,
        None => &[],
    }
}

/// Notes what was made since in the buffer that stood so. Out of memory alone.
pub(crate) fn note_made<S: TextStore>(
    live: &mut Live,
    editor: &Editor<S>,
    mark: Mark,
) -> Result<(), OutOfMemory>
    ensures { (i : ℕ) (old : editors.Editor) → spec.IsMark live.old.name i old mark →
        live.new ≡ spec.with_made (spec.is_live live.old.name i old) (is_ok result)
        (spec.made_at i old editor.now) live.old }
{
    let made = made_since(editor, mark);
    live.telling.made = live.telling.made || !made.is_empty();
    if !mark.is_live {
        return Ok(());
    }
    live.telling.add(made)
}
