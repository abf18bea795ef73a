//! How a live session begins.
ghost use Rattle.std.specs.Prelude.{◌≡◌, ◌<◌, length, IfOk};
ghost use Rattle.mg_session.specs.Opening.{LoadsTo};
ghost use Rattle.mg_live.specs.Running as spec;

use crate::live::Live;
use mg_editor::Editor;
use mg_screen::Values;
use mg_session::Course;
use rga_store::TextStore;

/// Whether operations of the buffer at an index were read from a log: there are some, and none is
/// unsaved.
fn was_loaded<S: TextStore>(editor: &Editor<S>, index: usize) -> bool
    requires { index < length editor.now.work.buffers.all }
    ensures { result ≡ spec.was_loaded index editor.now }
{
    editor.unsaved_at(index).is_empty() && editor.clock_at(index) > 0
}

/// Notes what the editor opened with: what the load of a text without a log made is to be told. The
/// session does not go on where there is no memory to note it.
pub(crate) fn note_start<S: TextStore>(
    live: &mut Live,
    editor: &Editor<S>,
    values: &Values,
) -> Course
    requires { 0 < length editor.now.work.buffers.all }
    ensures { live.old ≡ spec.fresh_live values.now →
        spec.StartsWith values.now editor.now live.new result }
{
    live.loaded = was_loaded(editor, 0);
    match live.telling.add(editor.unsaved_at(0)) {
        Ok(()) => Course::On,
        Err(memory) => Course::NoMemory(memory),
    }
}
