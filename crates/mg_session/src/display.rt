//! Frames, as they are written.
ghost use Rattle.std.specs.Prelude.{◌≡◌, ◌⊎◌, ◌++◌, map, string_bytes, true, IfOk, OnOk, OnErr};
ghost use Rattle.rga_exchange.specs.Counting.{Counts, Writes, WritesFront};
ghost use Rattle.rga_lines.specs.Stream.{bytes_of_lines};
ghost use Rattle.mg_editor.specs.Frames.{placed_editor};
ghost use Rattle.mg_session.specs.Display as spec;
ghost use Rattle.mg_session.specs.Moments.{ToldCalls, seen, moment};

use crate::course::{Course, course_answer};
use mg_editor::Editor;
use rga_exchange::Counted;
use rga_ops::OutOfMemory;
use rga_store::TextStore;
use std::alloc::{AllocError, Global};
use std::io;
use std::io::Write;

/// Whether a frame follows a key, which may leave a key sequence begun.
pub(crate) fn follows_key(trace: bool, is_amid: bool) -> bool
    ensures { result ≡ spec.follows_key trace is_amid }
{
    trace && !is_amid
}

/// Whether a frame follows a session that stands so in the end.
pub(crate) fn follows_session(trace: bool, course: Course) -> bool
    ensures { result ≡ spec.follows_session trace course }
{
    !trace && course_answer(course).is_ok()
}

/// Adds the rows, each with a newline after it.
pub fn push_rows(bytes: &mut Vec<u8>, rows: &[String]) -> Result<(), AllocError>
    ensures { OnOk result (bytes.new.items
        ≡ bytes.old.items ++ bytes_of_lines (map string_bytes rows.now)) }
{
    for row in rows {
        bytes.extend_from_slice(row.as_bytes())?;
        bytes.push(b'\n')?;
    }
    Ok(())
}

/// Writes bytes, and flushes the device.
pub fn write_bytes<W: Write>(bytes: &[u8], screen: &mut Counted<W>) -> io::Result<()>
    ensures bytes { OnOk result (Writes W.contents screen.old screen.new bytes.now) }
    ensures begun { WritesFront W.contents screen.old screen.new bytes.now }
    ensures device { Counts result screen.old screen.new }
    ensures flushed { OnOk result (screen.new.flushed ≡ true) }
{
    screen.write_all(bytes)?;
    screen.flush()
}

/// The frame of an editor, as it is written. Out of memory alone.
fn frame_of<S: TextStore>(alloc: Global, editor: &mut Editor<S>) -> Result<Vec<u8>, OutOfMemory>
    ensures placed { OnOk result (editor.new ≡ placed_editor editor.old) }
    ensures unmade { OnErr result
        ((editor.new ≡ editor.old) ⊎ (editor.new ≡ placed_editor editor.old)) }
    ensures text { IfOk result (λ text. text.items ≡ spec.editor_text editor.new) }
{
    let frame = editor.frame()?;
    let mut text = Vec::new(alloc);
    push_rows(&mut text, &frame.rows)?;
    Ok(text)
}

/// Writes a frame of the editor. The session then stands as it did, unless that fails.
pub(crate) fn show<S: TextStore, W: Write>(
    alloc: Global,
    editor: &mut Editor<S>,
    screen: &mut Counted<W>,
    course: Course,
) -> Course
    ensures { (calls : ToldCalls) → spec.Displays
        (moment editor.old calls (seen W.contents screen.old) course)
        (moment editor.new calls (seen W.contents screen.new) result) }
{
    let text = match frame_of(alloc, editor) {
        Ok(text) => text,
        Err(memory) => return Course::NoMemory(memory),
    };
    match write_bytes(&text, screen) {
        Ok(()) => course,
        Err(_) => Course::NoScreen,
    }
}
