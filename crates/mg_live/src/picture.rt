//! Statuses, with what stands after them.
ghost use Rattle.std.specs.Prelude.{◌≡◌, ℕ, IfOk, OnOk, OnErr, IfSome, OnSome, None, false, string_bytes};
ghost use Rattle.mg_live.specs.Made.{live_index};
ghost use Rattle.mg_events.specs.StatusText.{status_text};
ghost use Rattle.mg_editor.specs.Frames.{placed_editor};
ghost use Rattle.mg_session.specs.Moments.{ToldCalls, seen};
ghost use Rattle.mg_live.specs.States.{moment};
ghost use Rattle.mg_live.specs.Statuses as spec;

use crate::live::Live;
use crate::shown::{Shown, are_same_rows};
use mg_editor::Editor;
use mg_events::{BufferStatus, Saved, Status, status_line};
use mg_files::PortFault;
use mg_session::{Course, push_rows, write_bytes};
use rga_exchange::Counted;
use rga_ops::{OutOfMemory, Splice};
use rga_store::TextStore;
use std::alloc::Global;
use std::io::Write;

/// How many rows and lines of operations stand after a status, and whether a second one follows.
#[derive(Clone, Copy)]
pub(crate) struct After {
    pub(crate) rows: usize,
    pub(crate) operations: usize,
    pub(crate) more: bool,
}

/// How the last writing of a log ended.
fn saved_status(saved: Option<Result<(), PortFault>>) -> Saved
    ensures { result ≡ spec.saved_status saved }
{
    match saved {
        None => Saved::Unsaved,
        Some(Ok(())) => Saved::Done,
        Some(Err(PortFault::File)) => Saved::File,
        Some(Err(PortFault::Memory(_))) => Saved::Memory,
    }
}

/// What is told of the live buffer, where it is open.
fn live_status<'a, S: TextStore>(
    live: &Live,
    editor: &'a Editor<S>,
) -> Result<Option<BufferStatus<'a>>, OutOfMemory>
    ensures { IfOk result
        (spec.IsLiveStatus (live_index live.now.name editor.now) editor.now) }
{
    let Some(index) = editor.live_index(live.name.as_slice()) else {
        return Ok(None);
    };
    Ok(Some(editor.buffer_status(index)?))
}

/// The changes of this block, where they are asked for.
fn changes_status(live: &Live) -> Option<&[Splice]>
    ensures { spec.AreChanges live.now.changes result }
{
    match &live.changes {
        Some(changes) => Some(changes.list.as_slice()),
        None => None,
    }
}

/// The line of a status.
fn status_text<S: TextStore>(
    live: &Live,
    editor: &Editor<S>,
    after: After,
) -> Result<String, OutOfMemory>
    ensures { IfOk result (λ text. (status : Status)
        × spec.IsStatus live.now editor.now after status
        × (string_bytes text ≡ status_text status)) }
{
    let point = editor.point_status()?;
    let message = editor.message_text(live.alloc)?;
    let windows = editor.window_statuses(live.alloc)?;
    Ok(status_line(
        live.alloc,
        &Status {
            begun: editor.is_amid_keys(),
            buffer: editor.buffer_status(editor.current_index())?,
            changes: changes_status(live),
            cursor: live.shown.cursor,
            keys: live.tally.keys,
            live: live_status(live, editor)?,
            loaded: live.loaded,
            message: message.as_str(),
            mode: editor.mode(),
            more: after.more,
            operations: after.operations,
            places: live.shown.places.as_slice(),
            point,
            prompt: editor.prompt_status(),
            refused: live.tally.refused.as_slice(),
            reports: live.tally.reports,
            rows: after.rows,
            saved: saved_status(live.saved),
            windows: windows.as_slice(),
        },
    )?)
}

/// Draws the frame, which is what was shown last then, and answers whether its rows are new. Out
/// of memory alone, and then nothing is shown anew.
fn draw<S: TextStore>(live: &mut Live, editor: &mut Editor<S>) -> Result<bool, OutOfMemory>
    ensures drawn { IfOk result (λ is_new. spec.Draws is_new live.old live.new editor.new) }
    ensures placed { OnOk result (editor.new ≡ placed_editor editor.old) }
    ensures same { OnErr result ((live.new ≡ live.old) × (editor.new ≡ editor.old)) }
{
    let index = editor.live_index(live.name.as_slice());
    let frame = editor.live_frame(index, live.places.as_slice())?;
    let is_same = are_same_rows(live.shown.rows.as_slice(), frame.rows.as_slice());
    live.shown = Shown {
        rows: frame.rows,
        cursor: Some(frame.cursor),
        places: frame.places,
    };
    Ok(!is_same)
}

/// Draws the frame if it is to be fresh, unless changes are told in its place; else sees to it that
/// the text of each buffer is at hand. Answers whether there are new rows. Out of memory alone,
/// and then nothing is shown anew.
fn ready<S: TextStore>(
    live: &mut Live,
    editor: &mut Editor<S>,
    fresh: bool,
) -> Result<bool, OutOfMemory>
    ensures drawn { IfOk result
        (λ is_new. spec.Readies fresh is_new live.old editor.old live.new editor.new) }
    ensures same { OnErr result ((live.new ≡ live.old) × (editor.new ≡ editor.old)) }
{
    if fresh && live.changes.is_none() {
        return draw(live, editor);
    }
    editor.list();
    Ok(false)
}

/// How many lines these are.
fn line_count(bytes: &[u8]) -> usize
    ensures { result ≡ spec.line_count bytes.now }
{
    bytes.iter().filter(|byte| **byte == b'\n').count()
}

/// The bytes of a status, with the rows that are shown after it if they are new, and then with lines
/// of operations.
fn picture<S: TextStore>(
    live: &Live,
    editor: &Editor<S>,
    is_new: bool,
    more: bool,
    told: &[u8],
) -> Result<Vec<u8>, OutOfMemory>
    ensures { IfOk result
        (λ bytes. spec.IsPicture is_new more told.now live.now editor.now bytes.items) }
{
    let rows: &[String] = if is_new {
        live.shown.rows.as_slice()
    } else {
        &[]
    };
    let after = After {
        rows: rows.len(),
        operations: line_count(told),
        more,
    };
    let text = status_text(live, editor, after)?;
    let mut bytes = Vec::from_slice(live.alloc, text.as_bytes())?;
    push_rows(&mut bytes, rows)?;
    bytes.extend_from_slice(told)?;
    Ok(bytes)
}

/// Writes a status, which says whether a second one follows, with what stands after it: lines of
/// operations come last. The frame is drawn if it is to be fresh, unless changes are told in its
/// place. The session then stands as it did, unless that fails.
pub(crate) fn show<S: TextStore, W: Write>(
    live: &mut Live,
    editor: &mut Editor<S>,
    screen: &mut Counted<W>,
    fresh: bool,
    more: bool,
    told: &[u8],
    course: Course,
) -> Course
    ensures { (calls : ToldCalls) (faults : ℕ) →
        spec.Shows fresh more told.now
        (moment editor.old calls faults (seen W.contents screen.old) course live.old)
        (moment editor.new calls faults (seen W.contents screen.new) result live.new) }
{
    let is_new = match ready(live, editor, fresh) {
        Ok(is_new) => is_new,
        Err(memory) => return Course::NoMemory(memory),
    };
    let bytes = match picture(live, editor, is_new, more, told) {
        Ok(bytes) => bytes,
        Err(memory) => return Course::NoMemory(memory),
    };
    match write_bytes(&bytes, screen) {
        Ok(()) => course,
        Err(_) => Course::NoScreen,
    }
}
