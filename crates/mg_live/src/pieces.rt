//! Pasted text, and splices.
ghost use Rattle.mg_live.specs.Reports as spec;

use crate::changes::change_count;
use crate::fault::ReportFault;
use crate::gathered::Piece;
use crate::live::Live;
use crate::made::{mark_at, mark_current, note_made};
use mg_editor::Editor;
use rga_ops::OutOfMemory;
use rga_store::TextStore;

/// The whole of a pasted text. Answers whether there was memory to note what it made.
fn paste_whole<S: TextStore>(
    live: &mut Live,
    editor: &mut Editor<S>,
    put: &[char],
) -> Result<Result<(), OutOfMemory>, ReportFault>
    ensures { spec.Pastes put.now editor.old live.old result editor.new live.new }
{
    let mark = mark_current(live, editor);
    match editor.paste(put) {
        Ok(()) => Ok(note_made(live, editor, mark)),
        Err(fault) => Err(ReportFault::from(fault)),
    }
}

/// A piece of a pasted text.
pub(crate) fn paste<S: TextStore>(
    live: &mut Live,
    editor: &mut Editor<S>,
    text: &[char],
    more: bool,
) -> Result<Result<(), OutOfMemory>, ReportFault>
    ensures { spec.TakesPaste text.now more editor.old live.old result editor.new live.new }
{
    match live.paste.gather(text, more) {
        Piece::Held => Ok(Ok(())),
        Piece::Dropped(fault) => Err(ReportFault::Line(fault)),
        Piece::Whole(put) => paste_whole(live, editor, put.as_slice()),
    }
}

/// The whole of a splice. Answers whether there was memory to note what it made.
fn splice_whole<S: TextStore>(
    live: &mut Live,
    editor: &mut Editor<S>,
    base: u64,
    lo: u64,
    hi: u64,
    put: &[char],
) -> Result<Result<(), OutOfMemory>, ReportFault>
    ensures { spec.Splices base lo hi put.now editor.old live.old result editor.new live.new }
{
    let Some(index) = editor.live_index(live.name.as_slice()) else {
        return Err(ReportFault::Closed);
    };
    if base != change_count(&live.changes) {
        return Err(ReportFault::Stale);
    }
    let mark = mark_at(live, editor, index);
    match editor.splice(index, lo as usize, hi as usize, put) {
        Ok(()) => Ok(note_made(live, editor, mark)),
        Err(fault) => Err(ReportFault::from(fault)),
    }
}

/// A piece of the text of a splice. Base and places are those of the last one.
pub(crate) fn splice<S: TextStore>(
    live: &mut Live,
    editor: &mut Editor<S>,
    base: u64,
    lo: u64,
    hi: u64,
    text: &[char],
    more: bool,
) -> Result<Result<(), OutOfMemory>, ReportFault>
    ensures { spec.TakesSplice base lo hi text.now more
        editor.old live.old result editor.new live.new }
{
    match live.splice.gather(text, more) {
        Piece::Held => Ok(Ok(())),
        Piece::Dropped(fault) => Err(ReportFault::Line(fault)),
        Piece::Whole(put) => splice_whole(live, editor, base, lo, hi, put.as_slice()),
    }
}
