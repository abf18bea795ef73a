//! Notes by their names.
ghost use Rattle.std.specs.Prelude.{◌≡◌, ◌<◌, IfOk, OnErr, length, map, slice_get};
ghost use Rattle.mgr_port.specs.Names.{AddsNote, IsNamed};
ghost use Rattle.mgr_port.specs.Notes.{closed};

use crate::folder::Folder;
use crate::names::Paths;
use crate::note::Note;
use rga_ops::OutOfMemory;

/// The index of the note of a name, which need not be loaded.
pub(crate) fn index_of<T: Drop, F: Folder<File = T>>(
    folder: &mut F,
    notes: &mut Vec<Note<T>>,
    name: &str,
) -> Result<usize, OutOfMemory>
    ensures there { IfOk result (λ i. i < length notes.new.items) }
    ensures named { IfOk result (λ i. IsNamed name.now (slice_get notes.new.items i)) }
    ensures others { IfOk result (λ _. AddsNote notes.old.items notes.new.items) }
    ensures same { OnErr result (notes.new.items ≡ notes.old.items) }
{
    for index in 0..notes.as_slice().len() {
        if notes[index].paths.text.as_str() == name {
            return Ok(index);
        }
    }
    let paths = Paths::new(folder, name)?;
    let index = notes.as_slice().len();
    notes.push(Note::new(paths))?;
    Ok(index)
}

/// Closes the files whose names texts took. It is done where a peer is awaited, since it may take as
/// long as a sync.
pub(crate) fn close_replaced<T: Drop>(notes: &mut Vec<Note<T>>)
    ensures { map closed notes.new.items ≡ map closed notes.old.items }
{
    for note in notes.iter_mut() {
        note.close_replaced();
    }
}
