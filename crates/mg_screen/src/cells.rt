//! What a character shows in a row, and how wide it is.
ghost use Rattle.std.specs.Prelude.{◌≡◌, ◌≤◌, ◌-◌, chars, replicate, OnOk};
ghost use Rattle.mg_screen.specs.Written.{AddsCharacters};
ghost use Rattle.mg_screen.specs.Cells as spec;

use std::alloc::AllocError;
use unicode_width::UnicodeWidthChar;

/// Tab stops stand at the multiples of so many columns.
pub(crate) const TAB_STOP: usize = 8;

/// How wide the cell of a character is that begins at this column.
pub(crate) fn cell_width(column: usize, c: char) -> usize
    ensures width { result ≡ (spec.cell_of column c).width }
    ensures bound { result ≤ spec.tab_stop }
{
    match c {
        '\t' => TAB_STOP - column % TAB_STOP,
        '\0'..='\x1f' | '\x7f' => 2,
        '\u{80}'..='\u{9f}' => 1,
        _ => c.width().unwrap_or(0),
    }
}

/// Writes a character so many times.
pub(crate) fn push_times(row: &mut String, c: char, count: usize) -> Result<(), AllocError>
    ensures { OnOk result (AddsCharacters (replicate count c) row.old row.new) }
{
    for _i in 0..count {
        row.push(c)?;
    }
    Ok(())
}

/// Writes the cell of a character that begins at this column.
fn push_cell(row: &mut String, column: usize, c: char) -> Result<(), AllocError>
    ensures { OnOk result (AddsCharacters (spec.cell_of column c).shown row.old row.new) }
{
    match c {
        '\t' => push_times(row, ' ', TAB_STOP - column % TAB_STOP),
        '\0'..='\x1f' => {
            row.push('^')?;
            row.push(char::from(c as u8 + 64))
        }
        '\x7f' => row.push_str("^?"),
        '\u{80}'..='\u{9f}' => row.push('?'),
        _ => row.push(c),
    }
}

/// The width of a line that begins at a column, where it ends at `end` at the latest.
pub(crate) fn width_between(line: &[char], start: usize, end: usize) -> Option<usize>
    requires { start ≤ end }
    ensures { result ≡ spec.width_if (spec.cells_from start line.now) (end - start) }
{
    let mut column = start;
    for c in line {
        let width = cell_width(column, *c);
        if width > end - column {
            return None;
        }
        column += width;
    }
    Some(column - start)
}

/// The width of the longest beginning of whole cells of a line that begins at a column, where that
/// is not to end behind `end`.
pub(crate) fn beginning_between(line: &[char], start: usize, end: usize) -> usize
    requires { start ≤ end }
    ensures exact { let cells = spec.cells_within (end - start) (spec.cells_from start line.now) in
        result ≡ spec.width_of cells }
    ensures fits { result ≤ end - start }
{
    let mut column = start;
    for c in line {
        let width = cell_width(column, *c);
        if width > end - column {
            return column - start;
        }
        column += width;
    }
    column - start
}

/// The width of the longest beginning of whole cells of a text whose width is at most `most`.
pub(crate) fn text_width(text: &str, most: usize) -> usize
    ensures { result ≡ spec.width_of (spec.cells_within most (spec.cells (chars text.now))) }
{
    let mut column = 0;
    for c in text.chars() {
        let width = cell_width(column, c);
        if width > most - column {
            return column;
        }
        column += width;
    }
    column
}

/// Writes the longest beginning of whole cells of a line that begins at a column, where that is not
/// to end behind `end`.
pub(crate) fn push_between(
    row: &mut String,
    line: &[char],
    start: usize,
    end: usize,
) -> Result<(), AllocError>
    requires { start ≤ end }
    ensures { let cells = spec.cells_within (end - start) (spec.cells_from start line.now) in
        OnOk result (AddsCharacters (spec.shown_cells cells) row.old row.new) }
{
    let mut column = start;
    for c in line {
        let width = cell_width(column, *c);
        if width > end - column {
            return Ok(());
        }
        push_cell(row, column, *c)?;
        column += width;
    }
    Ok(())
}
