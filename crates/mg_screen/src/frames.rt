//! The whole screen as rows of characters.
ghost use Rattle.std.specs.Prelude.{◌≡◌, ◌≤◌, ◌<◌, ◌+◌, length, map, chars, slice_set};
ghost use Rattle.std.specs.Prelude.{string_bytes, IfOk, OnOk, IfSome};
ghost use Rattle.mg_screen.specs.Size.{least_rows, most_rows};
ghost use Rattle.mg_screen.specs.Size.{least_columns, most_columns};
ghost use Rattle.mg_screen.specs.Lines.{line_index};
ghost use Rattle.mg_screen.specs.Frame.{pane_rows, rows_by, screen_rows};
ghost use Rattle.mg_screen.specs.Written.{SpellRows, AddsRows};
ghost use Rattle.mg_screen.specs.Sideways as spec;

use crate::lines::{column_of, line_at, line_start};
use crate::mode_line::mode_row;
use crate::rows::{characters, cut_row, push_row};
use crate::screen::{Pane, Screen};
use crate::sideways::{line_beyond, sideways_row};
use crate::text_rows::push_text_rows;
use rga_ops::OutOfMemory;
use std::alloc::{AllocError, Global};

/// The column of point, where the row of its line is to begin further right.
pub(crate) fn column_beyond(columns: usize, pane: &Pane) -> Option<usize>
    requires { least_columns ≤ columns }
    ensures exact { result ≡ spec.column_beyond columns pane.now }
    ensures beyond { IfSome result (λ column. columns ≤ column + 1) }
    ensures from { IfSome result
        (λ column. pane.now.first ≤ line_index pane.now.text pane.now.point) }
    ensures to { IfSome result (λ column. spec.point_row pane.now < pane.now.height) }
{
    let line = pane.line;
    if line < pane.first || line - pane.first >= pane.height {
        return None;
    }
    let text = pane.text.as_slice();
    let count = column_of(text, pane.point);
    line_beyond(columns, line_at(text, pane.point, count), count)
}

/// Another row in the place of one.
fn put_row(rows: &mut Vec<String>, index: usize, row: String)
    requires { index < length rows.old.items }
    ensures { let old = map string_bytes rows.old.items in
        map string_bytes rows.new.items ≡ slice_set old index (string_bytes row) }
{
    rows[index] = row;
}

/// The rows of one window more: its text rows and its mode line.
fn push_pane(
    alloc: Global,
    columns: usize,
    pane: &Pane,
    rows: &mut Vec<String>,
) -> Result<(), AllocError>
    requires { 0 < columns }
    ensures { OnOk result
        (AddsRows (pane_rows columns pane.now) rows.old.items rows.new.items) }
{
    let text = pane.text.as_slice();
    let begin = line_start(text, pane.point, pane.line, pane.first);
    push_text_rows(alloc, columns, pane.height, text, begin, rows)?;
    push_row(rows, mode_row(alloc, columns, pane)?)
}

/// The same, where that of point begins further right if the window is to show point.
fn push_pane_by(
    alloc: Global,
    at_point: bool,
    columns: usize,
    pane: &Pane,
    rows: &mut Vec<String>,
) -> Result<(), AllocError>
    requires wide { least_columns ≤ columns }
    requires narrow { columns ≤ most_columns }
    ensures { OnOk result
        (AddsRows (spec.pane_rows_by at_point columns pane.now) rows.old.items rows.new.items) }
{
    let above = rows.as_slice().len();
    push_pane(alloc, columns, pane, rows)?;
    if !at_point {
        return Ok(());
    }
    let Some(column) = column_beyond(columns, pane) else {
        return Ok(());
    };
    let text = pane.text.as_slice();
    let line = line_at(text, pane.point, column_of(text, pane.point));
    let row = sideways_row(alloc, columns, line, column)?;
    put_row(rows, above + (pane.line - pane.first), row);
    Ok(())
}

/// The rows of the windows, and the echo line.
fn all_rows(
    alloc: Global,
    at_point: bool,
    columns: usize,
    screen: &Screen,
) -> Result<Vec<String>, AllocError>
    requires wide { least_columns ≤ columns }
    requires narrow { columns ≤ most_columns }
    ensures { let shown = rows_by (spec.pane_rows_by at_point columns) columns screen.now in
        IfOk result (λ rows. SpellRows shown rows.items) }
{
    let mut rows = Vec::new(alloc);
    for pane in &screen.panes {
        push_pane_by(alloc, at_point, columns, pane, &mut rows)?;
    }
    let echo = characters(alloc, screen.echo.as_str())?;
    push_row(&mut rows, cut_row(alloc, columns, &echo)?)?;
    Ok(rows)
}

/// The frame of a screen, as mg(1) draws it: for each window its text rows and its mode line, then
/// the echo line. Rows are not filled with blanks.
/// `rows` are those that the windows and the echo line take. Out of memory is the only fault.
pub fn frame(
    alloc: Global,
    rows: usize,
    columns: usize,
    screen: &Screen,
) -> Result<Vec<String>, OutOfMemory>
    requires whole { spec.screen_rows screen.now ≡ rows }
    requires rows_from { least_rows ≤ rows }
    requires rows_to { rows ≤ most_rows }
    requires columns_from { least_columns ≤ columns }
    requires columns_to { columns ≤ most_columns }
    ensures exact { IfOk result
        (λ frame. SpellRows (spec.frame_rows columns screen.now) frame.items) }
    ensures count { IfOk result (λ frame. length frame.items ≡ rows) }
{
    Ok(all_rows(alloc, false, columns, screen)?)
}

/// The frame of a screen, as mg(1) draws it: `frame`, but in each window the row of point's line
/// begins further right if point's column is behind the last one, or is the last one of a line that
/// is cut. Such a row has a `$` in its first column, and point's column in its middle half. What is
/// left of a wide cell behind the `$` is blank, and another `$` ends the row if the line goes on.
/// `rows` are those that the windows and the echo line take. Out of memory is the only fault.
pub fn frame_at_point(
    alloc: Global,
    rows: usize,
    columns: usize,
    screen: &Screen,
) -> Result<Vec<String>, OutOfMemory>
    requires whole { screen_rows screen.now ≡ rows }
    requires rows_from { least_rows ≤ rows }
    requires rows_to { rows ≤ most_rows }
    requires columns_from { least_columns ≤ columns }
    requires columns_to { columns ≤ most_columns }
    ensures exact { IfOk result
        (λ frame. SpellRows (spec.rows_at_point columns screen.now) frame.items) }
    ensures count { IfOk result (λ frame. length frame.items ≡ rows) }
{
    Ok(all_rows(alloc, true, columns, screen)?)
}
