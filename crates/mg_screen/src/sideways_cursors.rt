//! Where cursors stand in a frame in which each window shows point.
ghost use Rattle.std.specs.Prelude.{◌≡◌, ℕ, ◌≤◌, ◌<◌, ◌+◌, length, IfSome};
ghost use Rattle.mg_screen.specs.Size.{most_rows, least_columns, most_columns};
ghost use Rattle.mg_screen.specs.Lines.{line_index};
ghost use Rattle.mg_screen.specs.Frame.{screen_rows};
ghost use Rattle.mg_screen.specs.Sideways as spec;

use crate::cursors::{pane_cursor, rows_above};
use crate::frames::column_beyond;
use crate::lines::{column_of, line_at, newlines_of};
use crate::screen::{Pane, Position, Screen};
use crate::sideways::{left_of, line_width, row_end, sideways_end};

/// The cursor of a window that stands below so many rows.
fn pane_cursor_at_point(columns: usize, above: usize, pane: &Pane) -> Option<Position>
    requires wide { least_columns ≤ columns }
    requires above { above ≤ most_rows }
    ensures { result ≡ spec.pane_cursor_at_point columns above pane.now }
{
    let Some(column) = column_beyond(columns, pane) else {
        return pane_cursor(columns, above, pane);
    };
    Some(Position {
        row: above + (pane.line - pane.first),
        column: column - left_of(columns, column),
    })
}

/// Where the cursor of a `frame_at_point` stands that is at point, in the window at this index from
/// the top: as `cursor` says, but in a row that begins further right the column in which the cell at
/// point begins there. `None` where there is no such window, or where it does not show point's line.
/// Takes no memory.
pub fn cursor_at_point(columns: usize, screen: &Screen, index: usize) -> Option<Position>
    requires rows_to { screen_rows screen.now ≤ most_rows }
    requires columns_from { least_columns ≤ columns }
    ensures { result ≡ spec.cursor_at_point columns screen.now index }
{
    let pane = screen.panes.get(index)?;
    pane_cursor_at_point(columns, rows_above(screen, index), pane)
}

/// The line of a place.
fn line_of_place(pane: &Pane, place: usize) -> usize
    requires { place ≤ length pane.now.text }
    ensures { result ≡ line_index pane.now.text place }
{
    let text = pane.text.as_slice();
    if place <= pane.point {
        return pane.line - newlines_of(&text[place..pane.point]);
    }
    pane.line + newlines_of(&text[pane.point..place])
}

/// A column, where it is before an end.
fn column_before(end: usize, column: usize) -> Option<usize>
    ensures { result ≡ spec.column_before end column }
{
    if column < end { Some(column) } else { None }
}

/// Where the row of a line shows a column of it. The row begins further right if `beyond` is the
/// column of point.
fn shown_column(
    columns: usize,
    line: &[char],
    column: usize,
    beyond: Option<usize>,
) -> Option<usize>
    requires wide { least_columns ≤ columns }
    requires narrow { columns ≤ most_columns }
    requires beyond { IfSome beyond (λ point. columns ≤ point + 1) }
    ensures { result ≡ spec.shown_column columns line.now column beyond }
{
    let Some(point) = beyond else {
        return column_before(row_end(line, 0, columns), column);
    };
    let left = left_of(columns, point);
    if column <= left {
        return None;
    }
    column_before(sideways_end(columns, line, point), column - left)
}

/// The column of point in the line of a place, where its row is to begin further right.
fn beyond_with(columns: usize, pane: &Pane, place: usize, line: usize) -> Option<usize>
    requires wide { least_columns ≤ columns }
    requires line { line ≡ line_index pane.now.text place }
    ensures exact { result ≡ spec.beyond_with columns pane.now place }
    ensures beyond { IfSome result (λ point. columns ≤ point + 1) }
{
    if line == pane.line {
        return column_beyond(columns, pane);
    }
    None
}

/// The column of the screen that shows a place of a line.
fn place_shown(columns: usize, pane: &Pane, place: usize, line: usize) -> Option<usize>
    requires wide { least_columns ≤ columns }
    requires narrow { columns ≤ most_columns }
    requires within { place ≤ length pane.now.text }
    requires line { line ≡ line_index pane.now.text place }
    ensures { result ≡ spec.place_shown columns pane.now place }
{
    let count = column_of(pane.text.as_slice(), place);
    let text = line_at(pane.text.as_slice(), place, count);
    let column = line_width(&text[..count]);
    shown_column(
        columns,
        text,
        column,
        beyond_with(columns, pane, place, line),
    )
}

/// The cell of a place of the text of a window that stands below so many rows.
fn pane_cell(columns: usize, above: usize, place: usize, pane: &Pane) -> Option<Position>
    requires wide { least_columns ≤ columns }
    requires narrow { columns ≤ most_columns }
    requires above { above ≤ most_rows }
    ensures { result ≡ spec.pane_cell columns above place pane.now }
{
    if place > pane.text.len() {
        return None;
    }
    let line = line_of_place(pane, place);
    if line < pane.first || line - pane.first >= pane.height {
        return None;
    }
    let Some(column) = place_shown(columns, pane, place, line) else {
        return None;
    };
    Some(Position {
        row: above + (line - pane.first),
        column,
    })
}

/// The cell in which a `frame_at_point` shows what stands behind a place of the text of the window
/// at this index from the top. `None` where there is no such window, where its text has no such
/// place, where the window does not show the line of the place, and where the row of that does not
/// show the column of the place: left of what the row shows of its line, on a `$`, or behind the
/// last column. Takes no memory.
pub fn cell_of_place(
    columns: usize,
    screen: &Screen,
    index: usize,
    place: usize,
) -> Option<Position>
    requires rows_to { screen_rows screen.now ≤ most_rows }
    requires columns_from { least_columns ≤ columns }
    requires columns_to { columns ≤ most_columns }
    ensures { result ≡ spec.cell_of_place columns screen.now index place }
{
    let pane = screen.panes.get(index)?;
    pane_cell(columns, rows_above(screen, index), place, pane)
}
