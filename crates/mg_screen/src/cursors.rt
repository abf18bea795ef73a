//! Where the cursor stands in a frame.
ghost use Rattle.std.specs.Prelude.{◌≡◌, ◌≤◌, ◌<◌, ◌+◌, length, sum_by};
ghost use Rattle.mg_screen.specs.Size.{most_rows, least_columns};
ghost use Rattle.mg_screen.specs.Cells.{width_of};
ghost use Rattle.mg_screen.specs.Frame.{screen_rows};
ghost use Rattle.mg_screen.specs.Cursor as spec;

use crate::cells::{beginning_between, text_width, width_between};
use crate::lines::{column_of, line_at};
use crate::screen::{Pane, Position, Screen};

/// How many columns the cells of a line take that its row shows.
fn row_width(columns: usize, line: &[char]) -> usize
    requires { 0 < columns }
    ensures { result ≡ width_of (spec.row_cells columns line.now) }
{
    match width_between(line, 0, columns) {
        Some(width) => width,
        None => beginning_between(line, 0, columns - 1),
    }
}

/// The column of the cursor behind so many characters of a line.
fn column_behind(columns: usize, line: &[char], count: usize) -> usize
    requires some { 0 < columns }
    requires within { count ≤ length line.now }
    ensures { result ≡ spec.column_behind columns line.now count }
{
    let last = row_width(columns, line).min(columns - 1);
    match width_between(&line[..count], 0, last) {
        Some(width) => width,
        None => last,
    }
}

/// The column of the cursor at a place of a text.
fn place_column(columns: usize, text: &[char], place: usize) -> usize
    requires some { 0 < columns }
    requires within { place ≤ length text.now }
    ensures { result ≡ spec.place_column columns text.now place }
{
    let count = column_of(text, place);
    column_behind(columns, line_at(text, place, count), count)
}

/// The cursor of a window that stands below so many rows.
pub(crate) fn pane_cursor(columns: usize, above: usize, pane: &Pane) -> Option<Position>
    requires some { 0 < columns }
    requires above { above ≤ most_rows }
    ensures { result ≡ spec.pane_cursor columns above pane.now }
{
    let line = pane.line;
    if line < pane.first || line - pane.first >= pane.height {
        return None;
    }
    Some(Position {
        row: above + (line - pane.first),
        column: place_column(columns, pane.text.as_slice(), pane.point),
    })
}

/// The rows of the windows above an index, each with its mode line.
pub(crate) fn rows_above(screen: &Screen, index: usize) -> usize
    requires rows_to { screen_rows screen.now ≤ most_rows }
    requires within { index ≤ length screen.now.panes }
    ensures exact { result ≡ spec.rows_above index screen.now.panes }
    ensures few { result < most_rows }
{
    let mut rows = 0;
    for pane in &screen.panes[..index] {
        rows += pane.height + 1;
    }
    rows
}

/// Where the cursor of a frame stands that is at point, in the window at this index from the top:
/// in the row of point's line, and in the column where the cell at point begins. Behind what the
/// row shows of the line it stands at the end of that, on the `$` where there is one, and never
/// behind the last column. `None` where there is no such window, or where it does not show point's
/// line (`first_line` has it shown). Takes no memory.
pub fn cursor(columns: usize, screen: &Screen, index: usize) -> Option<Position>
    requires rows_to { screen_rows screen.now ≤ most_rows }
    requires columns_from { least_columns ≤ columns }
    ensures { result ≡ spec.cursor columns screen.now index }
{
    let pane = screen.panes.get(index)?;
    pane_cursor(columns, rows_above(screen, index), pane)
}

/// Where the cursor of a frame stands that is behind the text of the echo line: in the last row, at
/// the end of what that shows, and never behind the last column. Takes no memory.
pub fn echo_cursor(columns: usize, screen: &Screen) -> Position
    requires rows_to { screen_rows screen.now ≤ most_rows }
    requires columns_from { least_columns ≤ columns }
    ensures { result ≡ spec.echo_cursor columns screen.now }
{
    Position {
        row: rows_above(screen, screen.panes.as_slice().len()),
        column: text_width(screen.echo.as_str(), columns).min(columns - 1),
    }
}
