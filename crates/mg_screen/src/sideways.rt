//! The row of a line that begins further right than the line, so that it shows point.
ghost use Rattle.std.specs.Prelude.{◌≡◌, ◌≤◌, ◌<◌, ◌+◌, ◌-◌, ◌*◌, length, take, IfOk, IfSome};
ghost use Rattle.mg_screen.specs.Size.{least_columns, most_columns};
ghost use Rattle.mg_screen.specs.Cells.{cells, cell_of, cells_from, width_of, tab_stop};
ghost use Rattle.mg_screen.specs.Written.{Spells};
ghost use Rattle.mg_screen.specs.Sideways as spec;

use crate::cells::{TAB_STOP, beginning_between, cell_width, push_times, width_between};
use crate::rows::push_line;
use std::alloc::{AllocError, Global};

/// What is left of a line behind some columns: blanks in place of a cell that is cut, and then
/// characters, of which the first begins at a column. Columns that differ by tab stops are the same
/// here.
#[derive(Clone, Copy)]
struct Rest<'a> {
    blanks: usize,
    column: usize,
    line: &'a [char],
}

/// The width of the cells of a line.
pub(crate) fn line_width(line: &[char]) -> usize
    ensures exact { result ≡ width_of (cells line.now) }
{
    let mut column = 0;
    for c in line {
        column += cell_width(column, *c);
    }
    column
}

/// The column behind so many characters of a line, where its plain row has no room for that.
pub(crate) fn line_beyond(columns: usize, line: &[char], count: usize) -> Option<usize>
    requires wide { least_columns ≤ columns }
    requires within { count ≤ length line.now }
    ensures exact { result ≡ spec.line_beyond columns line.now count }
    ensures beyond { IfSome result (λ column. columns ≤ column + 1) }
{
    let column = line_width(&line[..count]);
    if column >= columns {
        return Some(column);
    }
    if column + 1 < columns {
        return None;
    }
    match width_between(line, 0, columns) {
        Some(_) => None,
        None => Some(column),
    }
}

/// The column of a line at which its row begins, so that it shows this column in its middle half.
pub(crate) fn left_of(columns: usize, column: usize) -> usize
    requires wide { least_columns ≤ columns }
    requires beyond { columns ≤ column + 1 }
    ensures exact { result ≡ spec.left_of columns column }
    ensures before { result < column }
{
    column - column % (columns / 2) - columns / 4
}

/// What is left of a line that begins at a column behind one more column, in its first cell.
fn rest_at(line: &[char], column: usize, skip: usize) -> Rest<'_>
    requires some { 0 < length line.now }
    requires from { column ≤ skip }
    requires to { skip - column < width_of (cells_from column (take 1 line.now)) }
    ensures exact { spec.rest_cells result.blanks result.column result.line.now ≡
        spec.cells_behind (skip - column) (cells_from column line.now) }
    ensures blanks { result.blanks ≤ tab_stop }
    ensures column { result.column < tab_stop + tab_stop }
{
    if column == skip {
        return Rest {
            blanks: 0,
            column: column % TAB_STOP,
            line,
        };
    }
    let width = cell_width(column, line[0]);
    Rest {
        blanks: width - (skip - column),
        column: column % TAB_STOP + width,
        line: &line[1..],
    }
}

/// What is left of a line behind so many columns.
fn rest_behind(line: &[char], skip: usize) -> Rest<'_>
    ensures exact { spec.rest_cells result.blanks result.column result.line.now ≡
        spec.cells_behind skip (cells line.now) }
    ensures blanks { result.blanks ≤ tab_stop }
    ensures column { result.column < tab_stop + tab_stop }
{
    let mut column = 0;
    for (i, c) in line.iter().enumerate() {
        let width = cell_width(column, *c);
        if width > skip - column {
            return rest_at(&line[i..], column, skip);
        }
        column += width;
    }
    Rest {
        blanks: 0,
        column: 0,
        line: &line[line.len()..],
    }
}

/// The row of a line that shows this column of it, behind a `$`.
pub(crate) fn sideways_row(
    alloc: Global,
    columns: usize,
    line: &[char],
    column: usize,
) -> Result<String, AllocError>
    requires wide { least_columns ≤ columns }
    requires narrow { columns ≤ most_columns }
    requires beyond { columns ≤ column + 1 }
    ensures { IfOk result (λ row. Spells (spec.sideways_row columns column line.now) row) }
{
    let rest = rest_behind(line, left_of(columns, column) + 1);
    let end = rest.column + (columns - 1 - rest.blanks);
    let mut row = String::new(alloc);
    row.push('$')?;
    push_times(&mut row, ' ', rest.blanks)?;
    push_line(&mut row, rest.line, rest.column, end)?;
    Ok(row)
}

/// Up to which column, from the first on, the row of the cells of a line that begins at a column
/// shows what it is of, where it ends at `end` at the latest.
pub(crate) fn row_end(line: &[char], start: usize, end: usize) -> usize
    requires { start < end }
    ensures exact { result ≡ spec.row_end (end - start) (cells_from start line.now) }
    ensures fits { result ≤ end - start }
{
    if width_between(line, start, end).is_some() {
        return end - start;
    }
    beginning_between(line, start, end - 1)
}

/// Up to which column the row that shows this column of a line shows what it is of.
pub(crate) fn sideways_end(columns: usize, line: &[char], column: usize) -> usize
    requires wide { least_columns ≤ columns }
    requires narrow { columns ≤ most_columns }
    requires beyond { columns ≤ column + 1 }
    ensures { result ≡ 1 + spec.row_end (columns - 1) (spec.cells_right columns column line.now) }
{
    let rest = rest_behind(line, left_of(columns, column) + 1);
    let end = rest.column + (columns - 1 - rest.blanks);
    1 + rest.blanks + row_end(rest.line, rest.column, end)
}
