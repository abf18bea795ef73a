//! A row of the screen, written from a line.
ghost use Rattle.std.specs.Prelude.{◌≡◌, ◌<◌, ◌-◌, ◌++◌, [], ◌∷◌, map, chars, IfOk, OnOk};
ghost use Rattle.std.specs.Prelude.{string_bytes};
ghost use Rattle.mg_screen.specs.Cells.{cells_from};
ghost use Rattle.mg_screen.specs.Written.{Spells, AddsCharacters};
ghost use Rattle.mg_screen.specs.Rows as spec;

use crate::cells::{push_between, push_times, width_between};
use std::alloc::{AllocError, Global};

/// Writes the cells of a line that begins at a column: all where they end at `end` at the latest,
/// else those that leave room for a `$`, and that.
pub(crate) fn push_line(
    row: &mut String,
    line: &[char],
    start: usize,
    end: usize,
) -> Result<(), AllocError>
    requires { start < end }
    ensures { let shown = spec.row_of (end - start) (cells_from start line.now) in
        OnOk result (AddsCharacters shown row.old row.new) }
{
    if width_between(line, start, end).is_some() {
        push_between(row, line, start, end)?;
        return Ok(());
    }
    push_between(row, line, start, end - 1)?;
    row.push('$')?;
    Ok(())
}

/// A line of a text in its row: whole, or cut and ended by a `$`.
pub(crate) fn text_row(alloc: Global, columns: usize, line: &[char]) -> Result<String, AllocError>
    requires { 0 < columns }
    ensures { IfOk result (λ row. Spells (spec.text_row columns line.now) row) }
{
    let mut row = String::new(alloc);
    push_line(&mut row, line, 0, columns)?;
    Ok(row)
}

/// A text cut to the columns.
pub(crate) fn cut_row(alloc: Global, columns: usize, text: &[char]) -> Result<String, AllocError>
    ensures { IfOk result (λ row. Spells (spec.cut_row columns text.now) row) }
{
    let mut row = String::new(alloc);
    push_between(&mut row, text, 0, columns)?;
    Ok(row)
}

/// A text cut to the columns, or filled with hyphens.
pub(crate) fn filled_row(alloc: Global, columns: usize, text: &[char]) -> Result<String, AllocError>
    ensures { IfOk result (λ row. Spells (spec.filled_row columns text.now) row) }
{
    let mut row = cut_row(alloc, columns, text)?;
    let Some(width) = width_between(text, 0, columns) else {
        return Ok(row);
    };
    push_times(&mut row, '-', columns - width)?;
    Ok(row)
}

/// The characters of a string.
pub(crate) fn characters(alloc: Global, text: &str) -> Result<Vec<char>, AllocError>
    ensures { IfOk result (λ cs. cs.items ≡ chars text.now) }
{
    text.chars().collect(alloc)
}

/// One row more.
pub(crate) fn push_row(rows: &mut Vec<String>, row: String) -> Result<(), AllocError>
    ensures { let old = map string_bytes rows.old.items in
        OnOk result (map string_bytes rows.new.items ≡ old ++ string_bytes row ∷ []) }
{
    rows.push(row)?;
    Ok(())
}
