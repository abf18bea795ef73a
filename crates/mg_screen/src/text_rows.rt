//! The text rows of a window.
ghost use Rattle.std.specs.Prelude.{◌≡◌, ◌≤◌, ◌<◌, ◌+◌, length, drop, IfOk, OnOk};
ghost use Rattle.mg_screen.specs.Written.{Spells, AddsRows};
ghost use Rattle.mg_screen.specs.Lines.{lines_on};
ghost use Rattle.mg_screen.specs.Frame as spec;

use crate::lines::line_end;
use crate::rows::{push_row, text_row};
use std::alloc::{AllocError, Global};

/// The row of the line that begins at a place, and where the next line begins.
fn next_row(
    alloc: Global,
    columns: usize,
    text: &[char],
    start: usize,
) -> Result<(String, usize), AllocError>
    requires some { 0 < columns }
    requires within { start ≤ length text.now + 1 }
    ensures row { let rest = lines_on text.now start in
        IfOk result (λ r. Spells (spec.first_row columns rest) r.0) }
    ensures next { let rest = lines_on text.now start in
        IfOk result (λ r. lines_on text.now r.1 ≡ drop 1 rest) }
    ensures bound { IfOk result (λ r. r.1 ≤ length text.now + 1) }
{
    if start > text.len() {
        return Ok((String::new(alloc), start));
    }
    let end = line_end(text, start);
    let row = text_row(alloc, columns, &text[start..end])?;
    Ok((row, end + 1))
}

/// So many rows more, which show the lines from the one on that begins at a place.
pub(crate) fn push_text_rows(
    alloc: Global,
    columns: usize,
    height: usize,
    text: &[char],
    begin: usize,
    rows: &mut Vec<String>,
) -> Result<(), AllocError>
    requires some { 0 < columns }
    requires within { begin ≤ length text.now + 1 }
    ensures { let shown = lines_on text.now begin in
        OnOk result (AddsRows (spec.text_rows columns height shown) rows.old.items rows.new.items) }
{
    let mut start = begin;
    for _i in 0..height {
        let (row, next) = next_row(alloc, columns, text, start)?;
        push_row(rows, row)?;
        start = next;
    }
    Ok(())
}
