//! The mode line of a window.
ghost use Rattle.std.specs.Prelude.{◌≡◌, IfOk, string_bytes, chars};
ghost use Rattle.mg_screen.specs.Written.{Spells};
ghost use Rattle.mg_screen.specs.Rows.{filled_row};
ghost use Rattle.mg_screen.specs.Frame as spec;

use crate::lines::column_of;
use crate::rows::{characters, filled_row};
use crate::screen::Pane;
use std::alloc::{AllocError, Global};

fn changed_mark(changed: bool) -> &'static str
    ensures { result.now ≡ spec.changed_mark changed }
{
    if changed { "-**-" } else { "----" }
}

fn mode_line(
    alloc: Global,
    mark: &str,
    name: &str,
    line: usize,
    column: usize,
    waiting: usize,
) -> Result<String, AllocError>
    ensures { let said = spec.mode_line mark.now name.now line column waiting in
        IfOk result (λ text. string_bytes text ≡ said) }
{
    format!(in alloc; "{mark}Mg: {name} (fundamental) L{line} C{column} W{waiting}")
}

fn mode_text(alloc: Global, pane: &Pane) -> Result<String, AllocError>
    ensures { IfOk result (λ text. string_bytes text ≡ spec.mode_text pane.now) }
{
    let mark = changed_mark(pane.changed);
    let column = column_of(pane.text.as_slice(), pane.point);
    let number = pane.line + 1;
    mode_line(
        alloc,
        mark,
        pane.name.as_str(),
        number,
        column,
        pane.waiting,
    )
}

/// What the mode line says, filled with hyphens or cut.
pub(crate) fn mode_row(alloc: Global, columns: usize, pane: &Pane) -> Result<String, AllocError>
    ensures { let said = chars (spec.mode_text pane.now) in
        IfOk result (λ row. Spells (filled_row columns said) row) }
{
    let text = mode_text(alloc, pane)?;
    filled_row(alloc, columns, &characters(alloc, text.as_str())?)
}
