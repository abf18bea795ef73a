//! Insertions at point.
ghost use Rattle.std.specs.Prelude.{◌≡◌, ◌∷◌, replicate, take_while, IfOk, Ok};
ghost use Rattle.mg_plain.specs.Characters.{is_blank, newline_character};
ghost use Rattle.mg_plain.specs.Answer.{IsEffectAnswer};
ghost use Rattle.mg_plain.specs.Insertions as spec;

use crate::characters::is_blank;
use crate::edit::change;
use crate::line_begin;
use crate::outcome::{Notice, Plan};
use crate::view::View;
use rga_ops::counted_together;
use std::alloc::{AllocError, Global};

/// Characters at point, which goes behind them.
pub(crate) fn type_in(alloc: Global, view: &View<'_>, chars: Vec<char>) -> Result<Plan, Notice>
    ensures { IsEffectAnswer result (Ok (spec.typing view.now chars.items)) }
{
    let count = chars.as_slice().len();
    let plan = change(alloc, view, view.point, view.point, chars)?;
    let point = counted_together(view.point, count)?;
    Ok(Plan { point, ..plan })
}

fn repeated(alloc: Global, ch: char, n: u16) -> Result<Vec<char>, AllocError>
    ensures { IfOk result (λ v. v.items ≡ replicate n ch) }
{
    Ok(vec![in alloc; ch; usize::from(n)]?)
}

pub(crate) fn insert(alloc: Global, view: &View<'_>, ch: char, n: u16) -> Result<Plan, Notice>
    ensures { IsEffectAnswer result (Ok (spec.insert ch n view.now)) }
{
    type_in(alloc, view, repeated(alloc, ch, n)?)
}

pub(crate) fn open_line(alloc: Global, view: &View<'_>, n: u16) -> Result<Plan, Notice>
    ensures { IsEffectAnswer result (Ok (spec.open_line n view.now)) }
{
    let newlines = repeated(alloc, '\n', n)?;
    change(alloc, view, view.point, view.point, newlines)
}

/// A newline and the blanks that the line begins with.
fn newline_and_blanks(alloc: Global, line: &[char]) -> Result<Vec<char>, AllocError>
    ensures { IfOk result (λ v. v.items ≡ newline_character ∷ take_while is_blank line.now) }
{
    let mut put = vec![in alloc; '\n']?;
    for c in line {
        if !is_blank(*c) {
            return Ok(put);
        }
        put.push(*c)?;
    }
    Ok(put)
}

pub(crate) fn newline_and_indent(alloc: Global, view: &View<'_>) -> Result<Plan, Notice>
    ensures { IsEffectAnswer result (Ok (spec.newline_and_indent view.now)) }
{
    let begin = line_begin(view.text, view.point);
    let put = newline_and_blanks(alloc, &view.text[begin..view.point])?;
    type_in(alloc, view, put)
}

pub(crate) fn yank(alloc: Global, view: &View<'_>) -> Result<Plan, Notice>
    ensures { IsEffectAnswer result (Ok (spec.yank view.now)) }
{
    let plan = type_in(alloc, view, Vec::from_slice(alloc, view.kill)?)?;
    Ok(Plan {
        mark: Some(view.point),
        ..plan
    })
}
