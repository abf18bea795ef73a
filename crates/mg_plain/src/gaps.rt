//! Filling: the words of a paragraph into lines.
ghost use Rattle.std.specs.Prelude.{◌≡◌, ◌≤◌, ◌<◌, ◌++◌, ◌∷◌, ◌^◌, length, [], Ok, IfOk, filter, nat_eq};
ghost use Rattle.mg_plain.specs.Answer.{IsEffectAnswer};
ghost use lib.Pointwise.{pointwise};
ghost use Rattle.mg_plain.specs.Splices.{splice};
ghost use Rattle.mg_plain.specs.Gaps as spec;
ghost use Rattle.mg_plain.specs.Spans.{Span};

use crate::edit::{edit, splice};
use crate::line_ends::line_begin;
use crate::outcome::{Notice, Plan};
use crate::paragraphs::{first_nonblank, has_nonblank, paragraph_begin, paragraph_end, run_end};
use crate::view::View;
use rga_ops::Splice;
use std::alloc::{AllocError, Global};

/// Whether two lists are the same.
fn same(a: &[char], b: &[char]) -> bool
    ensures { result ≡ pointwise nat_eq a.now b.now }
{
    a == b
}

/// Adds the splice that makes a gap what it should be, unless it is just that.
fn push_gap(
    alloc: Global,
    splices: &mut Vec<Splice>,
    text: &[char],
    lo: usize,
    hi: usize,
    put: &[char],
) -> Result<(), AllocError>
    requires order { lo ≤ hi }
    requires within { hi ≤ length text.now }
    ensures { IfOk result (λ _. splices.new.items
        ≡ splices.old.items ++ filter (spec.alters text.now) (splice lo hi put.now ∷ [])) }
{
    if same(&text[lo..hi], put) {
        return Ok(());
    }
    let gap = splice(alloc, lo, hi, put)?;
    splices.push(gap)?;
    Ok(())
}

/// The same for the gap before a word; answers how many columns the word's line has at its end.
fn push_joint(
    alloc: Global,
    splices: &mut Vec<Splice>,
    text: &[char],
    at: usize,
    lo: usize,
    hi: usize,
    column: usize,
    used: Option<usize>,
) -> Result<usize, AllocError>
    requires order { at ≤ lo }
    requires word { lo < hi }
    requires within { hi ≤ length text.now }
    requires narrow { column < 2 ^ 16 }
    ensures { IfOk result (λ r. let word : Span = record { lo = lo; hi = hi } in
        (splices.new.items ≡ splices.old.items
        ++ filter (spec.alters text.now) (splice at lo (spec.joint column used word) ∷ []))
        × (r ≡ spec.columns column used word)) }
{
    match used {
        None => {
            push_gap(alloc, splices, text, at, lo, &[])?;
            Ok(hi - lo)
        }
        Some(used) => {
            // Whether the word goes into the line, behind one space.
            if used < column && hi - lo < column - used {
                push_gap(alloc, splices, text, at, lo, &[' '])?;
                Ok(used + 1 + (hi - lo))
            } else {
                push_gap(alloc, splices, text, at, lo, &['\n'])?;
                Ok(hi - lo)
            }
        }
    }
}

/// The splices that fill what stands between two places, falling.
fn fill_between(
    alloc: Global,
    text: &[char],
    lo: usize,
    hi: usize,
    column: usize,
) -> Result<Vec<Splice>, AllocError>
    requires order { lo ≤ hi }
    requires within { hi ≤ length text.now }
    requires narrow { column < 2 ^ 16 }
    ensures { IfOk result (λ v. v.items
        ≡ spec.filling column text.now (record { lo = lo; hi = hi })) }
{
    let mut splices = Vec::new(alloc);
    let mut at = lo;
    let mut used = None;
    while let Some(begin) = first_nonblank(text, at, hi) {
        let end = run_end(text, begin, hi);
        let columns = push_joint(alloc, &mut splices, text, at, begin, end, column, used)?;
        used = Some(columns);
        at = end;
    }
    push_gap(alloc, &mut splices, text, at, hi, &[])?;
    splices.reverse();
    Ok(splices)
}

/// The splices that fill the paragraph round a place, falling, so that its words stand in lines of
/// at most so many columns, with one space between (fill-paragraph of mg(1)); none where that
/// place's line holds only spaces and tabs. A word that is longer has a line of its own.
/// `AllocError` alone.
pub fn paragraph_splices(
    alloc: Global,
    text: &[char],
    point: usize,
    column: usize,
) -> Result<Vec<Splice>, AllocError>
    requires within { point ≤ length text.now }
    requires narrow { column < 2 ^ 16 }
    ensures { IfOk result (λ v. v.items ≡ spec.paragraph_filling column text.now point) }
{
    if !has_nonblank(text, line_begin(text, point)) {
        return Ok(Vec::new(alloc));
    }
    let lo = paragraph_begin(text, point);
    let hi = paragraph_end(text, point);
    fill_between(alloc, text, lo, hi, column)
}

pub(crate) fn fill_paragraph(alloc: Global, view: &View<'_>, column: u16) -> Result<Plan, Notice>
    ensures { IsEffectAnswer result (Ok (spec.fill_paragraph column view.now)) }
{
    let splices = paragraph_splices(alloc, view.text, view.point, usize::from(column))?;
    edit(view, splices)
}
