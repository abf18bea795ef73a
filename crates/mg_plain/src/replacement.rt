//! Searches, which take no memory, and replacements of matches and of a range.
ghost use Rattle.std.specs.Prelude.{◌≡◌, ◌≤◌, ◌<◌, length, true, Ok, IfOk};
ghost use Rattle.mg_plain.specs.Answer.{IsEffectAnswer};
ghost use Rattle.mg_plain.specs.Replacement as spec;

use crate::edit::{carry_over, change, edit, edit_once};
use crate::matching::{find, first_match, stands_at};
use crate::motions::move_to;
use crate::outcome::{Notice, Plan};
use crate::splice;
use crate::steps::Direction;
use crate::view::View;
use rga_ops::Splice;
use std::alloc::{AllocError, Global};

pub(crate) fn search_forward(
    alloc: Global,
    view: &View<'_>,
    pattern: &[char],
    start: usize,
) -> Result<Plan, Notice>
    ensures { result ≡ spec.search_forward pattern.now start view.now }
{
    match find(Direction::Forward, view.text, pattern, start) {
        None => Err(Notice::SearchFailed),
        Some(i) => Ok(move_to(alloc, view, i + pattern.len())),
    }
}

pub(crate) fn search_backward(
    alloc: Global,
    view: &View<'_>,
    pattern: &[char],
    start: usize,
) -> Result<Plan, Notice>
    ensures { result ≡ spec.search_backward pattern.now start view.now }
{
    match find(Direction::Backward, view.text, pattern, start) {
        None => Err(Notice::SearchFailed),
        Some(i) => Ok(move_to(alloc, view, i)),
    }
}

/// Whether a match ends at point, of a pattern that is not empty.
fn stands_before_point(pattern: &[char], view: &View<'_>) -> bool
    ensures exact { result ≡ spec.stands_before_point pattern.now view.now }
    ensures some { result ≡ true → 0 < length pattern.now }
{
    if pattern.is_empty() || pattern.len() > view.point {
        return false;
    }
    stands_at(pattern, view.text, view.point - pattern.len())
}

/// The splices that replace the match that ends at point and all that follow, falling, and the end
/// of the last one.
fn replacements(
    alloc: Global,
    pattern: &[char],
    put: &[char],
    text: &[char],
    point: usize,
) -> Result<(Vec<Splice>, usize), AllocError>
    requires some { 0 < length pattern.now }
    requires within { point ≤ length text.now }
    ensures { IfOk result (λ r. let matches = spec.all_matches pattern.now text.now point in
        (r.0.items ≡ spec.replacements put.now matches) × (r.1 ≡ spec.last_end point matches)) }
{
    let mut end = point;
    let mut splices = Vec::new(alloc);
    let first = splice(alloc, point.saturating_sub(pattern.len()), point, put)?;
    splices.push(first)?;
    while let Some(i) = first_match(pattern, text, end) {
        end = i + pattern.len();
        let next = splice(alloc, i, end, put)?;
        splices.push(next)?;
    }
    splices.reverse();
    Ok((splices, end))
}

pub(crate) fn replace_all(
    alloc: Global,
    pattern: &[char],
    put: &[char],
    view: &View<'_>,
) -> Result<Plan, Notice>
    ensures { IsEffectAnswer result (spec.replace_all pattern.now put.now view.now) }
{
    if !stands_before_point(pattern, view) {
        return Err(Notice::SearchFailed);
    }
    let (splices, end) = replacements(alloc, pattern, put, view.text, view.point)?;
    let point = carry_over(splices.as_slice(), end)?;
    let plan = edit(view, splices)?;
    Ok(Plan { point, ..plan })
}

pub(crate) fn replace_one(
    alloc: Global,
    pattern: &[char],
    put: &[char],
    view: &View<'_>,
) -> Result<Plan, Notice>
    ensures { IsEffectAnswer result (spec.replace_one pattern.now put.now view.now) }
{
    if !stands_before_point(pattern, view) {
        return Err(Notice::SearchFailed);
    }
    let begin = view.point.saturating_sub(pattern.len());
    edit_once(alloc, view, begin, view.point, put)
}

pub(crate) fn replace_range(
    alloc: Global,
    view: &View<'_>,
    lo: usize,
    hi: usize,
    put: &[char],
) -> Result<Plan, Notice>
    ensures { IsEffectAnswer result (spec.replace_range lo hi put.now view.now) }
{
    if lo > hi {
        return Err(Notice::EndOfBuffer);
    }
    if hi > view.text.len() {
        return Err(Notice::EndOfBuffer);
    }
    change(alloc, view, lo, hi, Vec::from_slice(alloc, put)?)
}
