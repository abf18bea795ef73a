//! Deletions, and kills, which keep what they take. What is killed is copied once: it does not matter how
//! much the kill buffer holds that it goes behind.
ghost use Rattle.std.specs.Prelude.{◌≤◌, length, Ok};
ghost use Rattle.mg_plain.specs.Answer.{IsEffectAnswer};
ghost use Rattle.mg_plain.specs.Kills as spec;

use crate::edit::change;
use crate::line_end;
use crate::outcome::{Notice, Plan};
use crate::view::{Kind, View};
use crate::words::word_end;
use std::alloc::Global;

fn delete(alloc: Global, view: &View<'_>, lo: usize, hi: usize) -> Result<Plan, Notice>
    ensures { IsEffectAnswer result (Ok (spec.deletion_effect view.now lo hi)) }
{
    change(alloc, view, lo, hi, Vec::new(alloc))
}

pub(crate) fn delete_char(alloc: Global, view: &View<'_>, n: u16) -> Result<Plan, Notice>
    ensures { IsEffectAnswer result (spec.delete_char n view.now) }
{
    if usize::from(n) > view.text.len() - view.point {
        return Err(Notice::EndOfBuffer);
    }
    delete(alloc, view, view.point, view.point + usize::from(n))
}

pub(crate) fn delete_backward_char(alloc: Global, view: &View<'_>, n: u16) -> Result<Plan, Notice>
    ensures { IsEffectAnswer result (spec.delete_backward_char n view.now) }
{
    if usize::from(n) > view.point {
        return Err(Notice::BeginningOfBuffer);
    }
    delete(alloc, view, view.point - usize::from(n), view.point)
}

fn kill(alloc: Global, view: &View<'_>, lo: usize, hi: usize) -> Result<Plan, Notice>
    requires order { lo ≤ hi }
    requires within { hi ≤ length view.now.text }
    ensures { IsEffectAnswer result (Ok (spec.kill_effect view.now lo hi)) }
{
    let chars = Vec::from_slice(alloc, &view.text[lo..hi])?;
    let plan = delete(alloc, view, lo, hi)?;
    Ok(Plan {
        kill: Some(chars),
        kind: Kind::Killing,
        ..plan
    })
}

pub(crate) fn kill_line(alloc: Global, view: &View<'_>) -> Result<Plan, Notice>
    ensures { IsEffectAnswer result (spec.kill_line view.now) }
{
    if view.point == view.text.len() {
        return Err(Notice::EndOfBuffer);
    }
    let end = line_end(view.text, view.point).max(view.point + 1);
    kill(alloc, view, view.point, end)
}

pub(crate) fn kill_word(alloc: Global, view: &View<'_>) -> Result<Plan, Notice>
    ensures { IsEffectAnswer result (spec.kill_word view.now) }
{
    if view.point == view.text.len() {
        return Err(Notice::EndOfBuffer);
    }
    kill(alloc, view, view.point, word_end(view.text, view.point))
}

pub(crate) fn kill_region(alloc: Global, view: &View<'_>) -> Result<Plan, Notice>
    ensures { IsEffectAnswer result (spec.kill_region view.now) }
{
    match view.mark {
        None => Err(Notice::NoMark),
        Some(mark) => kill(alloc, view, view.point.min(mark), view.point.max(mark)),
    }
}
