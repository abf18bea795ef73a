//! The mark, and the region between it and point.
ghost use Rattle.std.specs.Prelude.{◌≡◌};
ghost use Rattle.mg_plain.specs.Answer.{IsEffectAnswer};
ghost use Rattle.mg_plain.specs.Mark as spec;

use crate::motions::move_to;
use crate::outcome::{Notice, Plan};
use crate::view::View;
use std::alloc::Global;

/// Point and mark go there.
pub(crate) fn mark_at(alloc: Global, view: &View<'_>, point: usize, mark: usize) -> Plan
    ensures { result ≡ spec.point_and_mark view.now point mark }
{
    Plan {
        mark: Some(mark),
        ..move_to(alloc, view, point)
    }
}

pub(crate) fn exchange_point_and_mark(alloc: Global, view: &View<'_>) -> Result<Plan, Notice>
    ensures { result ≡ spec.exchange_point_and_mark view.now }
{
    match view.mark {
        None => Err(Notice::NoMark),
        Some(mark) => Ok(mark_at(alloc, view, mark, view.point)),
    }
}

pub(crate) fn copy_region_as_kill(alloc: Global, view: &View<'_>) -> Result<Plan, Notice>
    ensures { IsEffectAnswer result (spec.copy_region_as_kill view.now) }
{
    let Some(mark) = view.mark else {
        return Err(Notice::NoMark);
    };
    let region = &view.text[view.point.min(mark)..view.point.max(mark)];
    let chars = Vec::from_slice(alloc, region)?;
    Ok(Plan {
        kill: Some(chars),
        ..move_to(alloc, view, view.point)
    })
}
