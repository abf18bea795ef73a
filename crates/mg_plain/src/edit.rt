//! Splices, and what they do to places.
ghost use Rattle.std.specs.Prelude.{◌≡◌, ◌∷◌, [], Ok, IfOk};
ghost use Rattle.mg_plain.specs.Splices.{splice};
ghost use Rattle.mg_plain.specs.Answer.{IsEffectAnswer};
ghost use Rattle.mg_plain.specs.Effect.{one_splice, carried_place, place_after, edit_effect};

use crate::outcome::{Notice, Plan};
use crate::view::{Kind, View};
use rga_ops::{OutOfMemory, Splice, counted_together};
use std::alloc::{AllocError, Global};

/// The splice that puts a copy of those characters there.
pub fn splice(alloc: Global, lo: usize, hi: usize, put: &[char]) -> Result<Splice, AllocError>
    ensures { IfOk result (λ s. s ≡ splice lo hi put.now) }
{
    Ok(Splice {
        lo,
        hi,
        put: Vec::from_slice(alloc, put)?,
    })
}

/// Where a place goes as a splice is done. Out of memory past the greatest number.
fn carry(splice: &Splice, q: usize) -> Result<usize, OutOfMemory>
    ensures { IfOk result (λ r. r ≡ carried_place splice.now q) }
{
    if q <= splice.lo {
        return Ok(q);
    }
    let begin = if splice.hi <= q {
        q.saturating_sub(splice.hi.saturating_sub(splice.lo))
    } else {
        splice.lo
    };
    counted_together(begin, splice.put.len())
}

/// Where it goes as splices are done in turn. Out of memory past the greatest number.
pub(crate) fn carry_over(splices: &[Splice], q: usize) -> Result<usize, OutOfMemory>
    ensures { IfOk result (λ r. r ≡ place_after splices.now q) }
{
    let mut place = q;
    for splice in splices {
        place = carry(splice, place)?;
    }
    Ok(place)
}

/// The plan of splices alone: point and mark are carried. `Memory` where the new text has more
/// characters than there are numbers.
pub(crate) fn edit(view: &View<'_>, splices: Vec<Splice>) -> Result<Plan, Notice>
    ensures { IsEffectAnswer result (Ok (edit_effect view.now splices.items)) }
{
    let point = carry_over(splices.as_slice(), view.point)?;
    let mark = match view.mark {
        None => None,
        Some(mark) => Some(carry_over(splices.as_slice(), mark)?),
    };
    Ok(Plan {
        splices,
        point,
        mark,
        kill: None,
        goal: view.goal,
        kind: Kind::Plain,
    })
}

/// The plan of the splice that puts a copy of those characters there.
pub(crate) fn edit_once(
    alloc: Global,
    view: &View<'_>,
    lo: usize,
    hi: usize,
    put: &[char],
) -> Result<Plan, Notice>
    ensures { IsEffectAnswer result (Ok (edit_effect view.now (splice lo hi put.now ∷ []))) }
{
    let one = splice(alloc, lo, hi, put)?;
    edit(view, vec![in alloc; one]?)
}

/// The plan of the splice that replaces these characters, or of none where nothing goes and nothing
/// comes.
pub(crate) fn change(
    alloc: Global,
    view: &View<'_>,
    lo: usize,
    hi: usize,
    put: Vec<char>,
) -> Result<Plan, Notice>
    ensures { IsEffectAnswer result (Ok (edit_effect view.now (one_splice lo hi put.items))) }
{
    let mut splices = Vec::new(alloc);
    if lo == hi && put.as_slice().is_empty() {
        return edit(view, splices);
    }
    splices.push(Splice { lo, hi, put })?;
    edit(view, splices)
}
