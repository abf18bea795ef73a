//! Heights of windows, and beside these what the windows show.
ghost use Rattle.std.specs.Prelude.{◌≡◌, ◌*◌, ◌<◌, ◌≤◌, OnOk, OnErr, length, insert, take, drop};
ghost use Rattle.mg_screen.specs.Layout as spec;

use std::alloc::AllocError;

/// One more height at an index, and beside it what is shown. Where memory is wanting nothing changes.
pub(crate) fn insert_both<T: Copy>(
    heights: &mut Vec<usize>,
    shown: &mut Vec<T>,
    index: usize,
    height: usize,
    what: T,
) -> Result<(), AllocError>
    requires heights { index ≤ length heights.old.items }
    requires shown { index ≤ length shown.old.items }
    ensures heights { OnOk result (heights.new.items ≡ insert heights.old.items index height) }
    ensures shown { OnOk result (shown.new.items ≡ insert shown.old.items index what) }
    ensures same_heights { OnErr result (heights.new.items ≡ heights.old.items) }
    ensures same_shown { OnErr result (shown.new.items ≡ shown.old.items) }
{
    shown.reserve(1)?;
    heights.insert(index, height)?;
    match shown.insert(index, what) {
        Ok(()) => Ok(()),
        Err(_) => unreachable!(),
    }
}

/// So many items stay from an index on, or all from there on.
#[tactic(auto, using(crate::proofs::ResizeLaws::kept_run))]
pub(crate) fn keep<T: Copy>(items: &mut Vec<T>, from: usize, most: usize)
    requires { from ≤ length items.old.items }
    ensures { items.new.items ≡ take most (drop from items.old.items) }
{
    let left = items.as_slice().len() - from;
    items.rotate_left(from);
    items.truncate(left);
    items.truncate(most);
}

/// Shares so many rows among the windows, of which there is one.
pub(crate) fn share(heights: &mut Vec<usize>, rows: usize)
    requires some { 0 < length heights.old.items }
    requires enough { 2 * length heights.old.items ≤ rows }
    ensures exact { heights.new.items ≡ spec.shared rows heights.old.items }
{
    let last = heights.as_slice().len() - 1;
    let mut room = rows;
    for i in 0..last {
        let height = heights[i].min(room - 2 * (last - i) - 1);
        heights[i] = height;
        room -= height + 1;
    }
    heights[last] = room - 1;
}
