//! How the rows of the screen are shared among windows.
ghost use Rattle.std.specs.Prelude.{◌≡◌, ◌-◌, ◌<◌, ◌≤◌, [], ◌∷◌, Err, length, slice_get};
ghost use Rattle.std.specs.Prelude.{OnOk, OnErr, IfOk, IfErr, IsOk};
ghost use Rattle.mg_screen.specs.Size.{least_rows, most_rows};
ghost use Rattle.mg_screen.specs.Size.{least_split_height};
ghost use Rattle.mg_screen.specs.declared.windows.WindowFault.TheVariants.{TooSmall, OnlyOne};
ghost use Rattle.mg_screen.specs.Memory.{WindowMemory as Memory};
ghost use Rattle.mg_screen.specs.Layout as spec;

use crate::heights::{insert_both, keep, share};
use crate::size::MIN_SPLIT_HEIGHT;
use rga_ops::OutOfMemory;
use std::alloc::{AllocError, Global};
use std::marker::Model;

/// Why the windows stay as they are. Where several hold, the first is answered.
#[derive(Clone, Copy)]
pub enum WindowFault {
    /// The current window has fewer text rows than `MIN_SPLIT_HEIGHT`.
    TooSmall,
    /// There is one window alone.
    OnlyOne,
    /// A growth of memory was refused.
    Memory(OutOfMemory),
}

impl From<OutOfMemory> for WindowFault {
    ghost from_gives = { λ _ fault. fault ≡ Memory };

    fn from(memory: OutOfMemory) -> WindowFault {
        WindowFault::Memory(memory)
    }
}

impl From<AllocError> for WindowFault {
    ghost from_gives = { λ _ fault. fault ≡ Memory };

    fn from(refused: AllocError) -> WindowFault {
        WindowFault::Memory(OutOfMemory::from(refused))
    }
}

/// The windows from the top of the screen on, of which one is current. Each has its text rows and
/// a mode line, and shows a `T`. Below the last stands the echo line.
#[derive(Drop)]
pub struct Windows<T: Copy> {
    heights: Vec<usize>,
    shown: Vec<T>,
    current: usize,
    rows: usize,
}

impl<T: Copy> Model for Windows<T> {
    ghost use Rattle.mg_screen.specs.Layout.{Layout, layout_code};

    ghost Value = { Layout T };

    ghost coded = { layout_code T.code };

    ghost use Rattle.mg_screen.specs.Layout.{layout, windows_of};
    ghost use Rattle.mg_screen.specs.Inside.{AreKeptWindows};

    ghost view = { λ w. layout (windows_of w.heights.items w.shown.items) w.current };

    ghost invariant = { λ w. AreKeptWindows w.heights.items w.shown.items w.current w.rows };
}

fn one<T: Copy>(alloc: Global, item: T) -> Result<Vec<T>, AllocError>
    ensures { IfOk result (λ items. items.items ≡ item ∷ []) }
{
    let mut items = Vec::new(alloc);
    items.push(item)?;
    Ok(items)
}

impl<T: Copy> Windows<T> {
    /// One window on a screen of so many rows. Out of memory is the only fault.
    pub fn new(alloc: Global, rows: usize, shown: T) -> Result<Self, OutOfMemory>
        requires rows_from { least_rows ≤ rows }
        requires rows_to { rows ≤ most_rows }
        ensures exact { IfOk result
            (λ w. w ≡ spec.layout (spec.window (rows - 2) shown ∷ []) 0) }
        ensures filled { IfOk result (λ w. spec.FillsRows rows w) }
    {
        let heights = one(alloc, rows - 2)?;
        let shown = one(alloc, shown)?;
        Ok(Windows {
            heights,
            shown,
            current: 0,
            rows,
        })
    }

    /// The rows of the screen, which the windows and the echo line fill. Takes no memory.
    pub fn rows(&self) -> usize
        ensures filled { spec.FillsRows result self.now }
        ensures rows_to { result ≤ most_rows }
    {
        self.rows
    }

    /// The text rows of each window, from the top on.
    pub fn heights(&self) -> &[usize]
        ensures { result.now ≡ spec.heights self.now.windows }
    {
        &self.heights
    }

    /// What each window shows, from the top on.
    pub fn shown(&self) -> &[T]
        ensures { result.now ≡ spec.all_shown self.now.windows }
    {
        &self.shown
    }

    /// The index of the current window from the top, from 0.
    pub fn current(&self) -> usize
        ensures exact { result ≡ self.now.current }
        ensures within { result < length self.now.windows }
    {
        self.current
    }

    /// The next window below becomes current; from the lowest, the topmost (mg(1), other-window).
    pub fn other(&mut self)
        ensures exact { self.new ≡ spec.other_layout self.old }
        ensures filled { spec.KeepsRows self.old self.new }
    {
        if self.current + 1 < self.heights.as_slice().len() {
            self.current += 1;
        } else {
            self.current = 0;
        }
    }

    /// The current window in two, of which the upper is current, and both show the same (mg(1),
    /// split-window-vertically). `TooSmall` where it has fewer text rows than `MIN_SPLIT_HEIGHT`,
    /// then `Memory`; nothing changes then.
    pub fn split(&mut self) -> Result<(), WindowFault>
        ensures exact { OnOk result (self.new ≡ spec.split_layout self.old) }
        ensures filled { spec.KeepsRows self.old self.new }
        ensures same { OnErr result (self.new ≡ self.old) }
        ensures too_small { spec.current_height self.old < least_split_height →
            result ≡ Err TooSmall }
        ensures memory { least_split_height ≤ spec.current_height self.old →
            IfErr result (λ e. e ≡ Memory) }
    {
        let index = self.current;
        let height = self.heights[index];
        if height < MIN_SPLIT_HEIGHT {
            return Err(WindowFault::TooSmall);
        }
        let upper = (height - 1) / 2;
        let what = self.shown[index];
        insert_both(&mut self.heights, &mut self.shown, index, upper, what)?;
        self.heights[index + 1] = height - 1 - upper;
        Ok(())
    }

    /// Without the current window: its rows go to the window above, or for the topmost to the one
    /// below, and that one is current (mg(1), delete-window). `OnlyOne` where there is no other;
    /// nothing changes then. Takes no memory.
    pub fn remove(&mut self) -> Result<(), WindowFault>
        ensures exact { OnOk result (self.new ≡ spec.removed_layout self.old) }
        ensures filled { spec.KeepsRows self.old self.new }
        ensures same { OnErr result (self.new ≡ self.old) }
        ensures only_one { length self.old.windows ≤ 1 → result ≡ Err OnlyOne }
        ensures several { 1 < length self.old.windows → IsOk result }
    {
        if self.heights.as_slice().len() <= 1 {
            return Err(WindowFault::OnlyOne);
        }
        let index = self.current;
        let height = self.heights.remove(index);
        let _ = self.shown.remove(index);
        let heir = index.saturating_sub(1);
        self.heights[heir] += height + 1;
        self.current = heir;
        Ok(())
    }

    /// The current window alone, with all rows (mg(1), delete-other-windows). Takes no memory.
    pub fn only(&mut self)
        ensures exact { self.new ≡ spec.only_layout self.old }
        ensures filled { spec.KeepsRows self.old self.new }
    {
        let shown = self.shown[self.current];
        self.heights.truncate(1);
        self.shown.truncate(1);
        self.heights[0] = self.rows - 2;
        self.shown[0] = shown;
        self.current = 0;
    }

    /// The window at an index from the top shows something else. Takes no memory.
    pub fn show(&mut self, index: usize, shown: T)
        requires { index < length self.old.windows }
        ensures exact { self.new ≡ spec.shown_layout index shown self.old }
        ensures filled { spec.KeepsRows self.old self.new }
    {
        self.shown[index] = shown;
    }

    /// On a screen of so many rows. As many windows stay as have two rows each: the topmost ones, or
    /// those down to the current one, which always stays and is current. A window above others keeps
    /// its text rows as far as one row is left for each of those, and the lowest has what is left.
    /// Takes no memory.
    pub fn resize(&mut self, rows: usize)
        requires rows_from { least_rows ≤ rows }
        requires rows_to { rows ≤ most_rows }
        ensures exact { self.new ≡ spec.resized_layout rows self.old }
        ensures filled { spec.FillsRows rows self.new }
        ensures stays { slice_get (spec.all_shown self.new.windows) self.new.current
            ≡ slice_get (spec.all_shown self.old.windows) self.old.current }
    {
        let most = (rows - 1) / 2;
        let gone = (self.current + 1).saturating_sub(most);
        keep(&mut self.heights, gone, most);
        keep(&mut self.shown, gone, most);
        share(&mut self.heights, rows - 1);
        self.current -= gone;
        self.rows = rows;
    }
}
