//! Windows over buffers. Each is placed, and shown, by the buffer that it is over.
ghost use Rattle.std.specs.Prelude.{◌≡◌, ◌<◌, ◌≤◌, ℕ, List, Some, IfOk, OnOk, length, slice_get, ◌++◌, [], ◌∷◌};
ghost use Rattle.mg_screen.specs.Size.{most_rows};
ghost use Rattle.mg_screen.specs.Layout.{all_shown, window, FillsRows};
ghost use Rattle.mg_buffer.specs.OpenState.{OpenState};
ghost use Rattle.mg_workspace.specs.Viewports.{ShowThese};
ghost use Rattle.mg_workspace.specs.Showing as spec;
ghost use Rattle.mg_workspace.specs.Workspaces.{workspace_buffer};

use crate::arranging::{height_at, viewport_at};
use crate::buffers::Buffers;
use crate::viewport::Viewport;
use crate::workspace::Workspace;
use mg_buffer::VisitedBuffer;
use mg_screen::{Pane, Windows, first_line};
use rga_ops::OutOfMemory;
use rga_store::TextStore;
use std::alloc::{AllocError, Global};

/// What the window at an index shows once it is placed: its buffer, with the line of point. Out of
/// memory alone.
fn placed_viewport<S: TextStore>(
    windows: &Windows<Viewport>,
    index: usize,
    buffers: &Buffers<S>,
) -> Result<Viewport, OutOfMemory>
    requires shown { ShowThese (length buffers.now.all) windows.now.windows }
    requires within { index < length windows.now.windows }
    ensures exact { let placed = spec.placed_windows buffers.now.all windows.now in
        IfOk result (λ x. slice_get (all_shown placed.windows) index ≡ Some x) }
    ensures within { IfOk result (λ x. x.buffer < length buffers.now.all) }
{
    let shown = viewport_at(windows, index);
    let height = height_at(windows, index);
    let sight = buffers.at(shown.buffer).buffer.sight()?;
    Ok(Viewport {
        buffer: shown.buffer,
        first: first_line(sight.line, shown.first, height),
    })
}

fn placed_viewports<S: TextStore>(
    alloc: Global,
    windows: &Windows<Viewport>,
    buffers: &Buffers<S>,
) -> Result<Vec<Viewport>, OutOfMemory>
    requires shown { ShowThese (length buffers.now.all) windows.now.windows }
    ensures { let placed = spec.placed_windows buffers.now.all windows.now in
        IfOk result (λ viewports. viewports.items ≡ all_shown placed.windows) }
{
    let mut placed = Vec::new(alloc);
    for index in 0..windows.heights().len() {
        let viewport = placed_viewport(windows, index, buffers)?;
        placed.push(viewport)?;
    }
    Ok(placed)
}

/// Each window shows what stands for it in the list.
fn place_windows(windows: &mut Windows<Viewport>, placed: &[Viewport])
    requires { length placed.now ≡ length windows.old.windows }
    ensures { (bs : List OpenState) →
        placed.now ≡ all_shown (spec.placed_windows bs windows.old).windows →
        windows.new ≡ spec.placed_windows bs windows.old }
{
    for index in 0..placed.len() {
        windows.show(index, placed[index]);
    }
}

/// A window over a buffer, as a frame shows it.
fn pane<'a, S: TextStore>(
    alloc: Global,
    opened: &'a VisitedBuffer<S>,
    shown: Viewport,
    height: usize,
) -> Result<Pane<'a>, OutOfMemory>
    requires height_from { 1 ≤ height }
    requires height_to { height ≤ most_rows }
    ensures { IfOk result (λ p. p ≡ spec.pane_over (Some opened.now) (window height shown)) }
{
    let sight = opened.buffer.sight()?;
    let waiting = opened.buffer.store().waiting_count()?;
    Ok(Pane {
        text: sight.text,
        point: sight.point,
        line: sight.line,
        first: shown.first,
        height,
        name: String::from_str(alloc, opened.buffer.name())?,
        changed: opened.is_changed(),
        waiting,
    })
}

/// The window at an index, over its buffer, as it is shown once it is placed.
fn placed_pane<'a, S: TextStore>(
    alloc: Global,
    windows: &Windows<Viewport>,
    index: usize,
    buffers: &'a Buffers<S>,
) -> Result<Pane<'a>, OutOfMemory>
    requires shown { ShowThese (length buffers.now.all) windows.now.windows }
    requires within { index < length windows.now.windows }
    requires on_screen { (rows : ℕ) × FillsRows rows windows.now × (rows ≤ most_rows) }
    ensures { let bs = buffers.now.all in
        let panes = spec.panes_of bs (spec.placed_windows bs windows.now) in
        IfOk result (λ p. slice_get panes index ≡ Some p) }
{
    let placed = placed_viewport(windows, index, buffers)?;
    let height = height_at(windows, index);
    pane(alloc, buffers.at(placed.buffer), placed, height)
}

fn push_pane<'a>(panes: &mut Vec<Pane<'a>>, pane: Pane<'a>) -> Result<(), AllocError>
    ensures { OnOk result (panes.new.items ≡ panes.old.items ++ pane.entry ∷ []) }
{
    panes.push(pane)?;
    Ok(())
}

fn placed_panes<'a, S: TextStore>(
    alloc: Global,
    windows: &Windows<Viewport>,
    buffers: &'a Buffers<S>,
) -> Result<Vec<Pane<'a>>, OutOfMemory>
    requires shown { ShowThese (length buffers.now.all) windows.now.windows }
    requires on_screen { (rows : ℕ) × FillsRows rows windows.now × (rows ≤ most_rows) }
    ensures { let bs = buffers.now.all in
        let panes = spec.panes_of bs (spec.placed_windows bs windows.now) in
        IfOk result (λ ps. ps.items ≡ panes) }
{
    let mut panes = Vec::new(alloc);
    for index in 0..windows.heights().len() {
        let pane = placed_pane(alloc, windows, index, buffers)?;
        push_pane(&mut panes, pane)?;
    }
    Ok(panes)
}

impl<S: TextStore> Workspace<S> {
    /// The name of the current buffer.
    pub fn name(&self) -> &str
        ensures { result.now ≡ (workspace_buffer self.now).buffer.name }
    {
        self.buffers.current().buffer.name()
    }

    /// The rows of the screen, which the windows and the echo line fill.
    pub fn rows(&self) -> usize
        ensures filled { FillsRows result self.now.windows }
        ensures rows_to { result ≤ most_rows }
    {
        self.windows.rows()
    }

    /// What each window shows once it is placed, from the top: its buffer, with the line of point.
    /// Out of memory alone.
    pub fn placed_viewports(&self, alloc: Global) -> Result<Vec<Viewport>, OutOfMemory>
        ensures { IfOk result
            (λ viewports. viewports.items ≡ all_shown (spec.placed_work self.now).windows.windows) }
    {
        placed_viewports(alloc, &self.windows, &self.buffers)
    }

    /// Each window shows what it shows once it is placed, which is this. Takes no memory.
    pub fn place_windows(&mut self, placed: &[Viewport])
        requires { placed.now ≡ all_shown (spec.placed_work self.old).windows.windows }
        ensures { self.new ≡ spec.placed_work self.old }
    {
        place_windows(&mut self.windows, placed);
    }

    /// The windows as they are shown once they are placed. Out of memory alone.
    pub fn panes<'a>(&'a self, alloc: Global) -> Result<Vec<Pane<'a>>, OutOfMemory>
        requires on_screen { (rows : ℕ) × FillsRows rows self.now.windows × (rows ≤ most_rows) }
        ensures { IfOk result (λ ps. ps.items ≡ spec.work_panes (spec.placed_work self.now)) }
    {
        placed_panes(alloc, &self.windows, &self.buffers)
    }
}
