//! Windows that change.
ghost use Rattle.std.specs.Prelude.{◌≡◌, ◌≢◌, ℕ, ◌<◌, ◌≤◌, Some, Ok, Err, length, slice_get, OnOk, OnErr, IfErr};
ghost use Rattle.mg_minibuffer.specs.declared.ending.Action.TheVariants.{Arrange};
ghost use Rattle.mg_screen.specs.Layout.{all_shown, heights, FillsRows};
ghost use Rattle.mg_screen.specs.Size.{least_rows, most_rows, least_columns, most_columns};
ghost use Rattle.mg_workspace.specs.Memory.{ActionMemory as Memory};
ghost use Rattle.mg_workspace.specs.Actions as spec;
ghost use Rattle.mg_workspace.specs.Viewports.{current_viewport, ShowThese, AreShown};
ghost use Rattle.mg_workspace.specs.Buffers.{most_buffers};

use crate::buffers::Buffers;
use crate::fault::ActionFault;
use crate::viewport::Viewport;
use crate::workspace::Workspace;
use mg_buffer::VisitedBuffer;
use mg_minibuffer::Arrangement;
use mg_screen::{Windows, centred_line};
use rga_ops::OutOfMemory;
use rga_store::TextStore;

/// What the window at an index shows.
pub(crate) fn viewport_at(windows: &Windows<Viewport>, index: usize) -> Viewport
    requires { index < length windows.now.windows }
    ensures { slice_get (all_shown windows.now.windows) index ≡ Some result }
{
    windows.shown()[index]
}

/// The text rows of the window at an index.
pub(crate) fn height_at(windows: &Windows<Viewport>, index: usize) -> usize
    requires { index < length windows.now.windows }
    ensures { slice_get (heights windows.now.windows) index ≡ Some result }
{
    windows.heights()[index]
}

/// What the current window shows.
pub(crate) fn current_viewport(windows: &Windows<Viewport>) -> Viewport
    ensures exact { result ≡ current_viewport windows.now }
    ensures within { (n : ℕ) → ShowThese n windows.now.windows → result.buffer < n }
{
    viewport_at(windows, windows.current())
}

/// The current window shows its buffer, which is this, with point's line in its middle. Out of
/// memory alone, and nothing changes then.
fn recenter<S: TextStore>(
    windows: &mut Windows<Viewport>,
    opened: &VisitedBuffer<S>,
) -> Result<(), OutOfMemory>
    ensures exact { OnOk result ((windows.new, Ok tt)
        ≡ spec.window_outcome Arrangement.Recenter opened.now windows.old) }
    ensures same { OnErr result (windows.new ≡ windows.old) }
    ensures shown { (n : ℕ) → ShowThese n windows.old.windows → ShowThese n windows.new.windows }
{
    let sight = opened.buffer.sight()?;
    let index = windows.current();
    let height = windows.heights()[index];
    let buffer = current_viewport(windows).buffer;
    let first = centred_line(sight.line, height);
    windows.show(index, Viewport { buffer, first });
    Ok(())
}

/// The windows become as they do where this buffer is current. Where memory is wanting nothing changes.
fn change_windows<S: TextStore>(
    windows: &mut Windows<Viewport>,
    arrangement: Arrangement,
    opened: &VisitedBuffer<S>,
) -> Result<(), ActionFault>
    ensures exact { result ≢ Err Memory →
        (windows.new, result) ≡ spec.window_outcome arrangement opened.now windows.old }
    ensures same { result ≡ Err Memory → windows.new ≡ windows.old }
    ensures shown { (n : ℕ) → ShowThese n windows.old.windows → ShowThese n windows.new.windows }
{
    match arrangement {
        Arrangement::Split => windows.split()?,
        Arrangement::Remove => windows.remove()?,
        Arrangement::Only => windows.only(),
        Arrangement::Other => windows.other(),
        Arrangement::Recenter => recenter(windows, opened)?,
    }
    Ok(())
}

/// The buffer of the current window is current.
fn follow<S: TextStore>(buffers: &mut Buffers<S>, windows: &Windows<Viewport>)
    requires few { length buffers.old.all ≤ most_buffers }
    requires each { ShowThese (length buffers.old.all) windows.now.windows }
    ensures exact { let shown = current_viewport windows.now in
        buffers.new ≡ record buffers.old { current = shown.buffer } }
    ensures shown { AreShown buffers.new windows.now }
{
    let shown = current_viewport(windows);
    buffers.go_to(shown.buffer);
}

impl<S: TextStore> Workspace<S> {
    /// The windows change, and a run of commands ends, refused or not. Then the buffer of the
    /// current window is current.
    pub(crate) fn arrange(&mut self, arrangement: Arrangement) -> Result<(), ActionFault>
        ensures arranged { spec.Done (Arrange arrangement) self.old (self.new, result) }
        ensures kept { result ≡ Err Memory → self.new ≡ self.old }
    {
        self.list();
        let opened = self.buffers.current();
        let answer = change_windows(&mut self.windows, arrangement, opened);
        if let Err(ActionFault::Memory(_)) = answer {
            return answer;
        }
        self.buffers.idle(&mut self.memo);
        follow(&mut self.buffers, &self.windows);
        answer
    }

    /// A screen of so many rows and columns: the windows take the rows as `Windows::resize` does. The
    /// current window shows what it showed, so the current buffer stays current. A run of commands
    /// goes on. Takes no memory.
    pub fn resize(&mut self, rows: usize, columns: usize)
        requires rows_from { least_rows ≤ rows }
        requires rows_to { rows ≤ most_rows }
        requires columns_from { least_columns ≤ columns }
        requires columns_to { columns ≤ most_columns }
        ensures exact { self.new ≡ spec.resized_work rows columns self.old }
        ensures filled { FillsRows rows self.new.windows }
    {
        self.windows.resize(rows);
        self.columns = columns;
    }
}
