//! What is read of the buffers and the windows, to be told.
ghost use Rattle.std.specs.Prelude.{◌≡◌, ◌<◌, ℕ, Some, length, slice_get};
ghost use Rattle.mg_screen.specs.Layout.{heights};
ghost use Rattle.mg_workspace.specs.Viewports.{shown_buffers, ShowThese};

use crate::arranging::viewport_at;
use crate::viewport::Viewport;
use crate::workspace::Workspace;
use mg_screen::Windows;
use rga_store::TextStore;

/// The index of the buffer that the window at an index shows.
fn buffer_at(windows: &Windows<Viewport>, window: usize) -> usize
    requires { window < length windows.now.windows }
    ensures exact { slice_get (shown_buffers windows.now.windows) window ≡ Some result }
    ensures within { (n : ℕ) → ShowThese n windows.now.windows → result < n }
{
    viewport_at(windows, window).buffer
}

impl<S: TextStore> Workspace<S> {
    /// The text rows of each window, from the top. Takes no memory.
    pub fn heights(&self) -> &[usize]
        ensures { result.now ≡ heights self.now.windows.windows }
    {
        self.windows.heights()
    }

    /// The index of the buffer that the window at an index from the top shows. Takes no memory.
    pub fn buffer_shown(&self, window: usize) -> usize
        requires { window < length self.now.windows.windows }
        ensures exact { let shown = shown_buffers self.now.windows.windows in
            slice_get shown window ≡ Some result }
        ensures within { result < length self.now.buffers.all }
    {
        buffer_at(&self.windows, window)
    }
}
