//! Frames of the editor's own windows.
ghost use Rattle.std.specs.Prelude.{◌≡◌, ◌≤◌, ℕ, Some, IfOk, OnOk, OnErr, IsSome};
ghost use Rattle.mg_screen.specs.Cursor as cursors;
ghost use Rattle.mg_screen.specs.Frame.{screen_rows};
ghost use Rattle.mg_screen.specs.Layout.{FillsRows};
ghost use Rattle.mg_screen.specs.Written.{SpellRows};
ghost use Rattle.mg_screen.specs.Size.{most_rows};
ghost use Rattle.mg_editor.specs.Frames as spec;

use crate::editor::Editor;
use mg_screen::{Position, Screen, cursor, echo_cursor};
use rga_ops::OutOfMemory;
use rga_store::TextStore;

/// The whole screen: its rows from the top on, and where the cursor stands in them.
#[derive(Drop)]
pub struct Frame {
    pub rows: Vec<String>,
    pub cursor: Position,
}

impl<S: TextStore> Editor<S> {
    /// The screen, once the windows are placed.
    pub(crate) fn screen<'a>(&'a self) -> Result<Screen<'a>, OutOfMemory>
        requires { (rows : ℕ) × FillsRows rows self.now.work.windows × (rows ≤ most_rows) }
        ensures { IfOk result (λ screen. screen ≡ spec.screen_of (spec.placed_editor self.now)) }
    {
        let echo = self.talk.echo(self.alloc, self.work.name())?;
        Ok(Screen {
            panes: self.work.panes(self.alloc)?,
            echo,
        })
    }

    /// The cursor of the screen.
    fn cursor_in(&self, screen: &Screen<'_>) -> Position
        requires rows_to { screen_rows screen.now ≤ most_rows }
        requires shown { let work = self.now.work in
            IsSome (cursors.cursor work.columns screen.now work.windows.current) }
        ensures { spec.cursor_in self.now screen.now ≡ Some result }
    {
        let columns = self.work.columns();
        if self.talk.has_cursor() {
            return echo_cursor(columns, screen);
        }
        let Some(position) = cursor(columns, screen, self.work.window()) else {
            unreachable!()
        };
        position
    }

    /// The frame, once the windows are placed.
    fn placed_frame(&self) -> Result<Frame, OutOfMemory>
        ensures rows { let placed = spec.placed_editor self.now in
            IfOk result (λ frame. SpellRows (spec.editor_frame placed) frame.rows.items) }
        ensures cursor { let placed = spec.placed_editor self.now in
            IfOk result (λ frame. spec.editor_cursor placed ≡ Some frame.cursor) }
    {
        let columns = self.work.columns();
        let rows = self.work.rows();
        let screen = self.screen()?;
        Ok(Frame {
            rows: mg_screen::frame(self.alloc, rows, columns, &screen)?,
            cursor: self.cursor_in(&screen),
        })
    }

    /// The frame of the editor. Each window first shows the line of point, in its middle where it
    /// did not show it before, and does so from then on. Then there are the text rows and the mode
    /// line of each, and the echo line: the message, else the open prompt with the answer so far.
    /// The cursor stands behind an answer that is all that is asked for, where no message stands,
    /// else at point, in the current window.
    ///
    /// Out of memory is the only fault: nothing changed then.
    pub fn frame(&mut self) -> Result<Frame, OutOfMemory>
        ensures placed { OnOk result (self.new ≡ spec.placed_editor self.old) }
        ensures rows { IfOk result
            (λ frame. SpellRows (spec.editor_frame self.new) frame.rows.items) }
        ensures cursor { IfOk result (λ frame. spec.editor_cursor self.new ≡ Some frame.cursor) }
        ensures same { OnErr result (self.new ≡ self.old) }
    {
        self.work.list_all();
        let placed = self.work.placed_viewports(self.alloc)?;
        let frame = self.placed_frame()?;
        self.work.place_windows(&placed);
        Ok(frame)
    }
}
