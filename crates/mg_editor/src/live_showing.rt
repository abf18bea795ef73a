//! Frames of a live session, in which each window shows point.
ghost use Rattle.std.specs.Prelude.{◌≡◌, ◌≤◌, ◌<◌, Some, IfOk, OnOk, OnErr, IsSome, length};
ghost use Rattle.std.specs.Option.{ForSome};
ghost use Rattle.mg_screen.specs.Frame.{screen_rows};
ghost use Rattle.mg_screen.specs.Sideways as sideways;
ghost use Rattle.mg_screen.specs.Size.{most_rows};
ghost use Rattle.mg_screen.specs.Written.{SpellRows};
ghost use Rattle.mg_editor.specs.Frames.{placed_editor};
ghost use Rattle.mg_editor.specs.LiveShowing as spec;

use crate::editor::Editor;
use crate::live_places::place_cells;
use mg_events::PlaceStatus;
use mg_screen::{Position, Screen, cursor_at_point, echo_cursor, frame_at_point};
use rga_ops::{Id, OutOfMemory};
use rga_store::TextStore;

/// The whole screen: its rows from the top on, where the cursor stands in them, and the cells of
/// elements of the live buffer.
#[derive(Drop)]
pub struct LiveFrame {
    pub rows: Vec<String>,
    pub cursor: Position,
    pub places: Vec<PlaceStatus>,
}

impl<S: TextStore> Editor<S> {
    /// The cursor of the screen.
    fn live_cursor_in(&self, screen: &Screen<'_>) -> Position
        requires rows_to { screen_rows screen.now ≤ most_rows }
        requires shown { let work = self.now.work in
            IsSome (sideways.cursor_at_point work.columns screen.now work.windows.current) }
        ensures { spec.live_cursor_in self.now screen.now ≡ Some result }
    {
        let columns = self.work.columns();
        if self.talk.has_cursor() {
            return echo_cursor(columns, screen);
        }
        let Some(position) = cursor_at_point(columns, screen, self.work.window()) else {
            unreachable!()
        };
        position
    }

    /// The frame, once the windows are placed.
    fn placed_live_frame(
        &self,
        live: Option<usize>,
        places: &[Id],
    ) -> Result<LiveFrame, OutOfMemory>
        requires { ForSome live (λ index. index < length self.now.work.buffers.all) }
        ensures rows { let placed = placed_editor self.now in
            IfOk result (λ frame. SpellRows (spec.live_rows placed) frame.rows.items) }
        ensures cursor { let placed = placed_editor self.now in
            IfOk result (λ frame. spec.live_cursor placed ≡ Some frame.cursor) }
        ensures places { let placed = placed_editor self.now in
            IfOk result (λ frame. frame.places.items ≡ spec.place_cells live places.now placed) }
    {
        let columns = self.work.columns();
        let rows = self.work.rows();
        let screen = self.screen()?;
        let places = place_cells(self.alloc, &self.work, &screen, live, places)?;
        Ok(LiveFrame {
            rows: frame_at_point(self.alloc, rows, columns, &screen)?,
            cursor: self.live_cursor_in(&screen),
            places,
        })
    }

    /// The frame of the editor, as `frame` makes it; but the row of point's line begins further
    /// right in each window in which point is beyond the last column, so that it shows point. Beside
    /// it stand the cells of elements of the live buffer, the one at an index: of each window over
    /// that buffer from the top, and of each element that it has a place for and that the window
    /// shows, in the order of the list. A deleted element has the place where it stood.
    ///
    /// Out of memory is the only fault: nothing changed then.
    pub fn live_frame(
        &mut self,
        live: Option<usize>,
        places: &[Id],
    ) -> Result<LiveFrame, OutOfMemory>
        requires { ForSome live (λ index. index < length self.old.work.buffers.all) }
        ensures placed { OnOk result (self.new ≡ placed_editor self.old) }
        ensures rows { IfOk result
            (λ frame. SpellRows (spec.live_rows self.new) frame.rows.items) }
        ensures cursor { IfOk result (λ frame. spec.live_cursor self.new ≡ Some frame.cursor) }
        ensures places { IfOk result
            (λ frame. frame.places.items ≡ spec.place_cells live places.now self.new) }
        ensures same { OnErr result (self.new ≡ self.old) }
    {
        self.work.list_all();
        let placed = self.work.placed_viewports(self.alloc)?;
        let frame = self.placed_live_frame(live, places)?;
        self.work.place_windows(&placed);
        Ok(frame)
    }
}
