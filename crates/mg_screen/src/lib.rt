//! The screen of the editor: how its rows are shared among windows, and what stands in them.
//!
//! `Windows` shares the rows among windows, `first_line` and `centred_line` place a window over its
//! text, `frame` makes the rows of the whole screen, and `cursor` and `echo_cursor` say where the
//! cursor stands in it. `frame_at_point` and `cursor_at_point` do the same, but the row of point's
//! line begins further right if it would not show point; `cell_of_place` says where such a frame
//! shows another place. `Settings` are what a session is given: a name, a replica, a screen and its
//! limits. There is no command, no key and no buffer in sight, and nothing is drawn: a frame is a
//! value. The crate stands on unicode_width for the widths of characters, and on rga_store for a
//! limit. The layer above may rest on equations: each call of `Windows` leaves the layout that its
//! word says, and the windows and the echo line fill the screen as before; the first line of a
//! window is the one of the rule; a frame has exactly the rows of its windows and its echo line
//! (`frame_rows`, `rows_at_point`), and the cursor stands on the cell at point where its row shows
//! that. Want of memory changes nothing. There are settings of exactly those values that are within
//! their limits (`AreAllowed`).
#![tactic(auto)]

mod cells;
mod cursors;
mod frames;
mod heights;
pub mod laws;
mod lines;
mod mode_line;
mod rows;
mod screen;
mod settings;
mod sideways;
mod sideways_cursors;
mod size;
mod text_rows;
mod windows;

pub use cursors::{cursor, echo_cursor};
pub use frames::{frame, frame_at_point};
pub use lines::{centred_line, column_of, first_line};
pub use screen::{Pane, Position, Screen};
pub use settings::{MAX_FILL, Settings, Values};
pub use sideways_cursors::{cell_of_place, cursor_at_point};
pub use size::{MAX_COLUMNS, MAX_ROWS, MIN_COLUMNS, MIN_ROWS, MIN_SPLIT_HEIGHT};
pub use windows::{WindowFault, Windows};
