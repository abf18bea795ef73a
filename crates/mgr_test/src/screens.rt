//! Cursors that no window shows.
ghost use Rattle.std.specs.Prelude.{◌≡◌, ◌≤◌, length, IfOk};
ghost use Rattle.mg_screen.specs.Frame.{screen_rows};

use crate::plans::chars_of;
use mg_buffer::line_of;
use mg_screen::{Pane, Position, Screen, cursor};
use rga_ops::OutOfMemory;
use std::alloc::{AllocError, Global};
use std::borrow::CowSlice;

/// A window of two text rows.
fn pane_over<'a>(
    alloc: Global,
    text: &'a [char],
    point: usize,
    first: usize,
) -> Result<Pane<'a>, AllocError>
    requires { point ≤ length text.now }
    ensures { IfOk result (λ p. p.height ≡ 2) }
{
    Ok(Pane {
        text: CowSlice::Borrowed(text),
        point,
        line: line_of(text, point),
        first,
        height: 2,
        name: String::from_str(alloc, "notes")?,
        changed: false,
        waiting: 0,
    })
}

/// A window from line 0 on, and one from line 1 on below it.
fn screen_over<'a>(alloc: Global, text: &'a [char], point: usize) -> Result<Screen<'a>, OutOfMemory>
    requires { point ≤ length text.now }
    ensures { IfOk result (λ s. screen_rows s ≡ 7) }
{
    let mut panes = Vec::new(alloc);
    if let Err(refused) = panes.push(pane_over(alloc, text, point, 0)?) {
        return Err(AllocError::from(refused).into());
    }
    if let Err(refused) = panes.push(pane_over(alloc, text, point, 1)?) {
        return Err(AllocError::from(refused).into());
    }
    let echo = String::new(alloc);
    Ok(Screen { panes, echo })
}

/// The cursor in the window at an index, at 20 columns.
fn cursor_of(alloc: Global, text: &str, point: usize, index: usize) -> Option<Position> {
    let text = chars_of(alloc, text).ok()?;
    let text = text.as_slice();
    if point > text.len() {
        return None;
    }
    let screen = screen_over(alloc, text, point).ok()?;
    cursor(20, &screen, index)
}

#[test]
fn cursors_that_no_window_shows(rt: HostRuntime) {
    for (text, point, window, why) in [
        ("a\nbc\nd", 1, 1, "a line above the window"),
        ("a\nbc\nd", 5, 0, "a line below the window"),
        ("a", 0, 2, "no such window"),
    ] {
        assert!(rt; cursor_of(rt.alloc(), text, point, window) == None, "{why}");
    }
    assert!(rt;
        cursor_of(rt.alloc(), "a\nbc\nd", 3, 1) == Some(Position { row: 3, column: 1 }),
        "the topmost row of the lower window"
    );
}
