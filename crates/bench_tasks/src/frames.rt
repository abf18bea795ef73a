//! Frames of a screen of 24 rows and 80 columns: `frames WORK LINE SIZE TIMES`.
//!
//! A text of SIZE characters in lines of LINE letters is made, and so many times, with point at its
//! end: `first-line` places the window, `frame` makes the rows, `cursor` finds the cursor,
//! `all` does the three, and `split` splits a window and takes one away again. The number is a sum
//! over what comes of it.
ghost use Rattle.std.specs.Prelude.{◌≡◌, length, IfOk};
ghost use Rattle.mg_screen.specs.Frame.{screen_rows};
ghost use Rattle.mg_screen.specs.Lines as spec;

use crate::fault::Fault;
use crate::text::{Task, number_at, task_of};
use mg_buffer::line_of;
use mg_screen::{Pane, Screen, WindowFault, Windows, cursor, first_line, frame};
use rga_ops::OutOfMemory;
use std::alloc::{AllocError, Global};
use std::borrow::CowSlice;

const ROWS: usize = 24;

const COLUMNS: usize = 80;
/// The text rows of the one window.
const HEIGHT: usize = 22;

#[derive(Clone, Copy)]
enum Work {
    FirstLine,
    Frame,
    Cursor,
    All,
    Split,
}

/// The names of work.
const WORKS: [(&str, Work); 5] = [
    ("first-line", Work::FirstLine),
    ("frame", Work::Frame),
    ("cursor", Work::Cursor),
    ("all", Work::All),
    ("split", Work::Split),
];

pub fn outcome(alloc: Global, words: &[String]) -> Result<usize, Fault> {
    let (Some(task), Some(line)) = (task_of(words, &WORKS), number_at(words, 3)) else {
        return Err(Fault::Words);
    };
    match task.work {
        Work::Split => splits(alloc, task.times).ok().ok_or(Fault::Windows),
        _ => shown_of(alloc, line, &task),
    }
}

/// The work on a text in lines of so many letters.
fn shown_of(alloc: Global, line: usize, task: &Task<Work>) -> Result<usize, Fault> {
    match lines(alloc, line, task.size) {
        Ok(text) => shown(alloc, &text, task).ok().ok_or(Fault::Frame),
        Err(_) => Err(Fault::Memory),
    }
}

/// So many characters, in lines of so many letters.
fn lines(alloc: Global, line: usize, size: usize) -> Result<Vec<char>, AllocError> {
    let mut text = Vec::new(alloc);
    let mut column = 0;
    for _ in 0..size {
        if column < line {
            text.push('a')?;
            column += 1;
        } else {
            text.push('\n')?;
            column = 0;
        }
    }
    Ok(text)
}

fn shown(alloc: Global, text: &[char], task: &Task<Work>) -> Result<usize, OutOfMemory> {
    let line = line_of(text, text.len());
    let first = first_line(line, 0, HEIGHT);
    let mut sum: usize = 0;
    for i in 0..task.times {
        let old = first.saturating_sub(i % 8);
        sum = sum.wrapping_add(work_at(alloc, task.work, text, line, old)?);
    }
    Ok(sum)
}

/// The work with point at the end. The window begins at the line `old`, or where it is placed.
fn work_at(
    alloc: Global,
    work: Work,
    text: &[char],
    line: usize,
    old: usize,
) -> Result<usize, OutOfMemory>
    requires { line ≡ spec.line_index text.now (length text.now) }
{
    let first = match work {
        Work::FirstLine | Work::All => first_line(line, old, HEIGHT),
        _ => old,
    };
    match work {
        Work::FirstLine => Ok(first),
        _ => Ok(first.wrapping_add(look(alloc, work, &screen_over(alloc, text, line, first)?)?)),
    }
}

/// A sum over the rows, the place of the cursor, or both.
fn look(alloc: Global, work: Work, screen: &Screen<'_>) -> Result<usize, OutOfMemory>
    requires { screen_rows screen.now ≡ 24 }
{
    match work {
        Work::Cursor => Ok(cursor_sum(screen)),
        Work::Frame => row_sum(alloc, screen),
        _ => Ok(row_sum(alloc, screen)?.wrapping_add(cursor_sum(screen))),
    }
}

/// How long the rows are together.
fn row_sum(alloc: Global, screen: &Screen<'_>) -> Result<usize, OutOfMemory>
    requires { screen_rows screen.now ≡ 24 }
{
    let mut sum: usize = 0;
    for row in &frame(alloc, ROWS, COLUMNS, screen)? {
        sum = sum.wrapping_add(row.len());
    }
    Ok(sum)
}

/// The row and the column of the cursor together.
fn cursor_sum(screen: &Screen<'_>) -> usize
    requires { screen_rows screen.now ≡ 24 }
{
    match cursor(COLUMNS, screen, 0) {
        Some(position) => position.row.wrapping_add(position.column),
        None => 0,
    }
}

/// A screen of one window, with point at the end of the text.
fn screen_over<'a>(
    alloc: Global,
    text: &'a [char],
    line: usize,
    first: usize,
) -> Result<Screen<'a>, OutOfMemory>
    requires { line ≡ spec.line_index text.now (length text.now) }
    ensures { IfOk result (λ s. screen_rows s ≡ 24) }
{
    let pane = Pane {
        text: CowSlice::Borrowed(text),
        point: text.len(),
        line,
        first,
        height: HEIGHT,
        name: String::from_str(alloc, "notes")?,
        changed: true,
        waiting: 0,
    };
    let mut panes = Vec::new(alloc);
    if let Err(refused) = panes.push(pane) {
        return Err(AllocError::from(refused).into());
    }
    let echo = String::new(alloc);
    Ok(Screen { panes, echo })
}

/// Splits the only window, and takes the upper one away again.
fn splits(alloc: Global, times: usize) -> Result<usize, WindowFault> {
    let mut windows = Windows::new(alloc, ROWS, 'a')?;
    let mut sum: usize = 0;
    for _ in 0..times {
        sum = sum.wrapping_add(split(&mut windows)?);
    }
    Ok(sum)
}

fn split(windows: &mut Windows<char>) -> Result<usize, WindowFault> {
    windows.split()?;
    let sum = heights(windows);
    windows.remove()?;
    Ok(sum)
}

/// How high the windows are together.
fn heights(windows: &Windows<char>) -> usize {
    let mut sum: usize = 0;
    for height in windows.heights() {
        sum = sum.wrapping_add(*height);
    }
    sum
}
