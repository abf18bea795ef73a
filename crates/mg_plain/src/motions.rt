//! Motions. None of them takes memory.
ghost use Rattle.std.specs.Prelude.{◌≡◌, ◌≤◌, length};
ghost use Rattle.mg_plain.specs.Effect.{motion};
ghost use Rattle.mg_plain.specs.Motions as spec;

use crate::outcome::{Notice, Plan};
use crate::steps::{Direction, Piece, step, steps, steps_up_to};
use crate::view::{Kind, View};
use crate::{line_begin, line_end};
use std::alloc::Global;

/// Point alone goes there.
pub(crate) fn move_to(alloc: Global, view: &View<'_>, point: usize) -> Plan
    ensures { result ≡ motion view.now point }
{
    Plan {
        splices: Vec::new(alloc),
        point,
        mark: view.mark,
        kill: None,
        goal: view.goal,
        kind: Kind::Plain,
    }
}

pub(crate) fn forward_char(alloc: Global, view: &View<'_>, n: u16) -> Result<Plan, Notice>
    ensures { result ≡ spec.forward_char n view.now }
{
    if usize::from(n) > view.text.len() - view.point {
        return Err(Notice::EndOfBuffer);
    }
    Ok(move_to(alloc, view, view.point + usize::from(n)))
}

pub(crate) fn backward_char(alloc: Global, view: &View<'_>, n: u16) -> Result<Plan, Notice>
    ensures { result ≡ spec.backward_char n view.now }
{
    if usize::from(n) > view.point {
        return Err(Notice::BeginningOfBuffer);
    }
    Ok(move_to(alloc, view, view.point - usize::from(n)))
}

/// What is answered where the text ends too soon.
fn end_notice(direction: Direction) -> Notice
    ensures { result ≡ spec.end_notice direction }
{
    match direction {
        Direction::Forward => Notice::EndOfBuffer,
        Direction::Backward => Notice::BeginningOfBuffer,
    }
}

pub(crate) fn by_words(
    alloc: Global,
    view: &View<'_>,
    n: u16,
    direction: Direction,
) -> Result<Plan, Notice>
    ensures { result ≡ spec.by_words direction n view.now }
{
    match steps(view.text, view.point, n, Piece::Word, direction) {
        Some(q) => Ok(move_to(alloc, view, q)),
        None => Err(end_notice(direction)),
    }
}

/// The goal stays in a row of motions over lines; else it is the column of point.
fn goal(view: &View<'_>) -> usize
    ensures { result ≡ spec.goal_of view.now.last view.now }
{
    match view.last {
        Kind::Vertical => view.goal,
        Kind::Plain => view.point - line_begin(view.text, view.point),
        Kind::Killing => view.point - line_begin(view.text, view.point),
    }
}

fn move_vertically(alloc: Global, view: &View<'_>, point: usize) -> Plan
    ensures { result ≡ spec.vertical_motion view.now point }
{
    Plan {
        splices: Vec::new(alloc),
        point,
        mark: view.mark,
        kill: None,
        goal: goal(view),
        kind: Kind::Vertical,
    }
}

/// To the line that begins there.
fn move_to_line(alloc: Global, view: &View<'_>, begin: usize) -> Plan
    requires { begin ≤ length view.now.text }
    ensures { result ≡ spec.to_line view.now begin }
{
    let length = line_end(view.text, begin) - begin;
    move_vertically(alloc, view, begin + length.min(goal(view)))
}

pub(crate) fn by_lines(
    alloc: Global,
    view: &View<'_>,
    n: u16,
    direction: Direction,
) -> Result<Plan, Notice>
    ensures { result ≡ spec.by_lines direction n view.now }
{
    if n == 0 {
        return Ok(move_vertically(alloc, view, view.point));
    }
    let begin = line_begin(view.text, view.point);
    match steps(view.text, begin, n, Piece::Line, direction) {
        Some(begin) => Ok(move_to_line(alloc, view, begin)),
        None => Err(end_notice(direction)),
    }
}

pub(crate) fn scroll(
    alloc: Global,
    view: &View<'_>,
    rows: usize,
    direction: Direction,
) -> Result<Plan, Notice>
    ensures { result ≡ spec.scroll direction rows view.now }
{
    let lines = rows.saturating_sub(2).max(1);
    let begin = line_begin(view.text, view.point);
    match step(view.text, begin, Piece::Line, direction) {
        Some(first) => {
            let begin = steps_up_to(view.text, first, lines - 1, Piece::Line, direction);
            Ok(move_to_line(alloc, view, begin))
        }
        None => Err(end_notice(direction)),
    }
}
