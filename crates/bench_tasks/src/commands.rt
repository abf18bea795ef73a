//! Plans of commands on a text: `commands COMMAND SIZE TIMES`.
//!
//! A text of SIZE characters is made, and the command is planned on it so many times, with point in
//! the middle; to replace all, at the end of the match there. The number is what the places add up
//! to where point goes in these plans; a search that finds nothing adds nothing.
use crate::command_kind::{CommandKind, command_of};
use crate::fault::Fault;
use crate::text::{Task, paragraph, task_of};
use mg_plain::{Command, Kind, Notice, View, plan};
use std::alloc::Global;

/// The column to which the paragraph is filled: less than the lines have, so that all break anew.
const FILL: u16 = 70;

/// The names of commands.
const COMMANDS: [(&str, CommandKind); 9] = [
    ("forward-char", CommandKind::ForwardChar),
    ("insert", CommandKind::Insert),
    ("forward-word", CommandKind::ForwardWord),
    ("next-line", CommandKind::NextLine),
    ("kill-line", CommandKind::KillLine),
    ("capitalize-word", CommandKind::CapitalizeWord),
    ("search-forward", CommandKind::SearchForward),
    ("fill-paragraph", CommandKind::FillParagraph),
    ("replace-all", CommandKind::ReplaceAll),
];

pub fn outcome(alloc: Global, words: &[String]) -> Result<usize, Fault> {
    let Some(task) = task_of(words, &COMMANDS) else {
        return Err(Fault::Words);
    };
    match paragraph(alloc, task.size) {
        Ok(text) => planned(alloc, &text, &task),
        Err(_) => Err(Fault::Memory),
    }
}

fn planned(alloc: Global, text: &[char], task: &Task<CommandKind>) -> Result<usize, Fault> {
    let view = view_of(text, point_of(task.work, task.size));
    match command_of(alloc, task.work) {
        Ok(command) => plan_again(alloc, &command, task.times, &view),
        Err(_) => Err(Fault::Memory),
    }
}

/// The view of a text with point at a place, or at its end.
fn view_of(text: &[char], point: usize) -> View<'_> {
    View {
        text,
        point: point.min(text.len()),
        mark: None,
        kill: &[],
        goal: 0,
        last: Kind::Plain,
    }
}

/// The middle; to replace all, the end of the match there.
fn point_of(kind: CommandKind, size: usize) -> usize {
    match kind {
        CommandKind::ReplaceAll => (size / 12).saturating_mul(6).saturating_add(2),
        _ => size / 2,
    }
}

fn plan_again(
    alloc: Global,
    command: &Command,
    times: usize,
    view: &View<'_>,
) -> Result<usize, Fault> {
    let mut sum: usize = 0;
    for _ in 0..times {
        match plan(alloc, command, 1, view, FILL) {
            Ok(plan) => sum = sum.wrapping_add(plan.point),
            Err(Notice::SearchFailed) => {}
            Err(_) => return Err(Fault::Plan),
        }
    }
    Ok(sum)
}
