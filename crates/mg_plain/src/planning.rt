//! What each command does.
ghost use Rattle.std.specs.Prelude.{◌≡◌, true, Err};
ghost use Rattle.mg_plain.specs.Answer.{IsEffectAnswer};
ghost use Rattle.mg_plain.specs.Commands.{effect, needs_memory};
ghost use Rattle.mg_plain.specs.Memory.{NoticeMemory as Memory};

use crate::cases::{Casing, recase_word, transpose_chars};
use crate::command::Command;
use crate::gaps::fill_paragraph;
use crate::insertions::{insert, newline_and_indent, open_line, type_in, yank};
use crate::kills::{delete_backward_char, delete_char, kill_line, kill_region, kill_word};
use crate::mark::{copy_region_as_kill, exchange_point_and_mark, mark_at};
use crate::motions::{backward_char, by_lines, by_words, forward_char, move_to, scroll};
use crate::outcome::{Notice, Plan};
use crate::replacement::{
    replace_all, replace_one, replace_range, search_backward, search_forward,
};
use crate::steps::Direction;
use crate::view::View;
use crate::{line_begin, line_end};
use std::alloc::Global;

/// What a command does to a text with the argument and the fill column, or the notice why it is not
/// done. The argument 0 moves, inserts and deletes nothing, and is no notice.
///
/// Notices: `BeginningOfBuffer` and `EndOfBuffer` where there is too little text, `EndOfBuffer` too
/// where a range does not lie within it, `NoMark` where a command of the region has none,
/// `SearchFailed` where a pattern is not found, does not stand where it is to be replaced, or is
/// empty there; `Memory`, which comes last. Motions, searches and the commands that set the mark
/// take no memory.
pub fn plan(
    alloc: Global,
    command: &Command,
    arg: u16,
    view: &View<'_>,
    fill: u16,
) -> Result<Plan, Notice>
    ensures exact { IsEffectAnswer result (effect command.now arg view.now fill) }
    ensures memory { result ≡ Err Memory → needs_memory command.now ≡ true }
{
    match command {
        Command::Insert(ch) => insert(alloc, view, *ch, arg),
        Command::Newline => insert(alloc, view, '\n', arg),
        Command::OpenLine => open_line(alloc, view, arg),
        Command::NewlineAndIndent => newline_and_indent(alloc, view),
        Command::ForwardChar => forward_char(alloc, view, arg),
        Command::BackwardChar => backward_char(alloc, view, arg),
        Command::BeginningOfLine => Ok(move_to(alloc, view, line_begin(view.text, view.point))),
        Command::EndOfLine => Ok(move_to(alloc, view, line_end(view.text, view.point))),
        Command::BeginningOfBuffer => Ok(move_to(alloc, view, 0)),
        Command::EndOfBuffer => Ok(move_to(alloc, view, view.text.len())),
        Command::NextLine => by_lines(alloc, view, arg, Direction::Forward),
        Command::PreviousLine => by_lines(alloc, view, arg, Direction::Backward),
        Command::ScrollUp { rows } => scroll(alloc, view, *rows, Direction::Forward),
        Command::ScrollDown { rows } => scroll(alloc, view, *rows, Direction::Backward),
        Command::ForwardWord => by_words(alloc, view, arg, Direction::Forward),
        Command::BackwardWord => by_words(alloc, view, arg, Direction::Backward),
        Command::DeleteChar => delete_char(alloc, view, arg),
        Command::DeleteBackwardChar => delete_backward_char(alloc, view, arg),
        Command::KillLine => kill_line(alloc, view),
        Command::KillWord => kill_word(alloc, view),
        Command::KillRegion => kill_region(alloc, view),
        Command::CopyRegionAsKill => copy_region_as_kill(alloc, view),
        Command::Yank => yank(alloc, view),
        Command::SetMarkCommand => Ok(mark_at(alloc, view, view.point, view.point)),
        Command::ExchangePointAndMark => exchange_point_and_mark(alloc, view),
        Command::MarkWholeBuffer => Ok(mark_at(alloc, view, 0, view.text.len())),
        Command::TransposeChars => transpose_chars(alloc, view),
        Command::UpcaseWord => recase_word(alloc, view, Casing::Upper),
        Command::DowncaseWord => recase_word(alloc, view, Casing::Lower),
        Command::CapitalizeWord => recase_word(alloc, view, Casing::Capital),
        Command::SearchForward { pattern, start } => {
            search_forward(alloc, view, pattern.as_slice(), *start)
        }
        Command::SearchBackward { pattern, start } => {
            search_backward(alloc, view, pattern.as_slice(), *start)
        }
        Command::ReplaceOne { pattern, put } => replace_one(
            alloc,
            pattern.as_slice(),
            put.as_slice(),
            view,
        ),
        Command::ReplaceAll { pattern, put } => replace_all(
            alloc,
            pattern.as_slice(),
            put.as_slice(),
            view,
        ),
        Command::InsertText(put) => {
            type_in(alloc, view, Vec::from_slice(alloc, put.as_slice())?)
        }
        Command::ReplaceRange { lo, hi, put } => {
            replace_range(alloc, view, *lo, *hi, put.as_slice())
        }
        Command::FillParagraph => fill_paragraph(alloc, view, fill),
    }
}
