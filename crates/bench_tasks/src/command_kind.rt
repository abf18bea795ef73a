//! The kinds of commands that are timed.
use mg_plain::{Chars, Command};
use std::alloc::{AllocError, Global};

/// Which command; a search and a replacement have one pattern each.
#[derive(Clone, Copy)]
pub enum CommandKind {
    ForwardChar,
    BackwardChar,
    ForwardWord,
    NextLine,
    BeginningOfLine,
    Insert,
    KillLine,
    KillRegion,
    Yank,
    CapitalizeWord,
    FillParagraph,
    MarkWholeBuffer,
    /// For what no text here holds.
    SearchForward,
    /// Of the begin of each word.
    ReplaceAll,
}

/// The command of a kind.
pub fn command_of(alloc: Global, kind: CommandKind) -> Result<Command, AllocError> {
    match kind {
        CommandKind::SearchForward => Ok(Command::SearchForward {
            pattern: Chars::from_slice(alloc, &['z', 'z'])?,
            start: 0,
        }),
        CommandKind::ReplaceAll => replacement(alloc),
        _ => Ok(plain_command(kind)),
    }
}

fn replacement(alloc: Global) -> Result<Command, AllocError> {
    let pattern = Chars::from_slice(alloc, &['w', 'o'])?;
    let put = Chars::from_slice(alloc, &['W', 'O', 'O'])?;
    Ok(Command::ReplaceAll { pattern, put })
}

/// The command that needs no more than its name.
fn plain_command(kind: CommandKind) -> Command {
    match kind {
        CommandKind::ForwardChar => Command::ForwardChar,
        CommandKind::BackwardChar => Command::BackwardChar,
        CommandKind::ForwardWord => Command::ForwardWord,
        CommandKind::NextLine => Command::NextLine,
        CommandKind::BeginningOfLine => Command::BeginningOfLine,
        CommandKind::KillLine => Command::KillLine,
        CommandKind::KillRegion => Command::KillRegion,
        CommandKind::Yank => Command::Yank,
        CommandKind::CapitalizeWord => Command::CapitalizeWord,
        CommandKind::FillParagraph => Command::FillParagraph,
        CommandKind::MarkWholeBuffer => Command::MarkWholeBuffer,
        _ => Command::Insert('a'),
    }
}
