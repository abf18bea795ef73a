//! What bytes lead to.
use mg_plain::Command;

/// How bytes are read.
#[derive(Clone, Copy)]
pub enum Mode {
    /// Keys are commands.
    Plain,
    /// A line is answered.
    Prompt,
    /// A pattern is searched as it is typed.
    Search,
    /// A match is to be replaced or kept.
    Query,
}

/// What is asked before anything is done, and what the editor does with no question.
#[derive(Clone, Copy)]
pub enum Question {
    /// Which file to open.
    Find,
    /// Which buffer to show.
    Switch,
    /// Which buffer to remove.
    Kill,
    /// Which command to run.
    Extended,
    /// What to replace, and by what.
    Replace,
    /// What to search forward.
    Forward,
    /// What to search backward.
    Backward,
    /// To save: nothing is asked.
    Save,
    /// To undo: nothing is asked.
    Undo,
    /// Whether to quit with changed buffers.
    Quit,
}

/// A command on windows.
#[derive(Clone, Copy)]
pub enum WindowCommand {
    Split,
    Remove,
    Only,
    Other,
    Recenter,
    ScrollUp,
    ScrollDown,
}

/// An answer while matches are replaced.
#[derive(Clone, Copy)]
pub enum Answer {
    Yes,
    No,
    All,
    Quit,
}

/// What a byte leads to.
#[derive(Drop)]
pub enum Step {
    /// More bytes are wanted.
    Pending,
    /// A command on the text, with its argument.
    Run(Command, u16),
    Ask(Question),
    Edge(WindowCommand),
    /// A character of an answer or of a pattern.
    Text(char),
    /// Takes the last character off.
    Rub,
    /// Ends the prompt with its answer.
    Accept,
    /// Ends whatever was begun.
    Cancel,
    /// On to the next match.
    Next,
    /// Back to the match before.
    Prev,
    Answer(Answer),
    /// A byte that ends a search and is then pressed by itself.
    Leave,
    /// No key.
    Unbound,
}
