//! Open prompts.
ghost use Rattle.std.specs.Prelude.{◌≡◌};
ghost use Rattle.mg_minibuffer.specs.Prompts as spec;

use mg_keys::Mode;
use mg_plain::{Chars, Direction};

/// What a line of text is asked for.
#[derive(Clone, Copy)]
pub enum Asked {
    /// The name of a command.
    Command,
    /// What is to be replaced.
    Pattern,
    /// The name of the buffer to open, or to go to where it is open.
    Find,
    /// The name of the buffer to go to.
    Switch,
    /// The name of the buffer to remove.
    Kill,
}

/// A search while its pattern is typed.
#[derive(Drop)]
pub struct Search {
    /// Where point was when it began.
    pub origin: usize,
    pub direction: Direction,
    pub pattern: Chars,
    /// Where the match begins that point is at, if there is one.
    pub found: Option<usize>,
}

/// An open prompt.
#[derive(Drop)]
pub enum Prompt {
    /// A line of text is asked for.
    Line {
        asked: Asked,
        answer: Chars,
    },
    /// What the matches of a pattern are replaced by is asked for.
    Replacement {
        pattern: Chars,
        answer: Chars,
    },
    /// A pattern is searched as it is typed.
    Searching(Search),
    /// Point is behind a match, which is to be replaced or kept; so many were replaced.
    Replacing {
        pattern: Chars,
        put: Chars,
        count: usize,
    },
    /// Whether to quit with changed buffers.
    Quitting,
}

impl Prompt {
    /// How bytes are read while it is open.
    pub fn mode(&self) -> Mode
        ensures { result ≡ spec.mode self.now }
    {
        match self {
            Prompt::Line { .. } | Prompt::Replacement { .. } | Prompt::Quitting => Mode::Prompt,
            Prompt::Searching(_) => Mode::Search,
            Prompt::Replacing { .. } => Mode::Query,
        }
    }

    /// What it asks, as the echo line shows it in front of the answer. It ends in a blank.
    pub fn label(&self) -> &'static str
        ensures { result.now ≡ spec.label self.now }
    {
        match self {
            Prompt::Line { asked, .. } => match asked {
                Asked::Command => "M-x ",
                Asked::Pattern => "Query replace: ",
                Asked::Find => "Find file: ",
                Asked::Switch => "Switch to buffer: ",
                Asked::Kill => "Kill buffer: ",
            },
            Prompt::Replacement { .. } => "Query replace with: ",
            Prompt::Searching(search) => match search.direction {
                Direction::Forward => "I-search: ",
                Direction::Backward => "I-search backward: ",
            },
            Prompt::Replacing { .. } => "Query replacing (y n ! q): ",
            Prompt::Quitting => "Changed buffers; quit (y or n): ",
        }
    }

    /// The answer so far, as the echo line shows it.
    pub fn answer(&self) -> &[char]
        ensures { result.now ≡ spec.typed_answer self.now }
    {
        match self {
            Prompt::Line { answer, .. } | Prompt::Replacement { answer, .. } => answer.as_slice(),
            Prompt::Searching(search) => search.pattern.as_slice(),
            Prompt::Replacing { .. } | Prompt::Quitting => &[],
        }
    }
}
