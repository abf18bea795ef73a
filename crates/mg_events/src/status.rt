//! What a status says.
use mg_screen::Position;
use rga_ops::{Id, Splice};

/// What the session asks of the writer.
#[derive(Clone, Copy, PartialEq, Eq)]
pub enum Asking {
    /// Nothing: keys are commands.
    Plain,
    /// An answer to a prompt.
    Prompt,
    /// What to search for.
    Search,
    /// Whether to replace.
    Query,
}

/// How the last writing of a log ended.
#[derive(Clone, Copy, PartialEq, Eq)]
pub enum Saved {
    /// None was tried.
    Unsaved,
    /// All was written.
    Done,
    /// A file was not written.
    File,
    /// A growth of memory was refused.
    Memory,
}

/// The open prompt.
#[derive(Clone, Copy)]
pub struct PromptStatus<'a> {
    pub label: &'a str,
    /// What was typed so far.
    pub answer: &'a [char],
}

/// What is told of a buffer.
#[derive(Clone, Copy)]
pub struct BufferStatus<'a> {
    pub name: &'a str,
    /// Whether it has changes that are not saved.
    pub changed: bool,
    /// How many insertions wait for the one that they stand after.
    pub waiting: usize,
    /// How many operations are not in the log.
    pub unsaved: usize,
}

/// Where point stands.
#[derive(Clone, Copy)]
pub struct PointStatus {
    pub line: usize,
    /// How many characters stand before it in its line.
    pub column: usize,
    /// What it stands after.
    pub element: Id,
}

/// A window.
#[derive(Clone, Copy)]
pub struct WindowStatus<'a> {
    /// How many text rows it has.
    pub rows: usize,
    /// The name of its buffer.
    pub name: &'a str,
}

/// A place that a window shows.
#[derive(Clone, Copy)]
pub struct PlaceStatus {
    /// What it stands after.
    pub element: Id,
    pub row: usize,
    pub column: usize,
}

/// A report that was not taken.
#[derive(Clone, Copy)]
pub struct RefusedReport {
    /// Which report it was, from 1.
    pub number: u64,
    /// The name of its fault.
    pub fault: &'static str,
}

/// The status of a session. Its members are written in this order, by these names.
#[derive(Clone, Copy)]
pub struct Status<'a> {
    /// Whether a key sequence or a character was begun.
    pub begun: bool,
    /// The current buffer.
    pub buffer: BufferStatus<'a>,
    /// What changed in the text of the live buffer. The member is left out if this is `None`.
    pub changes: Option<&'a [Splice]>,
    /// Where the cursor stands in the frame.
    pub cursor: Option<Position>,
    /// How many keys were taken.
    pub keys: u64,
    /// The live buffer.
    pub live: Option<BufferStatus<'a>>,
    /// Whether a log was read as the session opened the live buffer.
    pub loaded: bool,
    /// What the echo line says beside a prompt.
    pub message: &'a str,
    pub mode: Asking,
    /// Whether a second status of the same block follows.
    pub more: bool,
    /// How many lines of operations follow.
    pub operations: usize,
    /// The places that a window over the live buffer shows.
    pub places: &'a [PlaceStatus],
    /// Of the current buffer.
    pub point: PointStatus,
    pub prompt: Option<PromptStatus<'a>>,
    /// The reports of this block that were not taken.
    pub refused: &'a [RefusedReport],
    /// How many reports were taken or refused.
    pub reports: u64,
    /// How many rows of the frame follow.
    pub rows: usize,
    pub saved: Saved,
    /// The windows from the top on.
    pub windows: &'a [WindowStatus<'a>],
}
