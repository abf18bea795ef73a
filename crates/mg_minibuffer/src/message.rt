//! Messages of the echo line.
ghost use Rattle.std.specs.Prelude.{◌≡◌, IfOk, string_bytes};
ghost use Rattle.mg_minibuffer.specs.Messages as spec;

use mg_plain::Notice;
use rga_lines::LineFault;
use rga_ops::Refusal;
use std::alloc::{AllocError, Global};

/// What the echo line says. A message stands until the next step that is not pending.
#[derive(Clone, Copy)]
pub enum Message {
    /// Nothing: an open prompt shows.
    Nothing,
    Quit,
    UndefinedKey,
    /// A command, a search or an undo was not done.
    Refused(Notice),
    /// The document has no room for more identifiers.
    BufferFull,
    /// No counter is left for a new identifier.
    IdentifiersUsedUp,
    /// Query-replace has ended, with so many replacements.
    Replaced(usize),
    NoSuchCommand,
    WindowTooSmall,
    OnlyOneWindow,
    /// The buffer was saved.
    Wrote,
    /// There was nothing to save.
    NoChanges,
    /// The last line of the log was cut off, and so many bytes were left out.
    TornLog(u64),
    FileFault,
    NoSuchBuffer,
    /// The buffer was not removed, since it is changed.
    BufferIsChanged,
    OnlyOneBuffer,
    /// No buffer was opened, since as many are open as may be.
    TooManyBuffers,
    /// The text that was to be opened is not UTF-8.
    NotText,
    /// That line of a log, or of what a peer said, is no operation.
    BadLine(u64, LineFault),
    /// The operation in that line was not taken.
    RefusedLine(u64, Refusal),
    /// So many operations were sent to a peer, and so many were received.
    Exchanged(u64, u64),
    /// A link to a peer was not opened, or failed.
    SocketFault,
    /// There is nowhere to meet a peer.
    NoPort,
    /// A peer ended before it had said all.
    Cut,
    /// A peer named another number of operations than it sent.
    WrongCount,
}

impl Message {
    /// The message as the echo line shows it, of a buffer with that name.
    pub fn text(self, alloc: Global, name: &str) -> Result<String, AllocError>
        ensures { IfOk result (λ text. string_bytes text ≡ spec.message_text self name.now) }
    {
        match self {
            Message::Nothing => Ok(String::new(alloc)),
            Message::Quit => String::from_str(alloc, "Quit"),
            Message::UndefinedKey => String::from_str(alloc, "Undefined key"),
            Message::Refused(notice) => String::from_str(alloc, notice.message()),
            Message::BufferFull => String::from_str(alloc, "Buffer full"),
            Message::IdentifiersUsedUp => String::from_str(alloc, "Identifiers used up"),
            Message::Replaced(count) => format!(in alloc; "Replaced {count}"),
            Message::NoSuchCommand => String::from_str(alloc, "No such command"),
            Message::WindowTooSmall => String::from_str(alloc, "Window too small"),
            Message::OnlyOneWindow => String::from_str(alloc, "Only one window"),
            Message::Wrote => format!(in alloc; "Wrote {name}"),
            Message::NoChanges => String::from_str(alloc, "No changes"),
            Message::TornLog(bytes) => format!(in alloc; "Torn log: {bytes} bytes left out"),
            Message::FileFault => String::from_str(alloc, "File fault"),
            Message::NoSuchBuffer => String::from_str(alloc, "No such buffer"),
            Message::BufferIsChanged => String::from_str(alloc, "Buffer is changed"),
            Message::OnlyOneBuffer => String::from_str(alloc, "Only one buffer"),
            Message::TooManyBuffers => String::from_str(alloc, "Too many buffers"),
            Message::NotText => String::from_str(alloc, "text: not UTF-8"),
            Message::BadLine(line, fault) => line_text(alloc, line, fault.name()),
            Message::RefusedLine(line, refusal) => line_text(alloc, line, refusal.name()),
            Message::Exchanged(sent, received) => {
                format!(in alloc; "Sent {sent}, received {received}")
            }
            Message::SocketFault => String::from_str(alloc, "Socket fault"),
            Message::NoPort => String::from_str(alloc, "No port"),
            Message::Cut => String::from_str(alloc, "Cut"),
            Message::WrongCount => String::from_str(alloc, "Wrong count"),
        }
    }
}

/// What is wrong with a line.
fn line_text(alloc: Global, line: u64, name: &str) -> Result<String, AllocError>
    ensures { IfOk result (λ text. string_bytes text ≡ spec.line_text line name.now) }
{
    format!(in alloc; "line {line}: {name}")
}
