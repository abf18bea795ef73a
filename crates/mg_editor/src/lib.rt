//! The editor: buffers, windows and an open prompt, pressed byte by byte.
//!
//! An `Editor` opens a buffer by what was found of its files, and `press` takes one byte: a command
//! runs in the current buffer, buffers and windows change, or the open prompt goes on. There is no
//! file, no socket and no terminal in sight: what is asked of the files and of peers is answered as
//! a `Request`, which `carry` takes to any port. The crate stands on mg_workspace for buffers and
//! windows, on mg_minibuffer for keys, prompts, messages and what steps lead to, on mg_files for
//! ports and peers, and is generic over any `TextStore`. The layer above may rest on
//! `Pressed`: which step the keys gave, and what that left of the buffers, the windows, the prompt,
//! the message and the keys. A press that answers `Memory` changed nothing but that a key sequence
//! begun is forgotten; where the search behind a replacement finds none, the replacement stays and
//! query-replace ends. It may rest on `Carried` too: which calls a request makes of a port, and
//! what that leaves; on the theorems of `laws`; and on those of `held`, which tie presses and
//! requests to the steps of mg_files. `log_made` and `save_touched` write, of each buffer in turn,
//! what a live session made: `Sweeps` says what that leaves, and `live_laws` what stays. `frame`
//! shows the editor's own windows. Any open buffer takes operations of others, and splices that are
//! undo groups: `taking` and `with_changed` say what that leaves, and where an open search goes
//! then. A text that is pasted is one command, or is typed at the open prompt: `Pasted`.
//! `live_frame` shows the windows so that point is in sight, with the cells of elements beside:
//! `live_rows`, `live_cursor`, `place_cells`. What a status of a live session says of the editor,
//! `specs/LiveStatus.antt` has.
#![tactic(auto)]

mod carrying;
mod editor;
mod failing;
mod fault;
mod framing;
pub mod held;
pub mod laws;
pub mod live_laws;
mod live_places;
mod live_saving;
mod live_showing;
mod live_status;
mod live_taking;
mod meeting;
mod opening;
mod pasting;
mod pressing;
mod telling;

pub use editor::Editor;
pub use fault::CarryFault;
pub use framing::Frame;
pub use live_saving::Writing;
pub use live_showing::LiveFrame;
pub use pasting::PasteFault;
