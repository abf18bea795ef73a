//! Buffers: documents that commands run on.
//!
//! A `Buffer` is a document with a name, a point and a mark that survive others' edits, the groups
//! by which one's own edits are undone, and the operations that are not saved. It runs the commands
//! of mg_plain on its text, and is a `Taker`: operations of others go through it. A `VisitedBuffer`
//! is one that visits files, with what is still to be written of it. The crate stands on rga_doc
//! for the document, on mg_plain for what commands do, and on rga_store for what is found before
//! anything is changed; it is generic over any `TextStore`. The layer above may rest on three
//! records of facts, one for each way in which a buffer changes: `Ran` of a command, `Undid` of an
//! undo, `TakesOperations` of operations that were taken. A refusal changes nothing. Other places
//! than point and mark can be kept by the elements before them: `carried` says where they go.
#![tactic(auto)]

mod buffer;
mod change;
mod characters;
mod elements;
mod fault;
mod history;
mod kill_buffer;
pub mod laws;
mod line_numbers;
mod marker;
mod memo;
mod restored;
mod room;
mod running;
mod sight;
mod taking;
mod undoing;
mod visited_buffer;

pub use buffer::Buffer;
pub use characters::{push_characters, string_of};
pub use fault::BufferFault;
pub use line_numbers::line_of;
pub use memo::Memo;
pub use sight::Sight;
pub use visited_buffer::VisitedBuffer;
