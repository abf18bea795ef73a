//! Buffers, with what an editor keeps.
use mg_buffer::{Buffer, BufferFault, Memo};
use mg_plain::Command;
use rga_doc::Doc;
use rga_ops::Refusal;
use rga_store::TextStore;
use std::alloc::Global;

/// The fill column of each session.
pub const FILL: u16 = 10;

/// A buffer and what its editor keeps.
#[derive(Drop)]
pub struct Session<S: TextStore> {
    pub alloc: Global,
    pub buffer: Buffer<S>,
    pub memo: Memo,
}

/// An empty buffer of a replica that may know so many identifiers.
pub fn open_session<S: TextStore>(
    alloc: Global,
    replica: u16,
    limit: usize,
) -> Result<Session<S>, Refusal> {
    let store = S::new(alloc, limit)?;
    let doc = Doc::new(alloc, store, replica)?;
    let name = String::from_str(alloc, "notes")?;
    Ok(Session {
        alloc,
        buffer: Buffer::new(alloc, doc, name, Vec::new(alloc)),
        memo: Memo::new(alloc),
    })
}

impl<S: TextStore> Session<S> {
    /// Runs a command with the argument 1.
    pub fn run(&mut self, command: &Command) -> Result<(), BufferFault> {
        self.buffer.run(command, 1, &mut self.memo, FILL)
    }
}
