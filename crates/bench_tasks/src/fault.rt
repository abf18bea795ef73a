//! Why a task is not done.

/// Why a task is not done.
#[derive(Clone, Copy, Debug, thiserror::Error)]
pub enum Fault {
    #[error("say what is to be done: the head of the module says how")]
    Words,
    #[error("standard input failed")]
    Read,
    #[error("standard output failed")]
    Write,
    #[error("out of memory")]
    Memory,
    /// A store, a document, a buffer or a world refuses.
    #[error("refused")]
    Refused,
    #[error("no plan")]
    Plan,
    #[error("no frame")]
    Frame,
    #[error("the windows stay")]
    Windows,
    #[error("not read to the end")]
    NotRead,
    #[error("not written")]
    NotWritten,
}
