//! Entries.
use rga_ops::Id;

/// An element as it stands in a sequence.
#[derive(Clone, Copy, PartialEq, Eq)]
pub struct Entry {
    /// The element's identifier.
    pub id: Id,
    /// Its character.
    pub ch: char,
    /// Whether it is deleted, and so not visible.
    pub deleted: bool,
}
