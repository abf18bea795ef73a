//! Places in blocks.

/// An index in a block.
#[derive(Clone, Copy)]
pub(crate) struct Place {
    pub(crate) block: usize,
    pub(crate) index: usize,
}
