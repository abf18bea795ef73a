//! What a window shows.

/// What a window shows: a buffer, from a line on.
#[derive(Clone, Copy)]
pub struct Viewport {
    /// The index of the buffer.
    pub buffer: usize,
    /// Its first line in the window.
    pub first: usize,
}
