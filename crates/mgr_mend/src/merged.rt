//! What a merge did.

/// What a merge did.
#[derive(Drop)]
pub struct Merged {
    /// How many operations were new.
    pub new: usize,
    /// The logs whose last line was cut off and left out.
    pub torn: Vec<Torn>,
}

/// A log whose last line was cut off: its index, from 0, and the number of that line, from 1.
#[derive(Clone, Copy, PartialEq, Eq)]
pub struct Torn {
    pub log: usize,
    pub line: u64,
}
