//! How large a screen may be.

/// One window of one text row, its mode line and the echo line.
pub const MIN_ROWS: usize = 3;

/// The most rows of a screen.
pub const MAX_ROWS: usize = 200;

/// The fewest columns of a screen.
pub const MIN_COLUMNS: usize = 20;

/// The most columns of a screen.
pub const MAX_COLUMNS: usize = 500;

/// The fewest text rows of a window that is split: one for each half, and one that becomes the
/// upper half's mode line.
pub const MIN_SPLIT_HEIGHT: usize = 3;
