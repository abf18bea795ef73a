//! Where an identifier is in pages.

/// Where an identifier is, or where it would come in.
#[derive(Clone, Copy)]
pub struct Spot {
    pub page: usize,
    pub index: usize,
    /// Whether it is there.
    pub found: bool,
}
