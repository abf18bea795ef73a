//! Where an entry may stand.

/// Where an entry may stand: the name of its block, and its index there. It is for speed alone:
/// wherever an entry is looked for first, the answer is the same.
#[derive(Clone, Copy)]
pub struct Near {
    pub block: usize,
    pub index: usize,
}

impl Near {
    /// The front.
    pub const FRONT: Near = Near { block: 0, index: 0 };
}
