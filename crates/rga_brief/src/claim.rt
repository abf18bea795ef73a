//! What a line of a summary says.
use crate::block::Block;
use crate::digests::Digests;

/// What each half of a digest is below.
pub(crate) const HALF: u64 = 4294967296;

/// What a line of a summary says: the digests of a block.
#[derive(Clone, Copy, Debug, PartialEq, Eq)]
pub struct Claim {
    pub block: Block,
    pub digests: Digests,
}
