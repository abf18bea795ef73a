//! Blocks of counters.
ghost use Rattle.std.specs.Prelude.{◌≡◌};
ghost use Rattle.rga_brief.specs.Digest.{block_of};

use rga_ops::Id;

/// Some counters in a row, of one replica: those from `512 * number` to `512 * number + 511`.
#[derive(Clone, Copy, Debug, PartialEq, Eq, PartialOrd, Ord)]
pub struct Block {
    pub replica: u16,
    pub number: u64,
}

impl Block {
    /// How many counters a block has.
    pub const COUNTERS: u64 = 512;

    /// The block of an identifier.
    pub fn of(id: Id) -> Block
        ensures { result ≡ block_of id }
    {
        Block {
            replica: id.replica(),
            number: id.counter() / Block::COUNTERS,
        }
    }
}
