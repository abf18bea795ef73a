//! The digests of a block.
ghost use Rattle.std.specs.Prelude.{◌≡◌};
ghost use Rattle.rga_brief.specs.Digest as spec;

use rga_ops::Op;

/// The digest of no operation yet: the start of FNV-1a at 64 bits.
const START: u64 = 0xcbf29ce484222325;

/// The multiplier of FNV-1a at 64 bits.
const PRIME: u64 = 0x100000001b3;

/// The digests of a block: that of its insertions, if there are some, and that of its deletions.
///
/// A digest is FNV-1a, at 64 bits, of the numbers of the operations by rising identifier, each
/// number mixed in as a whole: of an insertion its counter, the counter and the replica of its
/// parent, and its character; of a deletion its counter. It is no cryptographic digest: who looks
/// for two lists with one digest finds them, and by chance two share one in 2 ^ 64 cases.
#[derive(Clone, Copy, Debug, PartialEq, Eq)]
pub struct Digests {
    pub inserted: Option<u64>,
    pub deleted: Option<u64>,
}

/// The digest of the insertions of a block.
pub(crate) fn inserted(digests: Option<Digests>) -> Option<u64>
    ensures { result ≡ spec.inserted digests }
{
    digests?.inserted
}

/// The digest of the deletions of a block.
pub(crate) fn deleted(digests: Option<Digests>) -> Option<u64>
    ensures { result ≡ spec.deleted digests }
{
    digests?.deleted
}

/// The digests of a block with one operation more.
pub(crate) fn with_operation(before: Option<Digests>, op: &Op) -> Digests
    ensures { result ≡ spec.with_operation before op.now }
{
    let inserted = inserted(before);
    let deleted = deleted(before);
    match op {
        Op::Insert { .. } => Digests {
            inserted: Some(mix_operation(inserted.unwrap_or(START), op)),
            deleted,
        },
        Op::Delete { .. } => Digests {
            inserted,
            deleted: Some(mix_operation(deleted.unwrap_or(START), op)),
        },
    }
}

/// A digest with one operation more: a round for each of its numbers.
fn mix_operation(digest: u64, op: &Op) -> u64
    ensures { result ≡ spec.mixed_operation digest op.now }
{
    match op {
        Op::Insert { id, parent, ch } => {
            let counter = mix(digest, id.counter());
            let parent_counter = mix(counter, parent.counter());
            let parent_replica = mix(parent_counter, u64::from(parent.replica()));
            mix(parent_replica, u64::from(u32::from(*ch)))
        }
        Op::Delete { id } => mix(digest, id.counter()),
    }
}

/// A digest with one number more: a round of FNV-1a.
fn mix(digest: u64, number: u64) -> u64
    ensures { result ≡ spec.mixed digest number }
{
    (digest ^ number).wrapping_mul(PRIME)
}
