//! The characters of a text with the replicas that wrote them.
ghost use Rattle.std.specs.Prelude.{◌≡◌, IfOk, IfErr, map, zip};
ghost use Rattle.mgr_show.specs.Authors as spec;

use rga_flat::FlatStore;
use rga_ops::{Id, OutOfMemory};
use rga_store::TextStore;
use std::alloc::{AllocError, Global};

/// The visible characters in order, each with the replica that wrote it. `Memory` alone.
pub(crate) fn authored(alloc: Global, store: &FlatStore) -> Result<Vec<(u16, char)>, OutOfMemory>
    ensures ok { IfOk result (λ written. written.items ≡ spec.authored store.now.content) }
{
    let (ids, chars) = store.visible(alloc)?;
    let written = with_replicas(alloc, &ids, &chars)?;
    Ok(written)
}

/// Characters, each with the replica of its identifier.
fn with_replicas(alloc: Global, ids: &[Id], chars: &[char]) -> Result<Vec<(u16, char)>, AllocError>
    ensures { IfOk result (λ written.
        written.items ≡ zip (map (λ id. id.replica) ids.now) chars.now) }
{
    let mut written = Vec::with_capacity(alloc, chars.len())?;
    let mut ids = ids;
    let mut chars = chars;
    'characters: while let (Some((id, more)), Some((ch, behind))) = (
        ids.split_first(),
        chars.split_first(),
    ) {
        written.push((id.replica(), *ch))?;
        ids = more;
        chars = behind;
    }
    Ok(written)
}
