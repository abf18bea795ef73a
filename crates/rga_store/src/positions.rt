//! Where an element stands in the text.
ghost use Rattle.std.specs.Prelude.{◌≡◌, IfSome, position, slice_get};
ghost use Rattle.rga_ops.specs.Identifier.{is_id};
ghost use Rattle.rga_ops.specs.Places.{visible};

use crate::text_store::TextStore;
use rga_ops::Id;

/// The index in the text of a visible element; `None` for what is not visible. Takes no memory.
pub fn position_of<S: TextStore>(store: &S, id: Id) -> Option<usize>
    ensures exact { result ≡ position (λ x. is_id x id) (visible (S.content store.now)) }
    ensures there { IfSome result (λ k. slice_get (visible (S.content store.now)) k ≡ Some id) }
{
    // One that is not inserted is not looked for: that may take a search through all.
    store.get(id)?;
    if store.is_deleted(id) {
        return None;
    }
    store.place_of(id)?.checked_sub(1)
}
