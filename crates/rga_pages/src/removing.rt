//! An entry goes.
ghost use Rattle.std.specs.Prelude.{◌≡◌, ◌<◌, vec_len, true};
ghost use Rattle.std.specs.Map.{remove_entry};
ghost use Rattle.std.specs.Ordering.{eq_by_cmp};
ghost use Rattle.rga_ops.specs.Identifier.{id_cmp};
ghost use Rattle.rga_pages.specs.Pages.{entries_in, ArePages, IsSpot};

use crate::page::Page;
use crate::spot::Spot;
use rga_ops::Id;

/// The entry of an identifier goes, and its page where it was the only one there.
pub(crate) fn remove_at(pages: &mut Vec<Page>, at: Spot, id: Id)
    requires kept { ArePages pages.old.items }
    requires page { at.page < vec_len pages.old }
    requires spot { IsSpot pages.old.items at.page at.index true id }
    ensures gone { entries_in pages.new.items
        ≡ remove_entry (eq_by_cmp id_cmp id) (entries_in pages.old.items) }
    ensures kept { ArePages pages.new.items }
{
    if pages[at.page].entries().len() == 1 {
        pages.remove(at.page);
        return;
    }
    pages[at.page].remove(at.index);
}
