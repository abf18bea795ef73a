//! A content, told as operations one by one.
ghost use Rattle.std.specs.Prelude.{◌≡◌, ◌∷◌, [], map, IfErr, OnOk};
ghost use Rattle.std.specs.List.{filter_map};
ghost use Rattle.rga_ops.specs.Operations.{insertion_of};
ghost use Rattle.rga_pages.specs.Pages.{entries_in};
ghost use Rattle.rga_records.specs.Records.{insertion_of_record, marked_record_ids};

use rga_ops::{Id, Op, OutOfMemory};
use rga_pages::{Page, Record};
use rga_store::Listener;

/// Tells the operations of the records, in their order.
pub(crate) fn tell_pages<L: Listener, M: Listener>(
    pages: &Vec<Page>,
    of_insertions: &mut L,
    of_deletions: &mut M,
) -> Result<(), OutOfMemory>
    ensures insertions { let insertions = filter_map insertion_of_record
        (entries_in pages.now.items) in
        OnOk result (L.hears of_insertions.old (map insertion_of insertions) of_insertions.new) }
    ensures deletions { let ids = marked_record_ids (entries_in pages.now.items) in
        OnOk result (M.hears of_deletions.old (map Op.Delete ids) of_deletions.new) }
{
    for page in pages {
        tell_entries(page.entries(), of_insertions, of_deletions)?;
    }
    Ok(())
}

/// Tells the operations of some records, in their order.
fn tell_entries<L: Listener, M: Listener>(
    entries: &[(Id, Record)],
    of_insertions: &mut L,
    of_deletions: &mut M,
) -> Result<(), OutOfMemory>
    ensures insertions { let insertions = filter_map insertion_of_record entries.now in
        OnOk result (L.hears of_insertions.old (map insertion_of insertions) of_insertions.new) }
    ensures deletions { let ids = marked_record_ids entries.now in
        OnOk result (M.hears of_deletions.old (map Op.Delete ids) of_deletions.new) }
{
    for entry in entries {
        tell_insertion(entry, of_insertions)?;
        tell_deletion(entry, of_deletions)?;
    }
    Ok(())
}

/// Tells the insertion of a record, if it has one.
fn tell_insertion<L: Listener>(entry: &(Id, Record), listener: &mut L) -> Result<(), OutOfMemory>
    ensures ok { let insertions = filter_map insertion_of_record (entry.now ∷ []) in
        OnOk result (L.hears listener.old (map insertion_of insertions) listener.new) }
{
    if let Some((parent, ch)) = entry.1.element() {
        let id = entry.0;
        listener.hear(&Op::Insert { id, parent, ch })?;
    }
    Ok(())
}

/// Tells the deletion of a record, if it has one.
fn tell_deletion<L: Listener>(entry: &(Id, Record), listener: &mut L) -> Result<(), OutOfMemory>
    ensures ok { let ids = marked_record_ids (entry.now ∷ []) in
        OnOk result (L.hears listener.old (map Op.Delete ids) listener.new) }
{
    if entry.1.deleted {
        listener.hear(&Op::Delete { id: entry.0 })?;
    }
    Ok(())
}

/// What keeps nothing of what it is told.
#[derive(Drop)]
pub(crate) struct Deaf;

impl Listener for Deaf {
    ghost hears = { λ s ops t. Unit {0} };

    ghost hears_nothing = { λ s. tt };

    ghost hears_on = { λ s t u xs ys a b. tt };

    fn hear(&mut self, _op: &Op) -> Result<(), OutOfMemory> {
        Ok(())
    }
}
