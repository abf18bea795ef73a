//! Records under their identifiers: look-ups, and changes of one record.
ghost use Rattle.std.specs.Prelude.{◌≡◌, is_some, IfOk, OnOk, OnErr, IfErr, None, Ok, false, true};
ghost use Rattle.std.specs.Option.{option_and_then, option_map_or};
ghost use Rattle.std.specs.FinMap as finite_map;
ghost use Rattle.std.specs.FinSet as finite_set;
ghost use Rattle.rga_ops.specs.Prelude.{element_at, join, known_ids, single};
ghost use Rattle.rga_ops.specs.declared.op.Op.TheVariants.{Insert, Delete};
ghost use Rattle.rga_store.specs.Without.{without_insertion, without_deletion};
ghost use Rattle.rga_records.specs.Records.{content_of_records, element_of_record, is_meaningful, AreOrdered};

use rga_ops::{Id, OutOfMemory};
use rga_pages::{Pages, Record};
use rga_sequence::Near;

/// Whether a record means anything.
pub(crate) fn is_record_known(known: &Record) -> bool
    ensures { result ≡ is_meaningful known.now }
{
    known.ch.is_some() || known.deleted
}

/// The record that was found, or else one that means nothing yet.
pub(crate) fn found_or_new(found: Option<Record>) -> Record
    ensures element { element_of_record result ≡ option_and_then element_of_record found }
    ensures mark { result.deleted ≡ option_map_or (λ v. v.deleted) found false }
{
    match found {
        Some(record) => record,
        None => Record::new(),
    }
}

/// The name of a block as records have it: 0 where it has no room there.
pub(crate) fn short_name(block: usize) -> u32 {
    u32::try_from(block).unwrap_or(0)
}

/// An index in a block as records have it: 0 where it has no room there.
pub(crate) fn short_index(index: usize) -> u8 {
    u8::try_from(index).unwrap_or(0)
}

/// The parent and the character of an element that is inserted.
pub(crate) fn find_element(entries: &Pages, id: Id) -> Option<(Id, char)>
    ensures { result ≡ element_at (content_of_records entries.now) id }
{
    entries.get(id)?.element()
}

/// Whether an identifier is deleted.
pub(crate) fn is_marked(entries: &Pages, id: Id) -> bool
    ensures { result ≡ finite_set.contains (content_of_records entries.now).deleted id }
{
    match entries.get(id) {
        Some(record) => record.deleted,
        None => false,
    }
}

/// Whether an identifier is inserted, deleted or both.
pub(crate) fn is_known(entries: &Pages, id: Id) -> bool
    ensures { result ≡ finite_set.contains (known_ids (content_of_records entries.now)) id }
{
    match entries.get(id) {
        Some(record) => is_record_known(&record),
        None => false,
    }
}

/// An identifier gets its element, and where that may stand. It may be deleted already.
#[inline(always)]
pub(crate) fn set_element(
    entries: &mut Pages,
    id: Id,
    parent: Id,
    ch: char,
    near: Near,
    deleted: bool,
) -> Result<(), OutOfMemory>
    requires absent { finite_map.get (content_of_records entries.old).inserted id ≡ None }
    requires deleted { deleted
        ≡ finite_set.contains (content_of_records entries.old).deleted id }
    ensures content { OnOk result (content_of_records entries.new
        ≡ join (content_of_records entries.old) (single (Insert id parent ch))) }
    ensures same { OnErr result
        (content_of_records entries.new ≡ content_of_records entries.old) }
    ensures ordered { AreOrdered entries.new }
{
    let block = short_name(near.block);
    let index = short_index(near.index);
    let record = Record::inserted(parent, ch, block, index, deleted);
    entries.insert(id, record)
}

/// An identifier of which nothing is known gets its element, if something is known of others. Says
/// whether it got it.
#[inline(always)]
pub(crate) fn add_element(
    entries: &mut Pages,
    id: Id,
    parent: Id,
    ch: char,
) -> Result<bool, OutOfMemory>
    ensures absent { let content = content_of_records entries.old in
        result ≡ Ok true → finite_map.get content.inserted id ≡ None }
    ensures unmarked { let content = content_of_records entries.old in
        result ≡ Ok true → finite_set.contains content.deleted id ≡ false }
    ensures refused { let content = content_of_records entries.old in
        OnErr result (finite_map.get content.inserted id ≡ None) }
    ensures content { result ≡ Ok true → content_of_records entries.new
        ≡ join (content_of_records entries.old) (single (Insert id parent ch)) }
    ensures known { result ≡ Ok false →
        content_of_records entries.new ≡ content_of_records entries.old }
    ensures same { OnErr result
        (content_of_records entries.new ≡ content_of_records entries.old) }
    ensures ordered { AreOrdered entries.new }
{
    entries.insert_absent(id, Record::inserted(parent, ch, 0, 0, false))
}

/// An identifier gets its mark. Says whether it is inserted already. `Memory` only where it is not.
pub(crate) fn mark(entries: &mut Pages, id: Id) -> Result<bool, OutOfMemory>
    ensures inserted { let content = content_of_records entries.old in
        IfOk result (λ inserted. inserted ≡ finite_map.contains_key content.inserted id) }
    ensures content { OnOk result (content_of_records entries.new
        ≡ join (content_of_records entries.old) (single (Delete id))) }
    ensures same { OnErr result
        (content_of_records entries.new ≡ content_of_records entries.old) }
    ensures growth { let content = content_of_records entries.old in
        OnErr result (finite_map.contains_key content.inserted id ≡ false) }
    ensures ordered { AreOrdered entries.new }
{
    match entries.mark(id) {
        Some(record) => Ok(record.ch.is_some()),
        None => {
            entries.insert(id, Record::new().marked())?;
            Ok(false)
        }
    }
}

/// An identifier gets its mark, if it is inserted and not deleted. Says whether it got it.
#[inline(always)]
pub(crate) fn mark_inserted(entries: &mut Pages, id: Id) -> bool
    ensures inserted { let content = content_of_records entries.old in
        result ≡ true → finite_map.contains_key content.inserted id ≡ true }
    ensures unmarked { let content = content_of_records entries.old in
        result ≡ true → finite_set.contains content.deleted id ≡ false }
    ensures content { result ≡ true → content_of_records entries.new
        ≡ join (content_of_records entries.old) (single (Delete id)) }
    ensures kept { result ≡ false →
        content_of_records entries.new ≡ content_of_records entries.old }
    ensures ordered { AreOrdered entries.new }
{
    entries.mark_inserted(id)
}

/// Where the element of a record that has one may stand.
fn near_if_inserted(known: Record) -> Option<Near>
    ensures { is_some result ≡ is_some (element_of_record known) }
{
    match known.ch {
        Some(_) => Some(Near {
            block: known.block as usize,
            index: known.index as usize,
        }),
        None => None,
    }
}

/// The element of an identifier goes, and with it a record that has no mark. Says whether the
/// identifier is deleted.
pub(crate) fn clear_element(entries: &mut Pages, id: Id) -> bool
    ensures deleted { let content = content_of_records entries.old in
        result ≡ finite_set.contains content.deleted id }
    ensures content { content_of_records entries.new
        ≡ without_insertion id (content_of_records entries.old) }
    ensures ordered { AreOrdered entries.new }
{
    let record = found_or_new(entries.look_up(id));
    if !record.deleted {
        entries.remove(id);
        return false;
    }
    entries.set(id, Record::new().marked());
    true
}

/// The mark of an identifier goes, and with it a record that has no element. Says whether the
/// identifier is inserted.
pub(crate) fn clear_mark(entries: &mut Pages, id: Id) -> bool
    ensures inserted { let content = content_of_records entries.old in
        result ≡ finite_map.contains_key content.inserted id }
    ensures content { content_of_records entries.new
        ≡ without_deletion id (content_of_records entries.old) }
    ensures ordered { AreOrdered entries.new }
{
    let record = found_or_new(entries.look_up(id));
    if record.ch.is_none() {
        entries.remove(id);
        return false;
    }
    entries.set(id, record.unmarked());
    true
}

/// Where the element of an identifier that is inserted may stand.
pub(crate) fn near_of(entries: &Pages, id: Id) -> Option<Near>
    ensures { let content = content_of_records entries.now in
        is_some result ≡ finite_map.contains_key content.inserted id }
{
    near_if_inserted(entries.get(id)?)
}

/// The record of an identifier, if there is one, says where the element may stand.
pub(crate) fn set_near(entries: &mut Pages, id: Id, near: Near)
    ensures content { content_of_records entries.new ≡ content_of_records entries.old }
    ensures ordered { AreOrdered entries.new }
{
    entries.note(id, short_name(near.block), short_index(near.index));
}
