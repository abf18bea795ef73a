//! Entries in one piece, looked through one by one.
ghost use Rattle.std.specs.Prelude.{◌≡◌, ◌≤◌, ◌<◌, ◌+◌, ◌++◌, ◌∷◌, [], length, slice_get, None, Some, IfSome, true, false, take, drop, OnOk, IfErr};
ghost use Rattle.std.specs.Ordering.{is_gt};
ghost use Rattle.rga_ops.specs.Identifier.{id_cmp};
ghost use Rattle.rga_sequence.specs.Entries.{ids, has, visible_count, visible_ids, visible_text};
ghost use Rattle.rga_sequence.specs.Blocks.{larger_at_front, AreFrom};

use crate::entry::Entry;
use rga_ops::{Id, OutOfMemory};

/// Whether an identifier is larger than another.
pub(crate) fn is_larger(id: Id, other: Id) -> bool
    ensures { result ≡ is_gt (id_cmp id other) }
{
    id > other
}

/// The first index from `from` on where no identifier larger than `id` stands.
pub(crate) fn past_larger(entries: &[Entry], from: usize, id: Id) -> usize
    requires { from ≤ length entries.now }
    ensures index { result ≡ from + larger_at_front id (drop from entries.now) }
    ensures within { result ≤ length entries.now }
{
    let mut i = from;
    while i < entries.len() && is_larger(entries[i].id, id) {
        i += 1;
    }
    i
}

/// The first index of an identifier.
fn index_of(entries: &[Entry], id: Id) -> Option<usize>
    ensures some { IfSome result (λ i. slice_get (ids entries.now) i ≡ Some id) }
    ensures within { IfSome result (λ i. i < length entries.now) }
    ensures none { result ≡ None → has id entries.now ≡ false }
{
    let mut i = 0;
    while i < entries.len() {
        if entries[i].id == id {
            return Some(i);
        }
        i += 1;
    }
    None
}

/// An index of an identifier, which is looked for from one on first, and then before it.
pub(crate) fn index_from(entries: &[Entry], from: usize, id: Id) -> Option<usize>
    ensures some { IfSome result (λ i. slice_get (ids entries.now) i ≡ Some id) }
    ensures within { IfSome result (λ i. i < length entries.now) }
    ensures none { result ≡ None → has id entries.now ≡ false }
{
    let (before, behind) = entries.split_at(from.min(entries.len()));
    if let Some(index) = index_of(behind, id) {
        return Some(before.len() + index);
    }
    index_of(before, id)
}

/// Whether an identifier stands at an index.
pub(crate) fn is_at(entries: &[Entry], index: usize, id: Id) -> bool
    ensures there { result ≡ true → slice_get (ids entries.now) index ≡ Some id }
    ensures within { result ≡ true → index < length entries.now }
{
    if index >= entries.len() {
        return false;
    }
    entries[index].id == id
}

/// The k-th identifier.
pub(crate) fn id_at(entries: &[Entry], k: usize) -> Option<Id>
    ensures { result ≡ slice_get (ids entries.now) k }
{
    match entries.get(k) {
        Some(entry) => Some(entry.id),
        None => None,
    }
}

/// How many of one entry are visible.
pub(crate) fn count_one(entry: Entry) -> usize
    ensures { result ≡ visible_count (entry ∷ []) }
{
    if entry.deleted { 0 } else { 1 }
}

/// How many entries are visible.
pub(crate) fn count_visible(entries: &[Entry]) -> usize
    ensures { result ≡ visible_count entries.now }
{
    let mut count = 0;
    for entry in entries {
        count += count_one(*entry);
    }
    count
}

/// The lesser one of two identifiers.
pub(crate) fn lesser(id: Id, other: Id) -> Id
    ensures first { is_gt (id_cmp result id) ≡ false }
    ensures second { is_gt (id_cmp result other) ≡ false }
{
    if id > other { other } else { id }
}

/// An identifier that none of the entries' is less than: their least; the root where there is none.
pub(crate) fn least_of(entries: &[Entry]) -> Id
    ensures { AreFrom result entries.now }
{
    if entries.len() == 0 {
        return Id::ROOT;
    }
    let mut least = entries[0].id;
    for entry in entries {
        least = lesser(least, entry.id);
    }
    least
}

/// The k-th visible entry.
pub(crate) fn visible_at(entries: &[Entry], k: usize) -> Option<Id>
    ensures { result ≡ slice_get (visible_ids entries.now) k }
{
    let mut left = k;
    for entry in entries {
        if !entry.deleted {
            if left == 0 {
                return Some(entry.id);
            }
            left -= 1;
        }
    }
    None
}

/// The identifiers go behind a list.
pub(crate) fn push_ids(list: &mut Vec<Id>, entries: &[Entry]) -> Result<(), OutOfMemory>
    ensures ok { OnOk result (list.new.items ≡ list.old.items ++ ids entries.now) }
{
    for entry in entries {
        list.push(entry.id)?;
    }
    Ok(())
}

/// The identifiers from the lo-th to the one before the hi-th go behind a list.
pub(crate) fn push_id_range(
    list: &mut Vec<Id>,
    entries: &[Entry],
    lo: usize,
    hi: usize,
) -> Result<(), OutOfMemory>
    requires some { lo < hi }
    requires within { lo < length entries.now }
    ensures ok { OnOk result (list.new.items
        ≡ list.old.items ++ drop lo (take hi (ids entries.now))) }
{
    push_ids(list, &entries[lo..hi.min(entries.len())])
}

/// The characters of the visible entries go behind a text.
pub(crate) fn push_text(chars: &mut Vec<char>, entries: &[Entry]) -> Result<(), OutOfMemory>
    ensures ok { OnOk result (chars.new.items ≡ chars.old.items ++ visible_text entries.now) }
{
    for entry in entries {
        if !entry.deleted {
            chars.push(entry.ch)?;
        }
    }
    Ok(())
}

/// An entry's identifier goes behind a list, where the entry is visible and none is to be skipped.
fn push_one(list: &mut Vec<Id>, entry: Entry, skip: usize) -> Result<(), OutOfMemory>
    ensures ok { OnOk result (list.new.items
        ≡ list.old.items ++ drop skip (visible_ids (entry ∷ []))) }
{
    if entry.deleted {
        return Ok(());
    }
    if skip > 0 {
        return Ok(());
    }
    list.push(entry.id)?;
    Ok(())
}

/// The identifiers of the visible entries from the lo-th to the one before the hi-th go behind a
/// list.
pub(crate) fn push_visible(
    list: &mut Vec<Id>,
    entries: &[Entry],
    lo: usize,
    hi: usize,
) -> Result<(), OutOfMemory>
    ensures ok { OnOk result (list.new.items
        ≡ list.old.items ++ drop lo (take hi (visible_ids entries.now))) }
{
    let mut skip = lo;
    let mut end = hi;
    for entry in entries {
        if end <= skip {
            return Ok(());
        }
        push_one(list, *entry, skip)?;
        skip = skip.saturating_sub(count_one(*entry));
        end = end.saturating_sub(count_one(*entry));
    }
    Ok(())
}
