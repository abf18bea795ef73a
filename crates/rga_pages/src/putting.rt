//! An entry comes in, or takes the place of one with its identifier.
ghost use Rattle.std.specs.Prelude.{◌≡◌, ◌≤◌, ◌<◌, ◌+◌, ◌∷◌, [], None, Some, length, vec_len, slice_index_or, insert, false, true, IfErr, OnOk, OnErr};
ghost use Rattle.std.specs.BTreeMap.{insert_entry};
ghost use Rattle.std.specs.Map.{set_value};
ghost use Rattle.std.specs.Ordering.{eq_by_cmp};
ghost use Rattle.rga_ops.specs.Identifier.{id_cmp};
ghost use Rattle.rga_pages.specs.Pages.{entries_in, record_of, AreFilledPages, ArePages, IsSpot, Updates};

use crate::entry::Record;
use crate::page::{MOST, Page};
use crate::search::place_for;
use crate::spot::Spot;
use rga_ops::{Id, OutOfMemory};
use std::alloc::Global;

/// How many entries each part of a full page has at least where it is cut.
const FEWEST: usize = 8;

/// An identifier gets its record, where it is looked for. Answers where it is. `Memory` alone, and
/// only where it had none.
#[inline(never)]
pub(crate) fn insert(
    alloc: Global,
    pages: &mut Vec<Page>,
    last: Spot,
    id: Id,
    value: Record,
) -> Result<Spot, OutOfMemory>
    requires { ArePages pages.old.items }
    ensures ok { OnOk result
        (entries_in pages.new.items ≡ insert_entry id_cmp (entries_in pages.old.items) id value) }
    ensures err { OnErr result (entries_in pages.new.items ≡ entries_in pages.old.items) }
    ensures absent { OnErr result (record_of id (entries_in pages.old.items) ≡ None) }
    ensures kept { ArePages pages.new.items }
{
    if pages.as_slice().len() == 0 {
        put_own(alloc, pages, 0, id, value)?;
        return Ok(Spot {
            page: 0,
            index: 0,
            found: true,
        });
    }
    let spot = place_for(pages, last, id);
    if has_room(pages, spot) {
        write(pages, spot, id, value)?;
        return Ok(spot);
    }
    insert_in_full(alloc, pages, spot, id, value)
}

/// Whether an identifier can get its record in the page of its spot.
#[inline(always)]
pub(crate) fn has_room(pages: &Vec<Page>, at: Spot) -> bool
    requires { at.page < vec_len pages.now }
    ensures absent { result ≡ false → at.found ≡ false }
    ensures full { result ≡ false → MOST ≤ length (slice_index_or pages.now.items at.page []) }
{
    if at.found {
        return true;
    }
    pages[at.page].entries().len() < MOST
}

/// An identifier gets its record at its spot.
#[inline(always)]
pub(crate) fn write(
    pages: &mut Vec<Page>,
    at: Spot,
    id: Id,
    value: Record,
) -> Result<(), OutOfMemory>
    requires kept { ArePages pages.old.items }
    requires page { at.page < vec_len pages.old }
    requires spot { IsSpot pages.old.items at.page at.index at.found id }
    ensures ok { OnOk result
        (entries_in pages.new.items ≡ insert_entry id_cmp (entries_in pages.old.items) id value) }
    ensures err { OnErr result (entries_in pages.new.items ≡ entries_in pages.old.items) }
    ensures absent { OnErr result (record_of id (entries_in pages.old.items) ≡ None) }
    ensures kept { ArePages pages.new.items }
{
    if at.found {
        overwrite(pages, at, id, value);
        return Ok(());
    }
    pages[at.page].put(at.index, id, value)
}

/// An identifier that is at its spot gets another record.
pub(crate) fn overwrite(pages: &mut Vec<Page>, at: Spot, id: Id, value: Record)
    requires kept { ArePages pages.old.items }
    requires page { at.page < vec_len pages.old }
    requires spot { IsSpot pages.old.items at.page at.index true id }
    ensures inserted { entries_in pages.new.items
        ≡ insert_entry id_cmp (entries_in pages.old.items) id value }
    ensures replaced { entries_in pages.new.items
        ≡ set_value (eq_by_cmp id_cmp id) (entries_in pages.old.items) value }
    ensures updates { Updates (entries_in pages.old.items) (entries_in pages.new.items) id
        (Some value) }
    ensures kept { ArePages pages.new.items }
{
    pages[at.page].set(at.index, id, value);
}

/// An identifier gets its record, where the page of its spot is full and it is absent. At the end
/// of that page nothing moves, and the entry begins a new one; elsewhere the page loses what stands
/// behind the entry's place, if both parts have enough then: so what comes next to it has room.
#[inline(never)]
pub(crate) fn insert_in_full(
    alloc: Global,
    pages: &mut Vec<Page>,
    at: Spot,
    id: Id,
    value: Record,
) -> Result<Spot, OutOfMemory>
    requires kept { ArePages pages.old.items }
    requires page { at.page < vec_len pages.old }
    requires full { MOST ≤ length (slice_index_or pages.old.items at.page []) }
    requires spot { IsSpot pages.old.items at.page at.index false id }
    ensures ok { OnOk result
        (entries_in pages.new.items ≡ insert_entry id_cmp (entries_in pages.old.items) id value) }
    ensures err { OnErr result (entries_in pages.new.items ≡ entries_in pages.old.items) }
    ensures absent { OnErr result (record_of id (entries_in pages.old.items) ≡ None) }
    ensures kept { ArePages pages.new.items }
{
    if at.index >= pages[at.page].entries().len() {
        put_own(alloc, pages, at.page + 1, id, value)?;
        return Ok(Spot {
            page: at.page + 1,
            index: 0,
            found: true,
        });
    }
    let cut = at.index.max(FEWEST).min(MOST - FEWEST);
    cut_page(alloc, pages, at.page, cut)?;
    let spot = place_for(pages, at, id);
    write(pages, spot, id, value)?;
    Ok(spot)
}

/// An entry begins a page, which comes in at an index. `Memory` alone.
fn put_own(
    alloc: Global,
    pages: &mut Vec<Page>,
    index: usize,
    id: Id,
    value: Record,
) -> Result<(), OutOfMemory>
    requires filled { AreFilledPages pages.old.items }
    requires within { index ≤ vec_len pages.old }
    ensures ok { OnOk result (pages.new.items ≡ insert pages.old.items index ((id, value) ∷ [])) }
    ensures err { OnErr result (pages.new.items ≡ pages.old.items) }
    ensures filled { AreFilledPages pages.new.items }
{
    let own = Page::of_some(alloc, &[(id, value)])?;
    pages.insert(index, own)?;
    Ok(())
}

/// A full page loses what stands from an index on: to the page behind it if that has room, and else
/// to one of its own.
fn cut_page(
    alloc: Global,
    pages: &mut Vec<Page>,
    page: usize,
    cut: usize,
) -> Result<(), OutOfMemory>
    requires filled { AreFilledPages pages.old.items }
    requires page { page < vec_len pages.old }
    requires first { 0 < cut }
    requires second { cut < length (slice_index_or pages.old.items page []) }
    ensures flat { entries_in pages.new.items ≡ entries_in pages.old.items }
    ensures filled { AreFilledPages pages.new.items }
    ensures some { 0 < vec_len pages.new }
{
    if has_room_behind(pages, page, cut) {
        return spill(alloc, pages, page, cut);
    }
    halve(alloc, pages, page, cut)
}

/// Whether the page behind one has room for what stands in that from an index on.
fn has_room_behind(pages: &Vec<Page>, page: usize, cut: usize) -> bool
    requires { page < vec_len pages.now }
    ensures { result ≡ true → page + 1 < vec_len pages.now }
{
    if page + 1 >= pages.len() {
        return false;
    }
    let more = pages[page].entries().len().saturating_sub(cut);
    pages[page + 1].entries().len().saturating_add(more) <= MOST
}

/// What stands in a full page from an index on goes to the front of the page behind it.
fn spill(alloc: Global, pages: &mut Vec<Page>, page: usize, cut: usize) -> Result<(), OutOfMemory>
    requires filled { AreFilledPages pages.old.items }
    requires page { page + 1 < vec_len pages.old }
    requires first { 0 < cut }
    requires second { cut < length (slice_index_or pages.old.items page []) }
    ensures flat { entries_in pages.new.items ≡ entries_in pages.old.items }
    ensures filled { AreFilledPages pages.new.items }
    ensures some { 0 < vec_len pages.new }
{
    let mut tail = pages[page].tail(alloc, cut)?;
    tail.extend(pages[page + 1].entries())?;
    pages[page + 1] = tail;
    pages[page].cut(cut);
    Ok(())
}

/// A full page becomes two.
fn halve(alloc: Global, pages: &mut Vec<Page>, page: usize, cut: usize) -> Result<(), OutOfMemory>
    requires filled { AreFilledPages pages.old.items }
    requires page { page < vec_len pages.old }
    requires first { 0 < cut }
    requires second { cut < length (slice_index_or pages.old.items page []) }
    ensures flat { entries_in pages.new.items ≡ entries_in pages.old.items }
    ensures filled { AreFilledPages pages.new.items }
    ensures some { 0 < vec_len pages.new }
{
    let tail = pages[page].tail(alloc, cut)?;
    pages.insert(page + 1, tail)?;
    pages[page].cut(cut);
    Ok(())
}
