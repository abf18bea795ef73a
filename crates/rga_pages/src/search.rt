//! Where an identifier is.
ghost use Rattle.std.specs.Prelude.{◌≡◌, ◌≤◌, ◌<◌, ◌+◌, length, vec_len, true, false, take, drop, None, Some, IfSome};
ghost use Rattle.std.specs.Ordering.{is_gt, is_lt};
ghost use Rattle.rga_ops.specs.Identifier.{id_cmp};
ghost use Rattle.rga_pages.specs.Pages.{entries_in, record_of, AreOrdered, AreBelow, StartsFrom, StartsAbove, StartsAt, AreFilledPages, ArePages, IsSpot};

use crate::entry::Record;
use crate::page::{MOST, Page};
use crate::spot::Spot;
use rga_ops::Id;

/// Where an identifier is, or where it would come in. It is looked for first from the place that was
/// used last on.
#[inline(always)]
pub fn find(pages: &Vec<Page>, last: Spot, id: Id) -> Spot
    requires ordered { AreOrdered (entries_in pages.now.items) }
    requires filled { AreFilledPages pages.now.items }
    requires some { 0 < vec_len pages.now }
    ensures page { result.page < vec_len pages.now }
    ensures spot { IsSpot pages.now.items result.page result.index result.found id }
{
    if let Some(spot) = find_on(pages, last, id) {
        return spot;
    }
    find_again(pages, last, id)
}

/// The same, looked for first in the page that was used last, on both sides of the place there.
#[inline(never)]
fn find_again(pages: &Vec<Page>, last: Spot, id: Id) -> Spot
    requires ordered { AreOrdered (entries_in pages.now.items) }
    requires filled { AreFilledPages pages.now.items }
    requires some { 0 < vec_len pages.now }
    ensures page { result.page < vec_len pages.now }
    ensures spot { IsSpot pages.now.items result.page result.index result.found id }
{
    if is_in(pages, last.page, id) {
        return find_in(pages, last.page, last.index, id);
    }
    let page = page_of(pages, id);
    find_in(pages, page, guess(pages, page, id), id)
}

/// Where an identifier is, or would come in, if that is in the page that was used last: not before
/// the place there, nor at the page's end.
#[inline(always)]
fn find_on(pages: &Vec<Page>, last: Spot, id: Id) -> Option<Spot>
    requires { AreOrdered (entries_in pages.now.items) }
    ensures page { IfSome result (λ at. at.page < vec_len pages.now) }
    ensures spot { IfSome result (λ at. IsSpot pages.now.items at.page at.index at.found id) }
{
    if last.page >= pages.len() {
        return None;
    }
    let entries = pages[last.page].entries();
    if last.index >= entries.len() {
        return None;
    }
    if is_less(id, entries[last.index].0) {
        return None;
    }
    if is_below(&entries[entries.len() - 1], id) {
        return None;
    }
    let index = go_on(entries, last.index, id);
    if index >= entries.len() {
        return None;
    }
    let found = is_at(entries, index, id);
    Some(Spot {
        page: last.page,
        index,
        found,
    })
}

/// Where an identifier would come in that is above all others, if there is room in the last page.
#[inline(always)]
pub(crate) fn end_for(pages: &Vec<Page>, id: Id) -> Option<Spot>
    requires ordered { AreOrdered (entries_in pages.now.items) }
    requires filled { AreFilledPages pages.now.items }
    ensures page { IfSome result (λ at. at.page < vec_len pages.now) }
    ensures spot { IfSome result (λ at. IsSpot pages.now.items at.page at.index at.found id) }
{
    let count = pages.len();
    if count == 0 {
        return None;
    }
    let page = count - 1;
    let entries = pages[page].entries();
    let index = entries.len();
    if index >= MOST {
        return None;
    }
    if is_behind(entries, index, id) {
        return Some(Spot {
            page,
            index,
            found: false,
        });
    }
    None
}

/// Where an identifier would come in that is absent, if that is the place that was used last.
#[inline(always)]
fn gap_at(pages: &Vec<Page>, last: Spot, id: Id) -> Option<Spot>
    requires { AreOrdered (entries_in pages.now.items) }
    ensures page { IfSome result (λ at. at.page < vec_len pages.now) }
    ensures spot { IfSome result (λ at. IsSpot pages.now.items at.page at.index at.found id) }
{
    if last.page >= pages.len() {
        return None;
    }
    let entries = pages[last.page].entries();
    let index = last.index;
    if index == 0 {
        return None;
    }
    if index >= entries.len() {
        return None;
    }
    if is_below(&entries[index - 1], id) && is_less(id, entries[index].0) {
        return Some(Spot {
            page: last.page,
            index,
            found: false,
        });
    }
    None
}

/// Where an identifier is, or would come in. It is looked for first at the place that was used last,
/// where it may be absent.
pub(crate) fn place_for(pages: &Vec<Page>, last: Spot, id: Id) -> Spot
    requires ordered { AreOrdered (entries_in pages.now.items) }
    requires filled { AreFilledPages pages.now.items }
    requires some { 0 < vec_len pages.now }
    ensures page { result.page < vec_len pages.now }
    ensures spot { IsSpot pages.now.items result.page result.index result.found id }
{
    match gap_at(pages, last, id) {
        Some(gap) => gap,
        None => find(pages, last, id),
    }
}

/// About where in a page an identifier is, if counters rise evenly from that of the page's first
/// identifier to that of the next page's; the end in the last page.
fn guess(pages: &Vec<Page>, page: usize, id: Id) -> usize
    requires { page < vec_len pages.now }
{
    if page + 1 >= pages.len() {
        return MOST;
    }
    let from = pages[page].first().counter();
    let to = pages[page + 1].first().counter();
    let span = to.saturating_sub(from).max(1);
    let part = id.counter().saturating_sub(from).min(span);
    let entries = pages[page].entries().len() as u64;
    (part.saturating_mul(entries) / span) as usize
}

/// Whether an identifier is larger than that of an entry.
fn is_below(entry: &(Id, Record), id: Id) -> bool
    ensures { result ≡ is_gt (id_cmp id entry.now.0) }
{
    // Most counters differ, so that they alone are compared.
    if entry.0.counter() < id.counter() {
        return true;
    }
    if id.counter() < entry.0.counter() {
        return false;
    }
    id > entry.0
}

/// Whether an identifier is less than another.
fn is_less(id: Id, other: Id) -> bool
    ensures { result ≡ is_lt (id_cmp id other) }
{
    if id.counter() < other.counter() {
        return true;
    }
    if other.counter() < id.counter() {
        return false;
    }
    id < other
}

/// Whether all before an index is below an identifier.
pub(crate) fn is_behind(entries: &[(Id, Record)], index: usize, id: Id) -> bool
    requires ordered { AreOrdered entries.now }
    requires within { index ≤ length entries.now }
    ensures below { result ≡ true → AreBelow id (take index entries.now) }
    ensures some { result ≡ false → 0 < index }
{
    if index == 0 {
        return true;
    }
    is_below(&entries[index - 1], id)
}

/// Whether there is an entry at an index, and it is below an identifier.
fn goes_on(entries: &[(Id, Record)], index: usize, id: Id) -> bool
    requires { AreOrdered entries.now }
    ensures within { result ≡ true → index < length entries.now }
    ensures below { result ≡ true → AreBelow id (take (index + 1) entries.now) }
    ensures from { result ≡ false → StartsFrom id (drop index entries.now) }
{
    if index >= entries.len() {
        return false;
    }
    is_below(&entries[index], id)
}

/// Whether an identifier stands at an index, where none before does.
fn is_at(entries: &[(Id, Record)], index: usize, id: Id) -> bool
    requires { StartsFrom id (drop index entries.now) }
    ensures there { result ≡ true → StartsAt id (drop index entries.now) }
    ensures absent { result ≡ false → StartsAbove id (drop index entries.now) }
{
    if index >= entries.len() {
        return false;
    }
    !is_less(id, entries[index].0)
}

/// Whether a page starts above an identifier.
fn starts_above(pages: &Vec<Page>, page: usize, id: Id) -> bool
    requires ordered { AreOrdered (entries_in pages.now.items) }
    requires filled { AreFilledPages pages.now.items }
    requires within { page < vec_len pages.now }
    ensures above { result ≡ true → StartsAbove id (entries_in (drop page pages.now.items)) }
    ensures below { result ≡ false → AreBelow id (entries_in (take page pages.now.items)) }
{
    is_less(id, pages[page].first())
}

/// Whether all before a page is below an identifier.
fn is_past(pages: &Vec<Page>, page: usize, id: Id) -> bool
    requires ordered { AreOrdered (entries_in pages.now.items) }
    requires filled { AreFilledPages pages.now.items }
    requires within { page < vec_len pages.now }
    ensures { result ≡ true → AreBelow id (entries_in (take page pages.now.items)) }
{
    if page == 0 {
        return true;
    }
    !starts_above(pages, page, id)
}

/// Whether a page is the one in which an identifier must be.
fn is_in(pages: &Vec<Page>, page: usize, id: Id) -> bool
    requires ordered { AreOrdered (entries_in pages.now.items) }
    requires filled { AreFilledPages pages.now.items }
    ensures page { result ≡ true → page < vec_len pages.now }
    ensures below { result ≡ true → AreBelow id (entries_in (take page pages.now.items)) }
    ensures above { result ≡ true → StartsAbove id (entries_in (drop (page + 1) pages.now.items)) }
{
    if page >= pages.len() {
        return false;
    }
    if !is_past(pages, page, id) {
        return false;
    }
    if page + 1 >= pages.len() {
        return true;
    }
    starts_above(pages, page + 1, id)
}

/// The last page that does not start above an identifier; the first one where there is none.
fn page_of(pages: &Vec<Page>, id: Id) -> usize
    requires ordered { AreOrdered (entries_in pages.now.items) }
    requires filled { AreFilledPages pages.now.items }
    requires some { 0 < vec_len pages.now }
    ensures page { result < vec_len pages.now }
    ensures below { AreBelow id (entries_in (take result pages.now.items)) }
    ensures above { StartsAbove id (entries_in (drop (result + 1) pages.now.items)) }
{
    let mut low = 0;
    let mut high = pages.as_slice().len();
    while high - low > 1 {
        let middle = low + (high - low) / 2;
        if starts_above(pages, middle, id) {
            high = middle;
        } else {
            low = middle;
        }
    }
    low
}

/// An index before which all is below an identifier: the first such one on the way back.
fn go_back(entries: &[(Id, Record)], from: usize, id: Id) -> usize
    requires { AreOrdered entries.now }
    ensures within { result ≤ length entries.now }
    ensures below { AreBelow id (take result entries.now) }
{
    let mut index = from.min(entries.len());
    while !is_behind(entries, index, id) {
        index -= 1;
    }
    index
}

/// The first index from one on whose entry is not below an identifier.
fn go_on(entries: &[(Id, Record)], from: usize, id: Id) -> usize
    requires ordered { AreOrdered entries.now }
    requires within { from ≤ length entries.now }
    requires below { AreBelow id (take from entries.now) }
    ensures within { result ≤ length entries.now }
    ensures below { AreBelow id (take result entries.now) }
    ensures from { StartsFrom id (drop result entries.now) }
{
    let mut index = from;
    while goes_on(entries, index, id) {
        index += 1;
    }
    index
}

/// Where an identifier is in the page in which it must be, looked for on both sides of an index.
fn find_in(pages: &Vec<Page>, page: usize, beside: usize, id: Id) -> Spot
    requires ordered { AreOrdered (entries_in pages.now.items) }
    requires within { page < vec_len pages.now }
    requires below { AreBelow id (entries_in (take page pages.now.items)) }
    requires above { StartsAbove id (entries_in (drop (page + 1) pages.now.items)) }
    ensures page { result.page < vec_len pages.now }
    ensures spot { IsSpot pages.now.items result.page result.index result.found id }
{
    let entries = pages[page].entries();
    let from = go_back(entries, beside, id);
    let index = go_on(entries, from, id);
    let found = is_at(entries, index, id);
    Spot { page, index, found }
}

/// The spot and the record of an identifier, if it has one. The spot is the place that was used last
/// then, also where it has none.
#[inline(always)]
pub(crate) fn find_record(pages: &Vec<Page>, last: &mut Spot, id: Id) -> Option<(Spot, Record)>
    requires { ArePages pages.now.items }
    ensures page { IfSome result (λ found. found.0.page < vec_len pages.now) }
    ensures spot { IfSome result (λ found.
        IsSpot pages.now.items found.0.page found.0.index true id) }
    ensures record { IfSome result (λ found.
        record_of id (entries_in pages.now.items) ≡ Some found.1) }
    ensures none { result ≡ None → record_of id (entries_in pages.now.items) ≡ None }
{
    if pages.as_slice().len() == 0 {
        return None;
    }
    let spot = find(pages, *last, id);
    *last = spot;
    if spot.found {
        return Some((spot, pages[spot.page].entries()[spot.index].1));
    }
    None
}
