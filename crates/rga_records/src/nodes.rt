//! Where an identifier is among the records of pages, and the nodes of a linked list of these.
ghost use Rattle.std.specs.Prelude.{◌≡◌, ◌≤◌, ◌<◌, ◌-◌, [], true, suc, length, vec_len, slice_index, slice_index_or, IfSome};
ghost use Rattle.std.specs.Map.{keys_of};
ghost use Rattle.rga_ops.specs.Identifier.{Identifier, is_root};
ghost use Rattle.rga_pages.specs.Pages.{entries_in, entries_before, AreOrdered, AreFilledPages, IsSpot};
ghost use Rattle.rga_records.specs.Links.{AreHeads, IsNodeOf};

use rga_ops::Id;
use rga_pages::{Page, Record, Spot, find};

/// How many identifiers are looked at in a loop before a search, behind the last three, which are
/// looked at without one: what an element stands behind is mostly not much older.
const NEAR: usize = 5;

/// The link of a node; 0 where there is no such node.
pub(crate) fn link_at(next: &[usize], node: usize) -> usize
    ensures { result ≡ slice_index next.now node }
{
    if node < next.len() {
        return next[node];
    }
    0
}

/// The node of an identifier, if it is the root or that of a record before an index in a page.
/// There are so many nodes up to there, and the first one of each page is told.
pub(crate) fn node_of(
    pages: &Vec<Page>,
    heads: &[usize],
    index: usize,
    count: usize,
    id: Id,
) -> Option<usize>
    requires ordered { AreOrdered (entries_in pages.now.items) }
    requires filled { AreFilledPages pages.now.items }
    requires heads { AreHeads pages.now.items heads.now }
    requires some { 0 < length heads.now }
    requires few { length heads.now ≤ vec_len pages.now }
    requires index { let page = slice_index_or pages.now.items (length heads.now - 1) [] in
        index ≤ length page }
    requires count { let before = entries_before pages.now.items (length heads.now - 1) index in
        count ≡ suc (length before) }
    ensures { let before = entries_before pages.now.items (length heads.now - 1) index in
        IsNodeOf id (keys_of before) result }
{
    if is_root(id) {
        return Some(0);
    }
    let page = heads.len() - 1;
    if let Some(near) = index_near(pages[page].entries(), index, id) {
        return Some(count - index + near);
    }
    let spot = spot_of(pages, page, index, id);
    if !spot.found {
        return None;
    }
    if spot.page >= heads.len() {
        return None;
    }
    let node = heads[spot.page].saturating_add(spot.index);
    if node < count {
        return Some(node);
    }
    None
}

/// Whether an identifier is the root.
#[inline(always)]
fn is_root(id: Id) -> bool
    ensures { result ≡ is_root id }
{
    id.counter() == 0
}

/// Where an identifier is, or would come in. It is looked for first at the end of the page before
/// one, where an index in that one is small.
fn spot_of(pages: &Vec<Page>, page: usize, index: usize, id: Id) -> Spot
    requires ordered { AreOrdered (entries_in pages.now.items) }
    requires filled { AreFilledPages pages.now.items }
    requires within { page < vec_len pages.now }
    ensures page { result.page < vec_len pages.now }
    ensures spot { IsSpot pages.now.items result.page result.index result.found id }
{
    let before = page.saturating_sub(1);
    if index < NEAR {
        let entries = pages[before].entries();
        if let Some(near) = index_near(entries, entries.len(), id) {
            return Spot {
                page: before,
                index: near,
                found: true,
            };
        }
    }
    let last = Spot {
        page: before,
        index: usize::MAX,
        found: false,
    };
    find(pages, last, id)
}

/// The index of an identifier, if it is one of the last few before an index. The last three, where
/// it mostly is, are looked at without a loop.
#[inline(always)]
fn index_near(entries: &[(Id, Record)], before: usize, id: Id) -> Option<usize>
    requires { before ≤ length entries.now }
    ensures within { IfSome result (λ i. i < before) }
    ensures there { (e : Identifier × Record) →
        IfSome result (λ i. (slice_index_or entries.now i e).0 ≡ id) }
{
    if before < 3 {
        return index_among_last(entries, before, id);
    }
    let last = &entries[before - 3..before];
    if is_same(&last[2], id) {
        return Some(before - 1);
    }
    if is_same(&last[1], id) {
        return Some(before - 2);
    }
    if is_same(&last[0], id) {
        return Some(before - 3);
    }
    index_among_last(entries, before - 3, id)
}

/// The index of an identifier, if it is one of the last few before an index.
fn index_among_last(entries: &[(Id, Record)], before: usize, id: Id) -> Option<usize>
    requires { before ≤ length entries.now }
    ensures within { IfSome result (λ i. i < before) }
    ensures there { (e : Identifier × Record) →
        IfSome result (λ i. (slice_index_or entries.now i e).0 ≡ id) }
{
    for index in (before.saturating_sub(NEAR)..before).rev() {
        if is_same(&entries[index], id) {
            return Some(index);
        }
    }
    None
}

/// Whether an identifier is that of an entry.
fn is_same(entry: &(Id, Record), id: Id) -> bool
    ensures { result ≡ true → entry.now.0 ≡ id }
{
    entry.0 == id
}
