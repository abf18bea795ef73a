//! Elements linked in the order of their text, in one pass over records by rising identifier. Each
//! element that comes is newer than all before it: so it stands directly behind its parent.
ghost use Rattle.std.specs.Prelude.{◌≡◌, ◌∷◌, [], ◌++◌, ◌<◌, ◌+◌, length, vec_len, take, slice_set, IfOk, IfErr, OnOk, SomeIff};
ghost use Rattle.std.specs.Char.{IsScalar};
ghost use Rattle.std.specs.Map.{keys_of};
ghost use Rattle.rga_pages.specs.Pages.{entries_in, AreFilledPages, Entries};
ghost use Rattle.rga_records.specs.Links.{shown_if, with_link, AreHeads, AreLinks, AreSoundRecords, IsNodeOf};

use crate::nodes::{link_at, node_of};
use rga_ops::{Id, OutOfMemory};
use rga_pages::{Page, Record};
use std::alloc::Global;

/// In place of a link, where a record has no element, or this is not in the order: its parent is not
/// there either.
const WAITS: usize = usize::MAX;

/// In place of a character, where none is shown: the number of none.
const HIDDEN: u32 = u32::MAX;

/// Records by rising identifier, and the links of their elements.
#[derive(Drop)]
pub(crate) struct Links {
    /// The character of each element; where there is none, or it is deleted, no character's number.
    pub(crate) shown: Vec<u32>,
    /// The node behind each node in the order; 0 where there is none. Node 0 is the root's.
    pub(crate) next: Vec<usize>,
}

impl Links {
    /// The links of no elements, in room for so many. `Memory` alone.
    fn new(alloc: Global, room: usize) -> Result<Links, OutOfMemory>
        ensures ok { IfOk result (λ l. AreLinks [] l.shown.items l.next.items) }
    {
        let mut next = Vec::with_capacity(alloc, room.saturating_add(1))?;
        next.push(0usize)?;
        Ok(Links {
            shown: Vec::with_capacity(alloc, room)?,
            next,
        })
    }
}

/// The links of the elements in pages, of which there are about so many records. `Memory` alone.
pub(crate) fn links_of(alloc: Global, pages: &Vec<Page>, room: usize) -> Result<Links, OutOfMemory>
    requires sound { AreSoundRecords (entries_in pages.now.items) }
    requires filled { AreFilledPages pages.now.items }
    ensures ok { IfOk result (λ l.
        AreLinks (entries_in pages.now.items) l.shown.items l.next.items) }
{
    let mut links = Links::new(alloc, room)?;
    let mut heads = Vec::with_capacity(alloc, pages.as_slice().len())?;
    for page in 0..pages.as_slice().len() {
        heads.push(links.next.as_slice().len())?;
        link_page(&mut links, pages, heads.as_slice(), page)?;
    }
    Ok(links)
}

/// The elements of one more page come in. The first node of each page up to that one is told.
fn link_page(
    links: &mut Links,
    pages: &Vec<Page>,
    heads: &[usize],
    page: usize,
) -> Result<(), OutOfMemory>
    requires sound { AreSoundRecords (entries_in pages.now.items) }
    requires filled { AreFilledPages pages.now.items }
    requires within { page < vec_len pages.now }
    requires counted { length heads.now ≡ page + 1 }
    requires heads { AreHeads pages.now.items heads.now }
    requires links { AreLinks (entries_in (take page pages.now.items))
        links.old.shown.items links.old.next.items }
    ensures ok { OnOk result (AreLinks (entries_in (take (page + 1) pages.now.items))
        links.new.shown.items links.new.next.items) }
{
    let entries = pages[page].entries();
    for index in 0..entries.len() {
        let entry = &entries[index];
        let count = links.next.as_slice().len();
        let above = node_of(pages, heads, index, count, entry.1.parent());
        link_entry(links, above, entry)?;
    }
    Ok(())
}

/// The element of one more record comes in behind a node, if it has one.
fn link_entry(
    links: &mut Links,
    above: Option<usize>,
    entry: &(Id, Record),
) -> Result<(), OutOfMemory>
    ensures ok { (es : Entries) → AreSoundRecords (es ++ entry.now ∷ []) →
        AreLinks es links.old.shown.items links.old.next.items →
        IsNodeOf entry.now.1.parent (keys_of es) above →
        OnOk result (AreLinks (es ++ entry.now ∷ []) links.new.shown.items links.new.next.items) }
{
    let record = entry.1;
    let Some(ch) = record.ch else {
        push_one(&mut links.next, WAITS)?;
        push_one(&mut links.shown, HIDDEN)?;
        return Ok(());
    };
    link(&mut links.next, above)?;
    push_one(&mut links.shown, code_of(ch, record.deleted))?;
    Ok(())
}

/// The number of a character that is not hidden; else that of none.
fn code_of(ch: char, hidden: bool) -> u32
    ensures { SomeIff (shown_if hidden ch) (IsScalar result) result }
{
    if hidden {
        return HIDDEN;
    }
    ch as u32
}

/// One more element is linked in directly behind a node, if there is one that does not wait; else
/// it waits.
fn link(next: &mut Vec<usize>, above: Option<usize>) -> Result<(), OutOfMemory>
    ensures ok { OnOk result (next.new.items ≡ with_link above next.old.items) }
    ensures room { OnOk result (length next.old.items < WAITS) }
{
    let Some(above) = above else {
        return push_one(next, WAITS);
    };
    let behind = link_at(next.as_slice(), above);
    if behind != WAITS {
        relink(next, above);
    }
    push_one(next, behind)
}

/// The link of a node, if there is such a node, leads to the one that comes in next.
fn relink(next: &mut Vec<usize>, above: usize)
    ensures { next.new.items ≡ slice_set next.old.items above (length next.old.items) }
{
    let node = next.as_slice().len();
    if above < node {
        next[above] = node;
    }
}

/// One more at the end of a list. Where there is room for it, this is short enough to be inlined.
#[inline(always)]
fn push_one<T: Copy>(list: &mut Vec<T>, item: T) -> Result<(), OutOfMemory>
    ensures ok { OnOk result (list.new.items ≡ list.old.items ++ item ∷ []) }
    ensures room { OnOk result (length list.old.items < WAITS) }
{
    if list.as_slice().len() < list.capacity() {
        list.push_reserved(item);
        return Ok(());
    }
    list.push(item)?;
    Ok(())
}
