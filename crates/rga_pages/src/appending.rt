//! Entries come in behind all others.
ghost use Rattle.std.specs.Prelude.{◌≡◌, ◌<◌, ◌++◌, length, vec_len, vec_capacity, true, IfErr, OnOk, OnErr};
ghost use Rattle.rga_pages.specs.Pages.{entries_in, AreFilledPages, ArePages, AreOrdered};

use crate::entry::Record;
use crate::page::{MOST, Page};
use crate::search::is_behind;
use crate::spot::Spot;
use rga_ops::{Id, OutOfMemory};
use std::alloc::Global;

/// Entries come in behind all others: the last page is filled, and what is left of them begins a
/// new one. `Memory` alone.
pub(crate) fn append(
    alloc: Global,
    pages: &mut Vec<Page>,
    entries: &[(Id, Record)],
) -> Result<(), OutOfMemory>
    requires { AreFilledPages pages.old.items }
    ensures ok { OnOk result
        (entries_in pages.new.items ≡ entries_in pages.old.items ++ entries.now) }
    ensures err { OnErr result (entries_in pages.new.items ≡ entries_in pages.old.items) }
    ensures filled { AreFilledPages pages.new.items }
{
    let room = room_in_last(pages);
    if entries.len() <= room {
        return extend_last(pages, entries);
    }
    pages.reserve(1)?;
    let own = Page::of_some(alloc, &entries[room..])?;
    extend_last(pages, &entries[..room])?;
    pages.push_reserved(own);
    Ok(())
}

/// How many entries the last page has room for; 0 where there is none.
fn room_in_last(pages: &Vec<Page>) -> usize
    ensures { 0 < result → 0 < vec_len pages.now }
{
    let count = pages.len();
    if count == 0 {
        return 0;
    }
    MOST.saturating_sub(pages[count - 1].entries().len())
}

/// Entries come in at the end of the last page, if they are some. `Memory` alone.
fn extend_last(pages: &mut Vec<Page>, entries: &[(Id, Record)]) -> Result<(), OutOfMemory>
    requires filled { AreFilledPages pages.old.items }
    requires some { 0 < length entries.now → 0 < vec_len pages.old }
    ensures ok { OnOk result
        (entries_in pages.new.items ≡ entries_in pages.old.items ++ entries.now) }
    ensures err { OnErr result (entries_in pages.new.items ≡ entries_in pages.old.items) }
    ensures filled { AreFilledPages pages.new.items }
    ensures len { vec_len pages.new ≡ vec_len pages.old }
    ensures capacity { vec_capacity pages.new ≡ vec_capacity pages.old }
{
    if entries.len() == 0 {
        return Ok(());
    }
    let last = pages.len() - 1;
    pages[last].extend(entries)
}

/// Whether entries that are in order are so behind all others too.
pub(crate) fn can_follow(pages: &Vec<Page>, entries: &[(Id, Record)]) -> bool
    requires kept { ArePages pages.now.items }
    requires ordered { AreOrdered entries.now }
    ensures { result ≡ true → AreOrdered (entries_in pages.now.items ++ entries.now) }
{
    if entries.len() == 0 {
        return true;
    }
    let count = pages.len();
    if count == 0 {
        return true;
    }
    let last = pages[count - 1].entries();
    is_behind(last, last.len(), entries[0].0)
}

/// Where the last entry stands.
pub(crate) fn end_of(pages: &Vec<Page>) -> Spot {
    let page = pages.len().saturating_sub(1);
    let index = match pages.get(page) {
        Some(last) => last.entries().len().saturating_sub(1),
        None => 0,
    };
    Spot {
        page,
        index,
        found: true,
    }
}
