//! What two sets of records know together, and where they conflict. Takes no memory.
ghost use Rattle.std.specs.Prelude.{◌≡◌, ◌+◌, ◌≤◌, false, length};
ghost use Rattle.std.specs.List.{filter_map};
ghost use Rattle.std.specs.Option.{option_map_or};
ghost use Rattle.rga_ops.specs.Content.{join, known_count};
ghost use Rattle.rga_ops.specs.ListAnswer.{has_another};
ghost use Rattle.rga_pages.specs.Pages.{entries_in};
ghost use Rattle.rga_records.specs.Records.{content_of_records, first_conflicting, insertion_of_record, unknown_ids};
ghost use Rattle.rga_store.specs.declared.text_store.TheConstants.{MAX_LIMIT};

use crate::entries::{find_element, is_known, is_record_known};
use rga_ops::{Id, Op};
use rga_pages::{Page, Pages, Record};

/// The first identifier that names an insertion in pages and another in the records.
pub(crate) fn first_conflict(own: &Pages, pages: &Vec<Page>) -> Option<Id>
    ensures { let insertions = filter_map insertion_of_record (entries_in pages.now.items) in
        result ≡ first_conflicting (content_of_records own.now) insertions }
{
    for page in pages {
        if let Some(id) = first_conflict_in(own, page.entries()) {
            return Some(id);
        }
    }
    None
}

/// The first identifier that names an insertion of some entries and another in the records.
fn first_conflict_in(own: &Pages, entries: &[(Id, Record)]) -> Option<Id>
    ensures { let insertions = filter_map insertion_of_record entries.now in
        result ≡ first_conflicting (content_of_records own.now) insertions }
{
    for (id, record) in entries {
        if conflicts(own, *id, record) {
            return Some(*id);
        }
    }
    None
}

/// How many identifiers the others make known.
pub(crate) fn count_unknown(own: &Pages, others: &Pages) -> usize
    requires { known_count (content_of_records others.now) ≤ MAX_LIMIT }
    ensures { let here = content_of_records own.now in
        let there = content_of_records others.now in
        known_count here + result ≡ known_count (join here there) }
{
    count_in_pages(own, others.pages())
}

/// How many identifiers of pages are unknown to the records.
fn count_in_pages(own: &Pages, pages: &Vec<Page>) -> usize
    requires { length (unknown_ids (content_of_records own.now) (entries_in pages.now.items)) ≤
        MAX_LIMIT }
    ensures { result ≡
        length (unknown_ids (content_of_records own.now) (entries_in pages.now.items)) }
{
    let mut count = 0;
    for page in pages {
        count += count_in(own, page.entries());
    }
    count
}

/// How many identifiers of some entries are unknown to the records.
fn count_in(own: &Pages, entries: &[(Id, Record)]) -> usize
    ensures { result ≡ length (unknown_ids (content_of_records own.now) entries.now) }
{
    let mut count = 0;
    for (id, record) in entries {
        if is_record_known(record) && !is_known(own, *id) {
            count += 1;
        }
    }
    count
}

/// Whether the records insert another element than the other record's under its identifier.
fn conflicts(entries: &Pages, id: Id, other: &Record) -> bool
    ensures { let content = content_of_records entries.now in result
        ≡ option_map_or (λ ch. has_another content (Op.Insert id other.now.parent ch)) other.now.ch false }
{
    let Some(element) = other.element() else {
        return false;
    };
    match find_element(entries, id) {
        Some(present) => present != element,
        None => false,
    }
}
