//! The text of records, read off the links of their elements.
ghost use Rattle.std.specs.Prelude.{◌≡◌, ◌≤◌, ◌∷◌, [], ◌++◌, ℕ, List, length, slice_index, Option, IfOk, IfErr, OnOk, string_bytes, encode_utf8_all};
ghost use Rattle.rga_ops.specs.Prelude.{text, IsSound};
ghost use Rattle.rga_records.specs.Records.{content_of_records};
ghost use Rattle.rga_records.specs.Links.{AreCodes, IsLinkChain, chars_along};

use crate::linking::links_of;
use crate::nodes::link_at;
use rga_ops::OutOfMemory;
use rga_pages::Pages;
use std::alloc::Global;

/// The characters of the visible elements, in order, in UTF-8. About so many identifiers are known.
pub(crate) fn text_of(alloc: Global, entries: &Pages, known: usize) -> Result<String, OutOfMemory>
    requires { IsSound (content_of_records entries.now) }
    ensures ok { IfOk result (λ string.
        string_bytes string ≡ encode_utf8_all (text (content_of_records entries.now))) }
{
    let links = links_of(alloc, entries.pages(), known)?;
    read_along(alloc, links.next.as_slice(), links.shown.as_slice())
}

/// The characters that are shown of the elements along the links from the root, in UTF-8.
fn read_along(alloc: Global, next: &[usize], shown: &[u32]) -> Result<String, OutOfMemory>
    ensures ok { (chain : List ℕ) → (kept : List (Option ℕ)) → AreCodes shown.now kept →
        IsLinkChain next.now (slice_index next.now 0) chain → length chain ≤ length kept →
        IfOk result (λ string.
        string_bytes string ≡ encode_utf8_all (chars_along kept chain)) }
{
    let mut string = String::with_capacity(alloc, shown.len())?;
    let mut node = link_at(next, 0);
    for _ in shown {
        if node == 0 {
            return Ok(string);
        }
        push_shown(&mut string, shown, node - 1)?;
        node = link_at(next, node);
    }
    Ok(string)
}

/// The character that is shown of an element, if there is one, comes behind others.
fn push_shown(string: &mut String, shown: &[u32], index: usize) -> Result<(), OutOfMemory>
    ensures ok { (kept : List (Option ℕ)) → AreCodes shown.now kept → OnOk result
        (string_bytes string.new ≡ string_bytes string.old
        ++ encode_utf8_all (chars_along kept (index ∷ []))) }
{
    if index >= shown.len() {
        return Ok(());
    }
    let code = shown[index];
    if code < 128 {
        string.push(code as u8 as char)?;
        return Ok(());
    }
    if let Some(ch) = char::from_u32(code) {
        string.push(ch)?;
    }
    Ok(())
}
