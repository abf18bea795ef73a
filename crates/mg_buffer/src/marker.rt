//! Places of a document that last.
ghost use Rattle.std.specs.Prelude.{◌≡◌, ◌≤◌, true, Some, length, IfSome};
ghost use Rattle.std.specs.Option.{option_map, option_map_or};
ghost use Rattle.rga_ops.specs.Prelude.{place, text};
ghost use Rattle.rga_doc.specs.LocalEdit.{element_behind};
ghost use Rattle.mg_buffer.specs.Kept.{stands};

use rga_doc::{Anchor, Doc};
use rga_ops::Id;
use rga_store::TextStore;

/// A place behind an element, with the number that it had when it was last looked for.
#[derive(Clone, Copy)]
pub(crate) struct Marker {
    pub(crate) element: Id,
    pub(crate) place: usize,
}

/// The marker at a place of the text. Takes no memory.
pub(crate) fn marker_at<S: TextStore>(doc: &Doc<S>, k: usize) -> Marker
    requires { k ≤ length (text doc.now.content) }
    ensures place { result.place ≡ k }
    ensures element { element_behind doc.now.content k ≡ Some result.element }
    ensures placed { place doc.now.content result.element ≡ Some result.place }
{
    let anchor = doc.anchor_within(k);
    Marker {
        element: anchor.element,
        place: k,
    }
}

/// The marker of a mark at a place of the text, if there is one. Takes no memory.
pub(crate) fn mark_at<S: TextStore>(doc: &Doc<S>, k: Option<usize>) -> Option<Marker>
    requires { IfSome k (λ n. n ≤ length (text doc.now.content)) }
    ensures element { option_map (element_behind doc.now.content) k
        ≡ option_map Some (option_map (λ s. s.element) result) }
    ensures placed { IfSome result (λ s. place doc.now.content s.element ≡ Some s.place) }
{
    match k {
        Some(k) => Some(marker_at(doc, k)),
        None => None,
    }
}

/// The same marker with the number of its place now. Takes no memory.
pub(crate) fn find<S: TextStore>(doc: &Doc<S>, marker: Marker) -> Marker
    requires { stands doc.now.content marker ≡ true }
    ensures element { result.element ≡ marker.element }
    ensures placed { place doc.now.content result.element ≡ Some result.place }
{
    let element = marker.element;
    match doc.place(Anchor { element }) {
        Ok(place) => Marker { element, place },
        Err(_) => marker,
    }
}

/// The same for a mark, if there is one. Takes no memory.
pub(crate) fn find_mark<S: TextStore>(doc: &Doc<S>, mark: Option<Marker>) -> Option<Marker>
    requires { option_map_or (stands doc.now.content) mark true ≡ true }
    ensures element { option_map (λ s. s.element) result ≡ option_map (λ s. s.element) mark }
    ensures placed { IfSome result (λ s. place doc.now.content s.element ≡ Some s.place) }
{
    match mark {
        Some(marker) => Some(find(doc, marker)),
        None => None,
    }
}
