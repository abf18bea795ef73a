//! Places by their elements, and patterns by the characters of elements: nothing need be listed, and
//! nothing here takes memory.
ghost use Rattle.std.specs.Prelude.{◌≡◌};
ghost use Rattle.std.specs.List.{slice_get};
ghost use Rattle.mg_plain.specs.Matches.{stands_at};
ghost use Rattle.rga_ops.specs.Prelude.{place, text, visible};
ghost use Rattle.mg_buffer.specs.Carried.{character_place, element_before};

use crate::buffer::Buffer;
use mg_plain::alike;
use rga_ops::Id;
use rga_store::TextStore;

/// The character at a place of the text; `None` past its end.
fn character_at<S: TextStore>(store: &S, place: usize) -> Option<char>
    ensures { result ≡ slice_get (text (S.content store.now)) place }
{
    match store.element_at(place) {
        Some(id) => store.get(id).map(|p| p.1),
        None => None,
    }
}

/// Whether a pattern stands at a place of the text.
fn stands<S: TextStore>(store: &S, pattern: &[char], place: usize) -> bool
    ensures { result ≡ stands_at pattern.now (text (S.content store.now)) place }
{
    let behind = store.visible_len().saturating_sub(place);
    let mut k = 0;
    while k < pattern.len() {
        if k >= behind {
            return false;
        }
        let Some(ch) = character_at(store, place + k) else {
            return false;
        };
        if !alike(pattern[k], ch) {
            return false;
        }
        k += 1;
    }
    true
}

impl<S: TextStore> Buffer<S> {
    /// The visible element before a place of the text: the root at the front, and past the end.
    /// Takes no memory.
    pub fn element_before(&self, place: usize) -> Id
        ensures { result ≡ element_before self.now.content place }
    {
        if place == 0 {
            return Id::ROOT;
        }
        self.doc.store().element_at(place - 1).unwrap_or(Id::ROOT)
    }

    /// The place behind an element: 0 for the root, and `None` for what is neither the root nor
    /// complete. Takes no memory.
    pub fn place_of(&self, element: Id) -> Option<usize>
        ensures { result ≡ place self.now.content element }
    {
        self.doc.store().place_of(element)
    }

    /// The element whose character is at a place; `None` past the end. Takes no memory.
    pub fn element_at(&self, place: usize) -> Option<Id>
        ensures { result ≡ slice_get (visible self.now.content) place }
    {
        self.doc.store().element_at(place)
    }

    /// The place of an element's character; of a deleted one, where it stood. Takes no memory.
    pub fn character_place(&self, element: Id) -> usize
        ensures { result ≡ character_place self.now.content element }
    {
        let store = self.doc.store();
        let behind = store.place_of(element).unwrap_or(0);
        if store.is_deleted(element) {
            behind
        } else {
            behind.saturating_sub(1)
        }
    }

    /// Whether a pattern stands at a place of the text. ASCII case makes no difference; an empty
    /// pattern stands everywhere. Takes no memory.
    pub fn stands(&self, pattern: &[char], place: usize) -> bool
        ensures { result ≡ stands_at pattern.now (text self.now.content) place }
    {
        stands(self.doc.store(), pattern, place)
    }
}
