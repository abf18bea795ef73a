//! Buffers: a document with a name, point, mark, undo groups and unsaved operations.
ghost use Rattle.std.specs.Prelude.{◌≡◌, ◌≤◌, [], true, false, Some, None, length, encode_utf8_all, IfOk};
ghost use Rattle.std.specs.Option.{option_map};
ghost use Rattle.std.specs.String.{string_bytes};
ghost use Rattle.rga_ops.specs.Prelude.{place, text};
ghost use Rattle.mg_plain.specs.declared.view.Kind.TheVariants.{Plain};
ghost use Rattle.mg_buffer.specs.Sight.{IsSight};
ghost use Rattle.mg_buffer.specs.State.{new_state};

use crate::characters::string_of;
use crate::history::History;
use crate::line_numbers::KnownLine;
use crate::marker::{Marker, find, find_mark};
use crate::memo::Memo;
use crate::sight::Sight;
use mg_plain::Kind;
use rga_doc::Doc;
use rga_ops::{Id, Op, OutOfMemory};
use rga_store::TextStore;
use std::alloc::Global;
use std::borrow::CowSlice;
use std::marker::Model;

/// A document that commands run on, over any store.
///
/// Point and mark are behind elements, so others' edits move them with the text. While the buffer
/// is listed, the text, the places of point and mark and the line of point are at hand; an undo,
/// a command that the document refuses, and what is taken from elsewhere, end that. Whether it is
/// changes nothing of what it is.
#[derive(Drop)]
pub struct Buffer<S: TextStore> {
    pub(crate) alloc: Global,
    pub(crate) doc: Doc<S>,
    pub(crate) name: String,
    pub(crate) point: Marker,
    /// The line of some place of the text; while the buffer is listed, that of point.
    pub(crate) line: KnownLine,
    pub(crate) mark: Option<Marker>,
    pub(crate) history: History,
    /// In a run of undos, the index of the group that was undone last.
    pub(crate) undone: Option<usize>,
    pub(crate) unsaved: Vec<Op>,
    pub(crate) listed: bool,
}

impl<S: TextStore> Model for Buffer<S> {
    ghost use Rattle.std.specs.Option.{option_map};
    ghost use Rattle.std.specs.String.{string_bytes};
    ghost use Rattle.mg_buffer.specs.State.{State, state_code};
    ghost use Rattle.mg_buffer.specs.Kept.{IsKeptBuffer};

    ghost Value = { State };

    ghost coded = { state_code };

    ghost view = { λ b. record {
      content = b.doc.content;
      limit = b.doc.limit;
      replica = b.doc.replica;
      name = string_bytes b.name;
      point = b.point.element;
      mark = option_map (λ m. m.element) b.mark;
      groups = b.history.pasts;
      undone = b.undone;
      unsaved = b.unsaved.items;
    } };

    ghost invariant = { λ b. IsKeptBuffer b.doc b.point b.line b.mark b.history b.listed };
}

impl<S: TextStore> Buffer<S> {
    /// A buffer of a document, with operations that are in it but not saved. Point is at the front,
    /// there is no mark, and nothing to undo. Takes no memory.
    pub fn new(alloc: Global, doc: Doc<S>, name: String, own: Vec<Op>) -> Buffer<S>
        ensures { result ≡ new_state doc (string_bytes name) own.items }
    {
        Buffer {
            alloc,
            doc,
            name,
            point: Marker {
                element: Id::ROOT,
                place: 0,
            },
            line: KnownLine::FIRST,
            mark: None,
            history: History::new(alloc),
            undone: None,
            unsaved: own,
            listed: false,
        }
    }

    /// The name.
    pub fn name(&self) -> &str
        ensures { result.now ≡ self.now.name }
    {
        self.name.as_str()
    }

    /// The store of the document.
    pub fn store(&self) -> &S
        ensures content { S.content result.now ≡ self.now.content }
        ensures limit { S.limit result.now ≡ self.now.limit }
    {
        self.doc.store()
    }

    /// The operations that were new since the last save, own ones and others', in the order in
    /// which they were taken.
    pub fn unsaved(&self) -> &[Op]
        ensures { result.now ≡ self.now.unsaved }
    {
        &self.unsaved
    }

    /// Notes that all operations are saved. Takes no memory.
    pub fn mark_saved(&mut self)
        ensures { self.new ≡ record self.old { unsaved = [] } }
    {
        self.unsaved.clear();
    }

    /// Lists the text, the places of point and mark and the line of point, if there is memory, so
    /// that `sight` finds them. A command does so too.
    #[tactic(auto, using(crate::proofs::PlaceLaws::placed_within))]
    pub fn list(&mut self)
        ensures same { self.new ≡ self.old }
    {
        if self.listed || self.doc.list().is_err() {
            return;
        }
        self.point = find(&self.doc, self.point);
        self.mark = find_mark(&self.doc, self.mark);
        self.line = self.line.moved(self.doc.characters(), self.point.place);
        self.listed = true;
    }

    /// The text in UTF-8. Where it is at hand the store is not walked. `Memory` alone.
    pub fn text_string(&self) -> Result<String, OutOfMemory>
        ensures ok { IfOk result
            (λ string. string_bytes string ≡ encode_utf8_all (text self.now.content)) }
    {
        if !self.listed {
            return self.doc.store().text_string(self.alloc);
        }
        Ok(string_of(self.alloc, self.doc.characters())?)
    }

    /// What is seen of it. If it is listed the text is lent, nothing is looked for and no memory is
    /// taken. Out of memory alone.
    #[tactic(auto, using(crate::proofs::PlaceLaws::placed_within))]
    pub fn sight(&self) -> Result<Sight<'_>, OutOfMemory>
        ensures { IfOk result (IsSight self.now) }
    {
        if self.listed {
            return Ok(Sight {
                text: CowSlice::Borrowed(self.doc.characters()),
                point: self.point.place,
                mark: self.mark.map(|marker| marker.place),
                line: self.line.number,
            });
        }
        let text = self.doc.text()?;
        let point = find(&self.doc, self.point).place;
        Ok(Sight {
            line: self.line.moved(&text, point).number,
            text: CowSlice::Owned(text),
            point,
            mark: find_mark(&self.doc, self.mark).map(|marker| marker.place),
        })
    }

    /// The element that point stands after. Takes no memory.
    pub fn point(&self) -> Id
        ensures { result ≡ self.now.point }
    {
        self.point.element
    }

    /// Does nothing, as a key that is no command on the text: ends a run of undos, and the kind
    /// becomes Plain. Takes no memory.
    pub fn idle(&mut self, memo: &mut Memo)
        ensures buffer { self.new ≡ record self.old { undone = None } }
        ensures memo { memo.new ≡ record memo.old { kind = Plain } }
    {
        self.undone = None;
        memo.kind = Kind::Plain;
    }
}
