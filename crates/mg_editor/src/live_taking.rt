//! What buffers take while the editor is at work: operations of others, and splices.
ghost use Rattle.std.specs.Prelude.{◌≡◌, ◌≢◌, ◌<◌, [], ◌∷◌, None, Ok, Err, length, IfSome, OnOk, OnErr};
ghost use Rattle.std.specs.Option.{option_and_then};
ghost use Rattle.rga_ops.specs.Prelude.{all_checked, answer, list_answer, Memory};
ghost use Rattle.rga_ops.specs.ListAnswer.{early_conflict};
ghost use Rattle.mg_buffer.specs.Following.{TakesOperations};
ghost use Rattle.mg_buffer.specs.Sight as sight;
ghost use Rattle.mg_workspace.specs.AtIndex.{RunsAt, state_at};
ghost use Rattle.mg_workspace.specs.Names.{buffer_named};
ghost use Rattle.mg_editor.specs.LiveTaking as spec;

use crate::editor::Editor;
use mg_buffer::Buffer;
use mg_minibuffer::Search;
use mg_plain::{Chars, Command};
use mg_workspace::ActionFault;
use rga_ops::{Id, Op, Refusal, Taken};
use rga_store::TextStore;

/// The element that the origin of a search stands behind, and the first one of its match.
#[derive(Clone, Copy)]
pub(crate) struct Anchors {
    pub(crate) origin: Id,
    pub(crate) found: Option<Id>,
}

/// Those of a search in a buffer.
fn anchors_of<S: TextStore>(buffer: &Buffer<S>, search: &Search) -> Anchors
    ensures { result ≡ spec.anchors_of buffer.now.content search.now }
{
    let found = match search.found {
        Some(place) => buffer.element_at(place),
        None => None,
    };
    Anchors {
        origin: buffer.element_before(search.origin),
        found,
    }
}

/// The place behind an element; 0 where it has none.
fn place_behind<S: TextStore>(buffer: &Buffer<S>, element: Id) -> usize
    ensures { result ≡ sight.place_of buffer.now.content element }
{
    buffer.place_of(element).unwrap_or(0)
}

/// The match that begins with an element, if the pattern stands there.
fn match_at<S: TextStore>(
    buffer: &Buffer<S>,
    pattern: &[char],
    element: Option<Id>,
) -> Option<usize>
    ensures { result
        ≡ option_and_then (spec.match_at pattern.now buffer.now.content) element }
{
    let place = buffer.character_place(element?);
    if buffer.stands(pattern, place) {
        Some(place)
    } else {
        None
    }
}

impl<S: TextStore> Editor<S> {
    /// The index of the buffer of a name. Takes no memory.
    pub fn live_index(&self, name: &[char]) -> Option<usize>
        ensures exact { result ≡ buffer_named name.now self.now.work.buffers.all }
        ensures within { IfSome result (λ i. i < length self.now.work.buffers.all) }
    {
        self.work.named(name)
    }

    /// The index of the current buffer. Takes no memory.
    pub fn current_index(&self) -> usize
        ensures exact { result ≡ self.now.work.buffers.current }
        ensures within { result < length self.now.work.buffers.all }
    {
        self.work.current_index()
    }

    /// How many buffers are open. Takes no memory.
    pub fn buffer_count(&self) -> usize
        ensures { result ≡ length self.now.work.buffers.all }
    {
        self.work.count()
    }

    /// The operations of the buffer at an index that are not saved. Takes no memory.
    pub fn unsaved_at(&self, index: usize) -> &[Op]
        requires { index < length self.now.work.buffers.all }
        ensures { result.now ≡ (state_at index self.now.work).unsaved }
    {
        self.work.at(index).buffer.unsaved()
    }

    /// The elements of the search that is open in the buffer at an index.
    fn anchors(&self, index: usize) -> Option<Anchors>
        requires { index < length self.now.work.buffers.all }
        ensures { result ≡ spec.anchors_at index self.now }
    {
        if index != self.work.current_index() {
            return None;
        }
        match self.talk.search() {
            Some(search) => Some(anchors_of(&self.work.at(index).buffer, search)),
            None => None,
        }
    }

    /// The open search goes to its elements, in the buffer at an index.
    fn put_search(&mut self, index: usize, anchors: Option<Anchors>)
        requires { index < length self.old.work.buffers.all }
        ensures { let content = (state_at index self.old.work).content in self.new ≡
            record self.old { talk = spec.anchored_talk content anchors self.old.talk } }
    {
        let Some(anchors) = anchors else {
            return;
        };
        let Some(search) = self.talk.search() else {
            return;
        };
        let buffer = &self.work.at(index).buffer;
        let found = match_at(buffer, search.pattern.as_slice(), anchors.found);
        let origin = place_behind(buffer, anchors.origin);
        self.talk.move_search(origin, found);
    }

    /// The buffer at an index takes an operation from elsewhere, which is unsaved then if it is new.
    /// Point and mark stay behind their elements, and so does the origin of a search that is open in
    /// that buffer; its match stays at its own first character, and is none if the pattern no longer
    /// stands there. All else stays: the
    /// undo groups, the runs of kills and of undos, prompt, message and keys, the other buffers and
    /// the windows.
    ///
    /// Refusals, in this order: `BadId`, `BadOrder`, `Conflict`, `Full`, `Memory`. A refusal changes
    /// nothing. `Known` and every refusal but `Memory` take no memory.
    pub fn take_operation(&mut self, index: usize, op: Op) -> Result<Taken, Refusal>
        requires { index < length self.old.work.buffers.all }
        ensures exact { let b = state_at index self.old.work in result ≢ Err Memory →
            result ≡ answer b.limit b.content op }
        ensures memory { let b = state_at index self.old.work in
            result ≡ Err Memory → answer b.limit b.content op ≡ Ok Taken.New }
        ensures taken { OnOk result (self.new ≡ spec.taking index (op ∷ []) self.old) }
        ensures follows { OnOk result (TakesOperations
            (state_at index self.old.work) (op ∷ []) (state_at index self.new.work)) }
        ensures same { OnErr result (self.new ≡ self.old) }
    {
        let anchors = self.anchors(index);
        let taken = self.work.take_at(index, op)?;
        self.put_search(index, anchors);
        Ok(taken)
    }

    /// The same with all operations of a list, or none of them.
    ///
    /// Refusals, in this order: `BadId` or `BadOrder` of the first operation that is ill-formed;
    /// `Conflict` of the first that conflicts; `Full`. `Memory` may come in the place of any answer
    /// but that to an ill-formed operation, and to a conflict in front of which nothing is inserted
    /// anew. A refusal changes nothing.
    pub fn take_operations(&mut self, index: usize, ops: &[Op]) -> Result<(), Refusal>
        requires { index < length self.old.work.buffers.all }
        ensures exact { let b = state_at index self.old.work in result ≢ Err Memory →
            result ≡ list_answer b.limit b.content ops.now }
        ensures memory { result ≡ Err Memory → all_checked ops.now ≡ Ok tt }
        ensures early { let b = state_at index self.old.work in
            result ≡ Err Memory → early_conflict b.content ops.now ≡ None }
        ensures taken { OnOk result (self.new ≡ spec.taking index ops.now self.old) }
        ensures follows { OnOk result (TakesOperations
            (state_at index self.old.work) ops.now (state_at index self.new.work)) }
        ensures same { OnErr result (self.new ≡ self.old) }
    {
        let anchors = self.anchors(index);
        self.work.take_all_at(index, ops)?;
        self.put_search(index, anchors);
        Ok(())
    }

    /// Replaces the characters from one place up to another in the buffer at an index, as a command
    /// that is an undo group of its own. Point and mark are carried, a run of kills or of undos ends,
    /// and a search that is open in that buffer is carried as with an operation. Prompt, message and
    /// keys stay.
    ///
    /// Faults, in this order: `EndOfBuffer` where these are no places of the text; `BufferFull` and
    /// `IdentifiersUsedUp`; `Memory`. A fault changes nothing.
    pub fn splice(
        &mut self,
        index: usize,
        lo: usize,
        hi: usize,
        put: &[char],
    ) -> Result<(), ActionFault>
        requires { index < length self.old.work.buffers.all }
        ensures ran { RunsAt index (Command.ReplaceRange lo hi put.now) 1
            self.old.work (self.new.work, result) }
        ensures spliced { OnOk result
            (self.new ≡ spec.with_changed index self.new.work self.old) }
        ensures same { OnErr result (self.new ≡ self.old) }
    {
        let put = Chars::from_slice(self.alloc, put)?;
        let anchors = self.anchors(index);
        self.work
            .run_at(index, &Command::ReplaceRange { lo, hi, put }, 1)?;
        self.put_search(index, anchors);
        Ok(())
    }
}
