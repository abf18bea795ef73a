//! What a status of a live session says: of the dialogue, of buffers and of windows.
ghost use Rattle.std.specs.Prelude.{◌≡◌, ◌<◌, Some, length, map, position, slice_get};
ghost use Rattle.std.specs.Prelude.{IfOk, IfSome, string_bytes};
ghost use Rattle.std.specs.Cow.{cow_slice_items};
ghost use Rattle.rga_ops.specs.Content.{clock_of};
ghost use Rattle.rga_ops.specs.Identifier.{is_id};
ghost use Rattle.rga_ops.specs.Order.{text};
ghost use Rattle.rga_ops.specs.Places.{visible};
ghost use Rattle.mg_minibuffer.specs.Messages.{message_text};
ghost use Rattle.mg_workspace.specs.AtIndex.{state_at};
ghost use Rattle.mg_workspace.specs.Buffers.{buffer_at};
ghost use Rattle.mg_workspace.specs.Workspaces.{workspace_buffer};
ghost use Rattle.mg_editor.specs.LiveStatus as spec;

use crate::editor::Editor;
use mg_events::{Asking, BufferStatus, PointStatus, PromptStatus, WindowStatus};
use mg_minibuffer::Prompt;
use mg_screen::column_of;
use mg_workspace::Workspace;
use rga_ops::{Id, OutOfMemory};
use rga_store::{TextStore, position_of};
use std::alloc::{AllocError, Global};
use std::borrow::CowSlice;

/// The window at an index from the top.
fn window_status<'a, S: TextStore>(work: &'a Workspace<S>, window: usize) -> WindowStatus<'a>
    requires { window < length work.now.windows.windows }
    ensures { let shown = map (spec.rows_and_name work.now.buffers) work.now.windows.windows in
        slice_get shown window ≡ Some (spec.told_rows_and_name result) }
{
    WindowStatus {
        rows: work.heights()[window],
        name: work.at(work.buffer_shown(window)).buffer.name(),
    }
}

fn window_statuses<'a, S: TextStore>(
    alloc: Global,
    work: &'a Workspace<S>,
) -> Result<Vec<WindowStatus<'a>>, AllocError>
    ensures { IfOk result (λ statuses. spec.AreWindowStatuses work.now statuses.items) }
{
    let mut statuses = Vec::new(alloc);
    for window in 0..work.heights().len() {
        statuses.push(window_status(work, window))?;
    }
    Ok(statuses)
}

impl<S: TextStore> Editor<S> {
    /// Lists all buffers, as far as there is memory: their texts, and the places of their points and
    /// marks, are then at hand.
    pub fn list(&mut self)
        ensures same { self.new ≡ self.old }
    {
        self.work.list_all();
    }

    /// What is asked. Takes no memory.
    pub fn mode(&self) -> Asking
        ensures { result ≡ spec.mode_status self.now.talk.prompt }
    {
        match self.talk.prompt() {
            None => Asking::Plain,
            Some(Prompt::Line { .. } | Prompt::Replacement { .. } | Prompt::Quitting) => {
                Asking::Prompt
            }
            Some(Prompt::Searching(_)) => Asking::Search,
            Some(Prompt::Replacing { .. }) => Asking::Query,
        }
    }

    /// The open prompt with the answer so far. `None` if no prompt is open. Takes no memory.
    pub fn prompt_status(&self) -> Option<PromptStatus<'_>>
        ensures { spec.IsPromptStatus self.now.talk.prompt result }
    {
        match self.talk.prompt() {
            None => None,
            Some(prompt) => Some(PromptStatus {
                label: prompt.label(),
                answer: prompt.answer(),
            }),
        }
    }

    /// The message, of the current buffer, whether or not a prompt is open; empty if nothing is
    /// said. `AllocError` alone.
    pub fn message_text(&self, alloc: Global) -> Result<String, AllocError>
        ensures { let name = (workspace_buffer self.now.work).buffer.name in IfOk result
            (λ text. string_bytes text ≡ message_text self.now.talk.message name) }
    {
        self.talk.message().text(alloc, self.work.name())
    }

    /// The buffer at an index: its name, whether it is changed, how many insertions wait, and how
    /// many operations are not saved. Out of memory alone.
    pub fn buffer_status(&self, index: usize) -> Result<BufferStatus<'_>, OutOfMemory>
        requires { index < length self.now.work.buffers.all }
        ensures { let opened = buffer_at index self.now.work.buffers in
            IfOk result (λ status. spec.IsBufferStatus opened status) }
    {
        let opened = self.work.at(index);
        let waiting = opened.buffer.store().waiting_count()?;
        Ok(BufferStatus {
            name: opened.buffer.name(),
            changed: opened.is_changed(),
            waiting,
            unsaved: opened.buffer.unsaved().len(),
        })
    }

    /// Where point stands in the current buffer. Takes no memory if that is listed. Out of memory
    /// alone.
    pub fn point_status(&self) -> Result<PointStatus, OutOfMemory>
        ensures { let buffer = (workspace_buffer self.now.work).buffer in
            IfOk result (λ status. spec.IsPointStatus buffer status) }
    {
        let buffer = &self.work.current().buffer;
        let sight = buffer.sight()?;
        Ok(PointStatus {
            line: sight.line,
            column: column_of(sight.text.as_slice(), sight.point),
            element: buffer.point(),
        })
    }

    /// The windows from the top: the text rows of each, and the name of the buffer that it shows.
    /// `AllocError` alone.
    pub fn window_statuses(&self, alloc: Global) -> Result<Vec<WindowStatus<'_>>, AllocError>
        ensures { IfOk result
            (λ statuses. spec.AreWindowStatuses self.now.work statuses.items) }
    {
        window_statuses(alloc, &self.work)
    }

    /// The greatest counter that the buffer at an index knows; 0 if it knows none. Takes no memory.
    pub fn clock_at(&self, index: usize) -> u64
        requires { index < length self.now.work.buffers.all }
        ensures { result ≡ clock_of (state_at index self.now.work).content }
    {
        self.work.at(index).buffer.store().clock()
    }

    /// The index of an element in the text of the buffer at an index; `None` if the text does not
    /// show it. Takes no memory.
    pub fn position_at(&self, index: usize, id: Id) -> Option<usize>
        requires { index < length self.now.work.buffers.all }
        ensures exact { let content = (state_at index self.now.work).content in
            result ≡ position (λ x. is_id x id) (visible content) }
        ensures there { let content = (state_at index self.now.work).content in
            IfSome result (λ k. slice_get (visible content) k ≡ Some id) }
    {
        position_of(self.work.at(index).buffer.store(), id)
    }

    /// The text of the buffer at an index, lent, with no memory taken, if that is listed. Out of
    /// memory alone.
    pub fn text_at(&self, index: usize) -> Result<CowSlice<'_, char>, OutOfMemory>
        requires { index < length self.now.work.buffers.all }
        ensures { let content = (state_at index self.now.work).content in
            IfOk result (λ characters. cow_slice_items characters ≡ text content) }
    {
        let sight = self.work.at(index).buffer.sight()?;
        Ok(sight.text)
    }
}
