//! What is worked on: the buffers, what commands leave for the next one, and the windows.
ghost use Rattle.std.specs.Prelude.{◌≡◌, ◌<◌, ◌≤◌, IfOk, IfErr, length};
ghost use Rattle.mg_screen.specs.Size.{least_columns, most_columns};
ghost use Rattle.mg_workspace.specs.Buffers.{buffer_at};
ghost use Rattle.mg_workspace.specs.Failures.{first_standing};
ghost use Rattle.mg_workspace.specs.Opening.{workspace};
ghost use Rattle.mg_workspace.specs.Workspaces as spec;

use crate::buffers::Buffers;
use crate::failures::{Failure, Failures, Task};
use crate::viewport::Viewport;
use mg_buffer::{Memo, VisitedBuffer};
use mg_minibuffer::Scene;
use mg_screen::{Settings, Windows};
use rga_ops::OutOfMemory;
use rga_store::TextStore;
use std::alloc::Global;
use std::marker::Model;

/// How many buffers are open at most.
pub const MAX_BUFFERS: usize = 64;

/// The buffers with what commands leave for the next one, and the windows, each of which shows a
/// buffer from a line on. The current window shows the current buffer.
#[derive(Drop)]
pub struct Workspace<S: TextStore> {
    pub(crate) buffers: Buffers<S>,
    pub(crate) memo: Memo,
    pub(crate) windows: Windows<Viewport>,
    /// The fill column.
    pub(crate) fill: u16,
    /// The columns of the screen.
    pub(crate) columns: usize,
    /// The replica and the limit of buffers that are opened.
    pub(crate) replica: u16,
    pub(crate) limit: usize,
    /// Whether saves of them append runs, and whether their exchanges are brief.
    pub(crate) runs: bool,
    pub(crate) brief: bool,
    /// What failed in buffers and still stands.
    pub(crate) failures: Failures,
}

/// The first buffer, from its first line on.
const BEGINNING: Viewport = Viewport {
    buffer: 0,
    first: 0,
};

impl<S: TextStore> Model for Workspace<S> {
    ghost use Rattle.std.specs.Prelude.{◌≤◌};
    ghost use Rattle.mg_screen.specs.Size.{least_columns, most_columns};
    ghost use Rattle.mg_workspace.specs.Workspaces as spec;
    ghost use Rattle.std.specs.Coded.{codes};
    ghost use Rattle.mg_buffer.specs.OpenState.{open_state_code};
    ghost use Rattle.mg_screen.specs.Layout.{layout_code};
    ghost use Rattle.mg_workspace.specs.Viewports.{AreShown, viewport_code};

    ghost Value = { spec.Workspace };

    ghost coded = { Prim.hlevel (codes, open_state_code, layout_code viewport_code) };

    ghost view = { λ w. record {
      buffers = w.buffers;
      notes = w.memo;
      windows = w.windows;
      fill = w.fill;
      columns = w.columns;
      replica = w.replica;
      limit = w.limit;
      runs = w.runs;
      brief = w.brief;
      failures = w.failures;
    } };

    ghost invariant = { λ w.
        (least_columns ≤ w.columns) × (w.columns ≤ most_columns) × AreShown w.buffers w.windows };
}

impl<S: TextStore> Workspace<S> {
    ghost use Rattle.std.specs.Borrow.{Lends, sem};
    ghost use Rattle.mg_buffer.specs.contracts.visited_buffer.VisitedBuffer.{the_row as of_buffer};
    ghost use Rattle.mg_workspace.specs.contracts.workspace.Workspace.{the_row};

    /// One buffer in one window, from its first line on. Out of memory alone.
    pub fn new(
        alloc: Global,
        settings: &Settings,
        mut opened: VisitedBuffer<S>,
    ) -> Result<Workspace<S>, OutOfMemory>
        ensures exact { IfOk result (λ w. w ≡ workspace settings.now opened) }
    {
        let values = settings.values();
        opened.append_runs(values.runs);
        opened.exchange_briefly(values.brief);
        let buffers = Buffers::new(alloc, opened)?;
        let windows = Windows::new(alloc, values.rows, BEGINNING)?;
        Ok(Workspace {
            buffers,
            memo: Memo::new(alloc),
            windows,
            fill: values.fill,
            columns: values.columns,
            replica: values.replica,
            limit: values.limit,
            runs: values.runs,
            brief: values.brief,
            failures: Failures::new(),
        })
    }

    /// The current buffer. Takes no memory.
    pub fn current(&self) -> &VisitedBuffer<S>
        ensures { result.now ≡ spec.workspace_buffer self.now }
    {
        self.buffers.current()
    }

    /// The current buffer, to be changed: the windows go on showing it. Takes no memory.
    pub fn current_mut(&mut self) -> &mut VisitedBuffer<S>
        ensures* writes_back { sem 𝓛 (Lends (the_row S.row S.Taker) (of_buffer S.row S.Taker)
            self.entry result (spec.with_workspace_buffer self.old)) }
        ensures value { result.now ≡ spec.workspace_buffer self.old }
    {
        self.buffers.current_mut()
    }

    /// How many buffers are open. Takes no memory.
    pub fn count(&self) -> usize
        ensures { result ≡ length self.now.buffers.all }
    {
        self.buffers.count()
    }

    /// The buffer at an index. Takes no memory.
    #[tactic(auto, using(std::proofs::lemmas::Option::get_or_from_slice_get))]
    pub fn at(&self, index: usize) -> &VisitedBuffer<S>
        requires { index < length self.now.buffers.all }
        ensures { result.now ≡ buffer_at index self.now.buffers }
    {
        self.buffers.at(index)
    }

    /// The buffer at an index, to be changed: the windows go on showing it. Takes no memory.
    pub fn at_mut(&mut self, index: usize) -> &mut VisitedBuffer<S>
        requires { index < length self.old.buffers.all }
        ensures* writes_back { sem 𝓛 (Lends (the_row S.row S.Taker) (of_buffer S.row S.Taker)
            self.entry result (spec.with_buffer_at index self.old)) }
        ensures value { result.now ≡ buffer_at index self.old.buffers }
    {
        self.buffers.at_mut(index)
    }

    /// A task of the current buffer was done, or failed for that. Takes no memory.
    pub fn note(&mut self, task: Task, why: Option<Failure>)
        ensures { self.new ≡ spec.with_task task why self.old }
    {
        let index = self.buffers.current_index();
        self.note_at(index, task, why);
    }

    /// A task of the buffer at an index was done, or failed for that. Takes no memory.
    pub fn note_at(&mut self, index: usize, task: Task, why: Option<Failure>)
        ensures { self.new ≡ spec.with_task_at index task why self.old }
    {
        self.failures.note(index, task, why);
    }

    /// Why the first of the saves and exchanges failed that stand. Takes no memory.
    pub fn failure(&self) -> Option<Failure>
        ensures { result ≡ first_standing self.now.failures }
    {
        self.failures.first()
    }

    /// The index of the current window from the top, from 0. Takes no memory.
    pub fn window(&self) -> usize
        ensures { result ≡ self.now.windows.current }
    {
        self.windows.current()
    }

    /// Lists the current buffer, if there is memory: its text and the places of point and mark are
    /// then at hand.
    pub fn list(&mut self)
        ensures same { self.new ≡ self.old }
    {
        let index = self.buffers.current_index();
        self.buffers.list_at(index);
    }

    /// Lists all buffers, as far as there is memory.
    pub fn list_all(&mut self)
        ensures same { self.new ≡ self.old }
    {
        self.buffers.list_all();
    }

    /// The columns of the screen.
    pub fn columns(&self) -> usize
        ensures exact { result ≡ self.now.columns }
        ensures from { least_columns ≤ result }
        ensures to { result ≤ most_columns }
    {
        self.columns
    }

    /// The replica of buffers that are opened. Takes no memory.
    pub fn replica(&self) -> u16
        ensures { result ≡ self.now.replica }
    {
        self.replica
    }

    /// The limit of buffers that are opened. Takes no memory.
    pub fn limit(&self) -> usize
        ensures { result ≡ self.now.limit }
    {
        self.limit
    }

    /// What a step is decided from. Takes no memory if the current buffer is listed. Out of memory
    /// alone.
    pub fn scene<'a>(&'a self) -> Result<Scene<'a>, OutOfMemory>
        ensures { IfOk result (λ scene. scene ≡ spec.scene_of self.now) }
    {
        let sight = self.buffers.current().buffer.sight()?;
        Ok(Scene {
            text: sight.text,
            point: sight.point,
            rows: self.windows.heights()[self.windows.current()],
            changed: self.buffers.are_changed(),
        })
    }
}
