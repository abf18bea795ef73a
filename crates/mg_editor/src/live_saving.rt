//! What a live session writes: the logs of what was made, and what was touched.
ghost use Rattle.std.specs.Prelude.{◌≡◌, ◌<◌, length};
ghost use Rattle.std.specs.List.{list_any};
ghost use Rattle.mg_files.specs.Calls.{failures_after};
ghost use Rattle.mg_workspace.specs.Buffers.{buffer_at};
ghost use Rattle.mg_workspace.specs.Workspaces.{with_buffer_at};
ghost use Rattle.mg_editor.specs.LiveSaving as spec;

use crate::editor::Editor;
use crate::failing::port_failure;
use mg_buffer::VisitedBuffer;
use mg_files::{Port, PortFault, log, save};
use mg_workspace::{Failure, Task, Workspace};
use rga_store::TextStore;
use std::alloc::Global;

/// What is written of a buffer whose turn it is, and which buffers are written.
#[derive(Clone, Copy)]
pub enum Writing {
    /// The log, if something was made in the buffer and is not in its log.
    Log,
    /// Log and text, if there is something to save and the buffer was touched, or is the one that
    /// took something from reports.
    LogAndText(Option<usize>),
}

/// Whether the buffer at an index took something from reports.
fn is_live(live: Option<usize>, index: usize) -> bool
    ensures { result ≡ spec.is_live live index }
{
    match live {
        Some(live) => live == index,
        None => false,
    }
}

/// Whether the buffer at an index is to be written so.
fn is_due<S: TextStore>(writing: Writing, index: usize, opened: &VisitedBuffer<S>) -> bool
    ensures { result ≡ spec.is_due writing index opened.now }
{
    match writing {
        Writing::Log => opened.has_made() && !opened.buffer.unsaved().is_empty(),
        Writing::LogAndText(live) => {
            opened.is_changed() && (opened.is_touched() || is_live(live, index))
        }
    }
}

/// Whether any buffer is to be written so.
fn is_any_due<S: TextStore>(writing: Writing, work: &Workspace<S>) -> bool
    ensures { result ≡ spec.is_any_due writing 0 work.now.buffers.all }
{
    for index in 0..work.count() {
        if is_due(writing, index, work.at(index)) {
            return true;
        }
    }
    false
}

/// Writes a buffer.
fn write<S: TextStore, P: Port>(
    alloc: Global,
    writing: Writing,
    opened: &mut VisitedBuffer<S>,
    port: &mut P,
) -> Result<(), PortFault>
    ensures writes { spec.WritesTo writing result
        (P.calls port.old) (P.calls port.new) opened.old opened.new }
    ensures links { P.links port.new ≡ P.links port.old }
    ensures device { P.failures port.new ≡ failures_after result (P.failures port.old) }
{
    match writing {
        Writing::Log => log(alloc, opened, port),
        Writing::LogAndText(_) => match save(alloc, opened, port) {
            Ok(_) => Ok(()),
            Err(fault) => Err(fault),
        },
    }
}

/// Why a writing failed.
fn writing_failure(ended: &Result<(), PortFault>) -> Option<Failure>
    ensures { result ≡ spec.writing_failure ended.now }
{
    match ended {
        Ok(_) => None,
        Err(fault) => Some(port_failure(*fault)),
    }
}

/// The turn of the buffer at an index: it is written if it is to be, which is noted as a save of it.
/// Answers how the last writing ended.
fn take_turn<S: TextStore, P: Port>(
    alloc: Global,
    writing: Writing,
    work: &mut Workspace<S>,
    index: usize,
    port: &mut P,
    saved: Option<Result<(), PortFault>>,
) -> Option<Result<(), PortFault>>
    requires { index < length work.old.buffers.all }
    ensures turn { let b = buffer_at index work.old.buffers in
        spec.TakesTurn (spec.is_due writing index b) writing index
        b (buffer_at index work.new.buffers)
        (spec.course (P.calls port.old) (P.failures port.old) work.old.failures saved)
        (spec.course (P.calls port.new) (P.failures port.new) work.new.failures result) }
    ensures rest { let d = buffer_at index work.new.buffers in
        work.new ≡ record (with_buffer_at index work.old d) { failures = work.new.failures } }
    ensures links { P.links port.new ≡ P.links port.old }
{
    if !is_due(writing, index, work.at(index)) {
        return saved;
    }
    let ended = write(alloc, writing, work.at_mut(index), port);
    work.note_at(index, Task::Save, writing_failure(&ended));
    Some(ended)
}

/// Each buffer has its turn, in the order in which they were opened.
fn sweep<S: TextStore, P: Port>(
    alloc: Global,
    writing: Writing,
    work: &mut Workspace<S>,
    port: &mut P,
    saved: Option<Result<(), PortFault>>,
) -> Option<Result<(), PortFault>>
    ensures swept { spec.Sweeps writing 0 work.old.buffers.all work.new.buffers.all
        (spec.course (P.calls port.old) (P.failures port.old) work.old.failures saved)
        (spec.course (P.calls port.new) (P.failures port.new) work.new.failures result) }
    ensures rest { work.new ≡
        spec.with_swept work.new.buffers.all work.new.failures work.old }
    ensures links { P.links port.new ≡ P.links port.old }
{
    let mut last = saved;
    for index in 0..work.count() {
        last = take_turn(alloc, writing, work, index, port, last);
    }
    last
}

impl<S: TextStore> Editor<S> {
    /// Brings the log up to date of each buffer in which a command or an undo made something since
    /// its load, and of which operations are unsaved, in the order in which the buffers were opened,
    /// as `mg_files::log` does. One that fails does not keep the next from its turn. How each ended
    /// is noted as a save of its buffer, done or failed. Answers how the last one ended, or `saved`
    /// if none was due. What is talked stays, and so do the windows, which buffer is current, and of
    /// each buffer its text, name, point, mark and groups.
    pub fn log_made<P: Port>(
        &mut self,
        port: &mut P,
        saved: Option<Result<(), PortFault>>,
    ) -> Option<Result<(), PortFault>>
        ensures swept { let old = self.old.work in let new = self.new.work in
            spec.Sweeps Writing.Log 0 old.buffers.all new.buffers.all
            (spec.course (P.calls port.old) (P.failures port.old) old.failures saved)
            (spec.course (P.calls port.new) (P.failures port.new) new.failures result) }
        ensures rest { let new = self.new.work in self.new ≡ record self.old {
          work = spec.with_swept new.buffers.all new.failures self.old.work;
        } }
        ensures links { P.links port.new ≡ P.links port.old }
    {
        sweep(self.alloc, Writing::Log, &mut self.work, port, saved)
    }

    /// Saves each buffer that is changed and was touched since its load, in the order in which the
    /// buffers were opened, as `mg_files::save` does; so too the changed buffer at the index that is
    /// given, which took something from reports. A buffer is touched if a command or an undo made
    /// something in it, or it is no longer as it was loaded. Otherwise as `log_made`.
    pub fn save_touched<P: Port>(
        &mut self,
        touched: Option<usize>,
        port: &mut P,
        saved: Option<Result<(), PortFault>>,
    ) -> Option<Result<(), PortFault>>
        ensures swept { let old = self.old.work in let new = self.new.work in
            spec.Sweeps (Writing.LogAndText touched) 0 old.buffers.all new.buffers.all
            (spec.course (P.calls port.old) (P.failures port.old) old.failures saved)
            (spec.course (P.calls port.new) (P.failures port.new) new.failures result) }
        ensures rest { let new = self.new.work in self.new ≡ record self.old {
          work = spec.with_swept new.buffers.all new.failures self.old.work;
        } }
        ensures links { P.links port.new ≡ P.links port.old }
    {
        sweep(
            self.alloc,
            Writing::LogAndText(touched),
            &mut self.work,
            port,
            saved,
        )
    }

    /// Whether `log_made` would write a log. Takes no memory.
    pub fn owes_log(&self) -> bool
        ensures { result ≡ list_any spec.is_log_due self.now.work.buffers.all }
    {
        is_any_due(Writing::Log, &self.work)
    }

    /// Whether `save_touched` would save a buffer. Takes no memory.
    pub fn owes_save(&self, touched: Option<usize>) -> bool
        ensures { result ≡ spec.owes_save touched self.now.work.buffers.all }
    {
        is_any_due(Writing::LogAndText(touched), &self.work)
    }
}
