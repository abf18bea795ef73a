//! Buffers that are gone to, removed, opened.
ghost use Rattle.std.specs.Prelude.{◌≡◌, ◌≢◌, ◌<◌, ◌≤◌, Err, length, OnOk, OnErr};
ghost use Rattle.mg_workspace.specs.Memory.{ActionMemory as Memory};
ghost use Rattle.mg_workspace.specs.Buffers.{most_buffers};
ghost use Rattle.mg_workspace.specs.Actions as spec;
ghost use Rattle.mg_workspace.specs.Viewports as viewports;
ghost use Rattle.mg_workspace.specs.Opening as opening;

use crate::arranging::{current_viewport, viewport_at};
use crate::buffers::{Buffers, moved};
use crate::fault::{ActionFault, Cause};
use crate::viewport::Viewport;
use crate::workspace::{MAX_BUFFERS, Workspace};
use mg_buffer::VisitedBuffer;
use mg_screen::Windows;
use rga_store::TextStore;
use std::alloc::AllocError;

/// The current window shows the current buffer, from the same line on.
fn turn<S: TextStore>(windows: &mut Windows<Viewport>, buffers: &Buffers<S>)
    requires few { length buffers.now.all ≤ most_buffers }
    requires each { viewports.ShowThese (length buffers.now.all) windows.old.windows }
    ensures exact { windows.new ≡ viewports.turned_to_buffer buffers.now.current windows.old }
    ensures shown { viewports.AreShown buffers.now windows.new }
{
    let buffer = buffers.current_index();
    let first = current_viewport(windows).first;
    windows.show(windows.current(), Viewport { buffer, first });
}

/// The windows, once a buffer is removed.
fn leave(windows: &mut Windows<Viewport>, gone: usize)
    ensures { windows.new ≡ viewports.layout_without gone windows.old }
{
    for index in 0..windows.heights().len() {
        let was = viewport_at(windows, index);
        let buffer = moved(gone, was.buffer);
        let first = was.first;
        windows.show(index, Viewport { buffer, first });
    }
}

impl<S: TextStore> Workspace<S> {
    /// The buffer at an index is current, and the current window shows it.
    fn go_to(&mut self, index: usize)
        requires { index < length self.old.buffers.all }
        ensures { self.new ≡ spec.gone_to index self.old }
    {
        self.buffers.go_to(index);
        turn(&mut self.windows, &self.buffers);
    }

    /// Another buffer is current: that of the name, or without a name the next one, round.
    pub(crate) fn switch(&mut self, name: &[char]) -> Result<(), ActionFault>
        ensures switched { (self.new, result) ≡ spec.switch_outcome name.now self.old }
        ensures no_memory { result ≢ Err Memory }
    {
        let Some(index) = self.buffers.asked(name, self.buffers.next()) else {
            return Err(ActionFault::Refused(Cause::NoSuchBuffer));
        };
        self.go_to(index);
        Ok(())
    }

    /// A buffer is removed: that of the name, or without a name the current one.
    pub(crate) fn kill(&mut self, name: &[char]) -> Result<(), ActionFault>
        ensures killed { (self.new, result) ≡ spec.kill_outcome name.now self.old }
        ensures no_memory { result ≢ Err Memory }
    {
        let Some(index) = self.buffers.asked(name, self.buffers.current_index()) else {
            return Err(ActionFault::Refused(Cause::NoSuchBuffer));
        };
        self.remove(index)
    }

    /// The buffer at an index is removed, unless it is changed or the only one. Its windows show the
    /// first one that is left, and what failed in it stands for good.
    fn remove(&mut self, index: usize) -> Result<(), ActionFault>
        requires { index < length self.old.buffers.all }
        ensures removed { (self.new, result) ≡ spec.removal_outcome index self.old }
        ensures no_memory { result ≢ Err Memory }
    {
        if self.buffers.at(index).is_changed() {
            return Err(ActionFault::Refused(Cause::BufferIsChanged));
        }
        if self.buffers.count() <= 1 {
            return Err(ActionFault::Refused(Cause::OnlyOneBuffer));
        }
        self.buffers.remove(index);
        leave(&mut self.windows, index);
        self.failures.remove(index);
        Ok(())
    }

    /// Goes to the buffer of a name, and answers whether it is open; where it is not, nothing
    /// changes. Takes no memory.
    pub fn visit(&mut self, name: &[char]) -> bool
        ensures { (self.new, result) ≡ spec.visit_outcome name.now self.old }
    {
        let Some(index) = self.buffers.named(name) else {
            return false;
        };
        self.go_to(index);
        true
    }

    /// Whether as many buffers are open as may be. Takes no memory.
    pub fn is_full(&self) -> bool
        ensures { result ≡ opening.is_full self.now }
    {
        self.buffers.count() >= MAX_BUFFERS
    }

    /// One more buffer is open: its saves append runs, and its exchanges are brief, where the settings
    /// say so. It is current then, and the current window shows it. `AllocError`
    /// alone, and nothing changes then.
    pub fn open(&mut self, mut opened: VisitedBuffer<S>) -> Result<(), AllocError>
        requires { length self.old.buffers.all < most_buffers }
        ensures opened { OnOk result (self.new ≡ opening.with_opened opened self.old) }
        ensures same { OnErr result (self.new ≡ self.old) }
    {
        opened.append_runs(self.runs);
        opened.exchange_briefly(self.brief);
        self.buffers.open(opened)?;
        turn(&mut self.windows, &self.buffers);
        Ok(())
    }
}
