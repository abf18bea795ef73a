//! An editor that opens.
ghost use Rattle.std.specs.Prelude.{◌≡◌, ◌≢◌, ◌<◌, Err, IfOk, IfErr, OnErr, length};
ghost use Rattle.rga_ops.specs.Prelude.{text};
ghost use Rattle.mg_files.specs.Loading.{load_outcome, MayWantMemory};
ghost use Rattle.mg_files.specs.Memory.{LoadMemory as Memory};
ghost use Rattle.mg_workspace.specs.Buffers.{most_buffers};
ghost use Rattle.mg_editor.specs.Finding as finding;
ghost use Rattle.mg_editor.specs.Opening as spec;

use crate::editor::Editor;
use mg_files::{Found, LoadFault};
use mg_minibuffer::{Dialogue, Message};
use mg_screen::Settings;
use mg_workspace::Workspace;
use rga_exchange::LogEnd;
use rga_ops::OutOfMemory;
use rga_store::TextStore;
use std::alloc::Global;

/// What is said of a log that was loaded.
pub(crate) fn message_of_end(end: LogEnd) -> Message
    ensures { result ≡ spec.message_of_end end }
{
    match end {
        LogEnd::Torn(bytes) => Message::TornLog(bytes),
        LogEnd::Whole | LogEnd::Bare => Message::Nothing,
    }
}

/// Opens a buffer by what was found under its name, as `mg_files::load` does, with the replica and
/// the limit of the workspace. Answers how its log ends. A fault changes nothing.
pub(crate) fn open<S: TextStore>(
    alloc: Global,
    work: &mut Workspace<S>,
    name: &str,
    found: Found,
) -> Result<LogEnd, LoadFault>
    requires { length work.old.buffers.all < most_buffers }
    ensures exact { let w = work.old in result ≢ Err Memory → (work.new, result) ≡
        finding.open_outcome (load_outcome name.now w.replica w.limit found) w }
    ensures memory { let w = work.old in
        result ≡ Err Memory → MayWantMemory w.replica w.limit found }
    ensures same { OnErr result (work.new ≡ work.old) }
{
    let (opened, end) = mg_files::load(alloc, name, work.replica(), work.limit(), found)?;
    work.open(opened)?;
    Ok(end)
}

impl<S: TextStore> Editor<S> {
    /// An editor with the buffer that the settings name, by what was found under its name: the
    /// operations of its log, nothing unsaved, or else the characters of its text, all unsaved, or
    /// nothing. Point is at the front of it, in one window; a log that was torn is told.
    ///
    /// Faults: those of `mg_files::load`.
    pub fn new(alloc: Global, settings: &Settings, found: Found) -> Result<Editor<S>, LoadFault>
        ensures exact { result ≢ Err Memory → result ≡ spec.opened_editor settings.now found }
        ensures memory { let v = settings.now in
            result ≡ Err Memory → MayWantMemory v.replica v.limit found }
    {
        let values = settings.values();
        let (opened, end) = mg_files::load(
            alloc,
            values.name.as_str(),
            values.replica,
            values.limit,
            found,
        )?;
        Ok(Editor {
            alloc,
            work: Workspace::new(alloc, settings, opened)?,
            talk: Dialogue::new(alloc, message_of_end(end)),
        })
    }

    /// The text of the current buffer. `Memory` alone.
    pub fn text(&self) -> Result<Vec<char>, OutOfMemory>
        ensures text { IfOk result (λ chars. chars.items ≡ spec.current_text self.now) }
    {
        self.work.current().buffer.store().text(self.alloc)
    }
}
