//! A port in memory.
ghost use Rattle.std.specs.Prelude.{◌≡◌, [], ◌∷◌, ◌++◌, Some, IsErr, IfErr, OnOk, OnErr};
ghost use Rattle.mg_files.specs.Calls.{call, load_call, found_call, link_call, refused, told, load_told, link_told, failures_after, failures_after_link};

use crate::call::{MadeCall, push_calls};
use crate::folder::{Folder, twin};
use crate::link::NoLink;
use mg_files::{CallKind, Found, LinkFault, LogLines, Port, PortFault};
use std::alloc::{AllocError, Global};

/// Holds files by name, meets nobody, and tells its calls.
#[derive(Drop)]
pub struct MemoryPort {
    alloc: Global,
    folder: Folder,
    /// The calls so far.
    pub calls: Vec<MadeCall>,
    failures: u64,
    /// The kind of call that is refused from now on.
    pub refused: Option<CallKind>,
}

impl MemoryPort {
    /// A port with no files, which refuses no call for a file.
    pub fn new(alloc: Global) -> MemoryPort {
        MemoryPort {
            alloc,
            folder: Folder::new(alloc),
            calls: Vec::new(alloc),
            failures: 0,
            refused: None,
        }
    }

    /// Adds the calls so far to a line, in words: what each asks for, and how many bytes it has, where
    /// it writes a file; `!` where it was refused.
    pub fn push_calls(&self, line: &mut String) -> Result<(), AllocError> {
        push_calls(line, self.alloc, &self.calls)
    }

    /// Whether calls of that kind are refused.
    fn refuses(&self, kind: CallKind) -> bool {
        match self.refused {
            Some(refused) => refused as u8 == kind as u8,
            None => false,
        }
    }

    /// Makes a call that writes, or refuses it.
    fn call(&mut self, kind: CallKind, name: &str, bytes: &[u8]) -> Result<(), PortFault>
        ensures tells { self.new.calls.items
            ≡ self.old.calls.items ++ told result (call kind name.now bytes.now) }
        ensures device { self.new.failures ≡ failures_after result self.old.failures }
    {
        if self.refuses(kind) {
            return self.refuse(kind, name, bytes);
        }
        let file = self.folder.file_after(kind, name, bytes)?;
        self.folder.make_entry(name)?;
        self.note(kind, name, bytes, true)?;
        self.folder.keep(kind, name, file);
        Ok(())
    }

    /// Refuses a call that writes.
    fn refuse(&mut self, kind: CallKind, name: &str, bytes: &[u8]) -> Result<(), PortFault>
        ensures tells { self.new.calls.items
            ≡ self.old.calls.items ++ told result (call kind name.now bytes.now) }
        ensures device { self.new.failures ≡ failures_after result self.old.failures }
    {
        self.note(kind, name, bytes, false)?;
        self.failures = self.failures.saturating_add(1);
        Err(PortFault::File)
    }

    /// Refuses a load.
    fn refuse_load(&mut self, name: &str) -> Result<Found, PortFault>
        ensures tells { self.new.calls.items
            ≡ self.old.calls.items ++ load_told result name.now }
        ensures device { self.new.failures ≡ failures_after result self.old.failures }
    {
        self.note(CallKind::Load, name, &[], false)?;
        self.failures = self.failures.saturating_add(1);
        Err(PortFault::File)
    }

    /// Makes a load.
    fn answer_load(&mut self, name: &str) -> Result<Found, PortFault>
        ensures tells { self.new.calls.items
            ≡ self.old.calls.items ++ load_told result name.now }
        ensures device { self.new.failures ≡ failures_after result self.old.failures }
    {
        let found = self.folder.found(name)?;
        self.note_found(name, twin(self.alloc, &found)?)?;
        Ok(found)
    }

    /// Refuses a call for a link.
    fn meet_nobody(&mut self, kind: CallKind) -> Result<NoLink, LinkFault>
        ensures nobody { IsErr result }
        ensures tells { self.new.calls.items
            ≡ self.old.calls.items ++ link_told result (link_call kind) }
        ensures device { self.new.failures ≡ failures_after_link result self.old.failures }
    {
        self.note(kind, "", &[], false)?;
        Err(LinkFault::NoPort)
    }

    /// Notes a call that answers no files. `AllocError` alone.
    fn note(
        &mut self,
        kind: CallKind,
        name: &str,
        bytes: &[u8],
        answered: bool,
    ) -> Result<(), AllocError>
        ensures noted { OnOk result (self.new ≡ record self.old { calls = self.new.calls }) }
        ensures made { OnOk result (self.new.calls.items ≡ self.old.calls.items
            ++ record (call kind name.now bytes.now) { answered = answered } ∷ []) }
        ensures same { OnErr result ((self.new.calls.items ≡ self.old.calls.items)
            × (self.new.failures ≡ self.old.failures)) }
    {
        let made = MadeCall {
            kind,
            name: String::from_str(self.alloc, name)?,
            bytes: Vec::from_slice(self.alloc, bytes)?,
            answered,
            found: None,
        };
        self.push(made)
    }

    /// Notes a load that answers these files. `AllocError` alone.
    fn note_found(&mut self, name: &str, found: Found) -> Result<(), AllocError>
        ensures noted { OnOk result (self.new ≡ record self.old { calls = self.new.calls }) }
        ensures made { OnOk result (self.new.calls.items ≡ self.old.calls.items
            ++ found_call name.now found ∷ []) }
        ensures same { OnErr result ((self.new.calls.items ≡ self.old.calls.items)
            × (self.new.failures ≡ self.old.failures)) }
    {
        let made = MadeCall {
            kind: CallKind::Load,
            name: String::from_str(self.alloc, name)?,
            bytes: Vec::new(self.alloc),
            answered: true,
            found: Some(found),
        };
        self.push(made)
    }

    /// Adds a call to those that are told. `AllocError` alone.
    fn push(&mut self, made: MadeCall) -> Result<(), AllocError>
        ensures pushed { OnOk result (self.new ≡ record self.old { calls = self.new.calls }) }
        ensures made { OnOk result (self.new.calls.items ≡ self.old.calls.items ++ made ∷ []) }
        ensures same { OnErr result ((self.new.calls.items ≡ self.old.calls.items)
            × (self.new.failures ≡ self.old.failures)) }
    {
        self.calls.push(made)?;
        Ok(())
    }
}

impl Port for MemoryPort {
    type Link = NoLink;

    ghost calls = { λ p. Some p.calls.items };

    ghost links = { λ _. Some [] };

    ghost failures = { λ p. p.failures };

    fn load(&mut self, name: &str) -> Result<Found, PortFault> {
        if self.refuses(CallKind::Load) {
            return self.refuse_load(name);
        }
        self.answer_load(name)
    }

    fn append(&mut self, name: &str, lines: &LogLines) -> Result<(), PortFault> {
        let bytes = lines.to_vec()?;
        self.call(CallKind::Append, name, &bytes)
    }

    fn replace(&mut self, name: &str, lines: &LogLines) -> Result<(), PortFault> {
        let bytes = lines.to_vec()?;
        self.call(CallKind::Replace, name, &bytes)
    }

    fn put_text(&mut self, name: &str, bytes: &[u8]) -> Result<(), PortFault> {
        self.call(CallKind::PutText, name, bytes)
    }

    fn connect(&mut self) -> Result<NoLink, LinkFault> {
        self.meet_nobody(CallKind::Connect)
    }

    fn accept(&mut self) -> Result<NoLink, LinkFault> {
        self.meet_nobody(CallKind::Accept)
    }

    fn finish(&mut self, _link: &mut NoLink) -> Result<(), LinkFault> {
        self.note(CallKind::Finish, "", &[], true)?;
        Ok(())
    }

    fn failures(&self) -> u64 {
        self.failures
    }
}
