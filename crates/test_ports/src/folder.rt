//! Files in memory.
ghost use Rattle.std.specs.Prelude.{◌≡◌, IfOk};
ghost use Rattle.std.specs.Option.{option_map};

use mg_files::{CallKind, Found};
use std::alloc::{AllocError, Global};

/// The log and the text of a name, where they are there.
#[derive(Drop)]
struct Entry {
    name: String,
    log: Option<Vec<u8>>,
    text: Option<Vec<u8>>,
}

/// Files by name.
#[derive(Drop)]
pub(crate) struct Folder {
    alloc: Global,
    entries: Vec<Entry>,
}

impl Folder {
    pub(crate) fn new(alloc: Global) -> Folder {
        Folder {
            alloc,
            entries: Vec::new(alloc),
        }
    }

    pub(crate) fn log(&self, name: &str) -> Option<&[u8]> {
        self.entry(name)?.log.as_deref()
    }

    /// A copy of what is there under a name.
    pub(crate) fn found(&self, name: &str) -> Result<Found, AllocError> {
        match self.entry(name) {
            Some(entry) => Ok(Found {
                log: twin_file(self.alloc, &entry.log)?,
                text: twin_file(self.alloc, &entry.text)?,
            }),
            None => Ok(Found {
                log: None,
                text: None,
            }),
        }
    }

    fn entry(&self, name: &str) -> Option<&Entry> {
        for entry in &self.entries {
            if entry.name.as_str() == name {
                return Some(entry);
            }
        }
        None
    }

    /// Makes room for the files of a name.
    pub(crate) fn make_entry(&mut self, name: &str) -> Result<(), AllocError> {
        if self.entry(name).is_none() {
            let name = String::from_str(self.alloc, name)?;
            self.entries.push(Entry {
                name,
                log: None,
                text: None,
            })?;
        }
        Ok(())
    }

    /// The file that a call writes, as it leaves it.
    pub(crate) fn file_after(
        &self,
        kind: CallKind,
        name: &str,
        bytes: &[u8],
    ) -> Result<Vec<u8>, AllocError> {
        let old = match kind {
            CallKind::Append => self.log(name).unwrap_or(&[]),
            _ => &[],
        };
        let mut file = Vec::from_slice(self.alloc, old)?;
        file.extend_from_slice(bytes)?;
        Ok(file)
    }

    /// Puts the file in its place, where the name is there.
    pub(crate) fn keep(&mut self, kind: CallKind, name: &str, file: Vec<u8>) {
        for entry in self.entries.iter_mut() {
            if entry.name.as_str() == name {
                entry.keep(kind, file);
                return;
            }
        }
    }
}

impl Entry {
    fn keep(&mut self, kind: CallKind, file: Vec<u8>) {
        match kind {
            CallKind::Append | CallKind::Replace => self.log = Some(file),
            CallKind::PutText => self.text = Some(file),
            CallKind::Load | CallKind::Connect | CallKind::Accept | CallKind::Finish => {}
        }
    }
}

/// The same files again.
pub(crate) fn twin(alloc: Global, found: &Found) -> Result<Found, AllocError>
    ensures { IfOk result (λ copy. copy ≡ found.now) }
{
    Ok(Found {
        log: twin_file(alloc, &found.log)?,
        text: twin_file(alloc, &found.text)?,
    })
}

fn twin_file(alloc: Global, file: &Option<Vec<u8>>) -> Result<Option<Vec<u8>>, AllocError>
    ensures { IfOk result (λ copy.
        option_map (λ bytes. bytes.items) copy ≡ option_map (λ bytes. bytes.items) file.now) }
{
    match file {
        Some(bytes) => Ok(Some(Vec::from_slice(alloc, bytes)?)),
        None => Ok(None),
    }
}
