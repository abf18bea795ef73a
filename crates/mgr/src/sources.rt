//! The files that jobs read by their names.
ghost use Rattle.std.specs.Prelude.{◌≡◌, None};
ghost use Rattle.mgr_show.specs.Sources.{failures_after};

use mgr_show::{ShowFault, Sources};
use rga_ops::of_io;
use std::alloc::Global;
use std::fs::File;
use std::io::{ErrorKind, Read};
use std::rt::Files;
use std::{fs, io};

/// Files by their paths, of which nothing is told.
#[derive(Drop)]
pub(crate) struct PathFiles<R> {
    rt: R,
    streams: bool,
    /// The streams that were read.
    read: Vec<Stream>,
    failures: u64,
}

/// What came of a stream, which gives it only once.
#[derive(Drop)]
struct Stream {
    name: String,
    bytes: Vec<u8>,
}

impl<R: AllocGlobal> PathFiles<R> {
    /// Plain files; with `streams` whatever can be read, and standard input as `-`. A pipe may
    /// never have an end, and a device may have none.
    pub(crate) fn new(rt: R, streams: bool) -> PathFiles<R>
        ensures { result.failures ≡ 0 }
    {
        let read = Vec::new(rt.alloc());
        PathFiles {
            rt,
            streams,
            read,
            failures: 0,
        }
    }
}

impl<R: Files<File = File> + Input> Sources for PathFiles<R> {
    ghost use Rattle.std.specs.Prelude.{None};

    ghost contents = { λ _ _. None };

    ghost failures = { λ sources. sources.failures };

    fn read(&mut self, alloc: Global, name: &str) -> Result<Vec<u8>, ShowFault> {
        match self.bytes_of(alloc, name) {
            Ok(bytes) => Ok(bytes),
            Err(error) => match of_io(&error) {
                Some(memory) => Err(ShowFault::Memory(memory)),
                None => {
                    self.failures = self.failures.saturating_add(1);
                    Err(ShowFault::Read)
                }
            },
        }
    }
}

impl<R: Files<File = File> + Input> PathFiles<R> {
    /// All bytes of a file or a stream. Those of a stream are kept: what is read of it again is the
    /// same. `InvalidInput` if only plain files are read, and it is none.
    fn bytes_of(&mut self, alloc: Global, name: &str) -> io::Result<Vec<u8>>
        ensures { self.new.failures ≡ self.old.failures }
    {
        for stream in &self.read {
            if stream.name.as_str() == name {
                return Ok(stream.bytes.clone()?);
            }
        }
        let is_input = self.streams && name == "-";
        let is_plain = !is_input && fs::metadata(&self.rt, name)?.is_file();
        if !self.streams && !is_plain {
            return Err(io::Error::from(ErrorKind::InvalidInput));
        }
        let mut bytes = Vec::new(alloc);
        if is_input {
            self.rt.reader().read_to_end(&mut bytes)?;
        } else {
            fs::open(&self.rt, name)?.read_to_end(&mut bytes)?;
        }
        if !is_plain {
            let name = String::from_str(alloc, name)?;
            let bytes = bytes.clone()?;
            self.read.push(Stream { name, bytes })?;
        }
        Ok(bytes)
    }
}
