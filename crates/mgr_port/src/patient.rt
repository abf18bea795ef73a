//! Files that are written at length.
ghost use Rattle.std.specs.Prelude.{◌≡◌, None};

use std::fs::File;
use std::io;
use std::io::{ErrorKind, Write};
use std::os::fd::AsRawFd;

/// So many bytes are written before the device is asked to begin with them.
const STRETCH: u64 = 4194304;

/// A file that takes all of what it is given at once, however often it is interrupted. The device
/// is to begin with a stretch of bytes while further ones are made: then a sync waits for less.
#[derive(Drop)]
pub(crate) struct Patient<'a> {
    file: &'a File,
    /// Of which kind a failure was, where one was.
    pub(crate) failed: Option<ErrorKind>,
    /// How many bytes were written since the device was asked.
    waiting: u64,
}

impl<'a> Patient<'a> {
    /// A file that is written at its end.
    pub(crate) fn new(file: &'a File) -> Patient<'a>
        ensures failed { result.failed ≡ None }
        ensures waiting { result.waiting ≡ 0 }
    {
        Patient {
            file,
            failed: None,
            waiting: 0,
        }
    }
}

impl<'a> Write for Patient<'a> {
    ghost use Rattle.std.specs.Prelude.{None};

    ghost contents = { λ _. None };

    fn write(&mut self, buf: &[u8]) -> io::Result<usize> {
        let mut file = self.file;
        if let Err(error) = file.write_all(buf) {
            self.failed = Some(error.kind());
            return Err(error);
        }
        self.waiting = self.waiting.saturating_add(buf.len() as u64);
        if self.waiting >= STRETCH {
            begin_last(self.file, self.waiting);
            self.waiting = 0;
        }
        Ok(buf.len())
    }

    fn flush(&mut self) -> io::Result<()> {
        Ok(())
    }
}

/// Asks the device to begin with so many bytes at the end of a file. Bytes that are said to be of no
/// more use are on their way at once, and are kept until they are there. Nothing is waited for, and
/// a refusal means nothing.
fn begin_last(file: &File, count: u64) {
    let Ok(metadata) = file.metadata() else {
        return;
    };
    let from = i64::try_from(metadata.len().saturating_sub(count));
    if let (Ok(from), Ok(length)) = (from, i64::try_from(count)) {
        let _ = libc::posix_fadvise(file.as_raw_fd(), from, length, libc::POSIX_FADV_DONTNEED);
    }
}
