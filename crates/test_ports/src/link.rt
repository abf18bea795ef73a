//! Links that nobody opens.
use std::io::{Error, ErrorKind, Read, Result, Write};

/// A link to nobody, whose calls fail.
#[derive(Drop)]
pub struct NoLink;

fn fault() -> Error {
    Error::from(ErrorKind::NotConnected)
}

impl Read for NoLink {
    fn read(&mut self, _buf: &mut [u8]) -> Result<usize> {
        Err(fault())
    }
}

impl Write for NoLink {
    fn write(&mut self, _buf: &[u8]) -> Result<usize> {
        Err(fault())
    }

    fn flush(&mut self) -> Result<()> {
        Err(fault())
    }
}
