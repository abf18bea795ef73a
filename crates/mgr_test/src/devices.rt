//! Devices whose calls are counted, and that fail from some call on.
use rga_exchange::{Counted, Fuse};
use std::alloc::Global;
use std::io;
use std::io::{ErrorKind, Read, Write};

/// A reader that gives one byte in a read, and of which each second call is interrupted.
#[derive(Drop)]
struct Stuttering {
    interrupts: bool,
}

impl Read for Stuttering {
    fn read(&mut self, buf: &mut [u8]) -> io::Result<usize> {
        let interrupts = self.interrupts;
        self.interrupts = !interrupts;
        if interrupts {
            return Err(io::Error::from(ErrorKind::Interrupted));
        }
        let mut byte = b"a".as_slice();
        byte.read(buf)
    }
}

/// Whether a read of two bytes gives this one alone, or fails where none is wanted, and so many
/// calls failed by then.
fn reads(reader: &mut Counted<Stuttering>, byte: Option<u8>, failures: u64) -> bool {
    let mut buf = [0u8; 2];
    let read = match reader.read(&mut buf) {
        Ok(1) => Some(buf[0]),
        Ok(_) => return false,
        Err(_) => None,
    };
    read == byte && reader.failures() == failures
}

#[test]
fn a_reader_that_fails_in_mid_stream(rt: HostRuntime) {
    const ROWS: &[(Option<u8>, u64, &str)] = &[
        (Some(b'a'), 0, "before the failure"),
        (None, 1, "an interrupted call failed"),
        (Some(b'a'), 1, "the device is asked again"),
    ];
    let mut reader = Counted::new(Stuttering { interrupts: false });
    for (byte, failures, call) in ROWS {
        assert!(rt; reads(&mut reader, *byte, *failures), "{call}");
    }
    assert!(rt;
        reader.into_inner().interrupts,
        "no further call was passed on"
    );
}

/// A writer that takes nothing.
#[derive(Drop)]
struct Full;

impl Write for Full {
    fn write(&mut self, _buf: &[u8]) -> io::Result<usize> {
        Ok(0)
    }

    fn flush(&mut self) -> io::Result<()> {
        Ok(())
    }
}

/// Whether a write of these bytes takes none, and so many calls failed by then.
fn takes_nothing(writer: &mut Counted<Full>, bytes: &[u8], failures: u64) -> bool {
    matches!(writer.write(bytes), Ok(0)) && writer.failures() == failures
}

/// Whether a write of all of these bytes fails and a flush does not, and so many calls failed by
/// then.
fn refuses_all(writer: &mut Counted<Full>, bytes: &[u8], failures: u64) -> bool {
    let refused = writer.write_all(bytes).is_err();
    refused && writer.flush().is_ok() && writer.failures() == failures
}

#[test]
fn a_writer_that_takes_nothing(rt: HostRuntime) {
    let mut full = Counted::new(Full);
    assert!(rt;
        takes_nothing(&mut full, b"", 0),
        "there was nothing to take"
    );
    assert!(rt; takes_nothing(&mut full, b"ab", 1), "there were two bytes");
    assert!(rt; refuses_all(&mut full, b"ab", 2), "all or nothing");
}

/// Whether a writer in memory takes all of these bytes, and no call fails.
fn all_are_taken(alloc: Global, bytes: &[u8]) -> bool {
    let mut writer = Counted::new(Vec::new(alloc));
    let written = writer.write_all(bytes).is_ok() && writer.flush().is_ok();
    written && writer.failures() == 0 && writer.into_inner().as_slice() == bytes
}

#[test]
fn a_writer_that_takes_all(rt: HostRuntime) {
    assert!(rt; all_are_taken(rt.alloc(), b"ab"));
}

/// A device that counts the calls that it gets, and answers each of them alike.
#[derive(Drop)]
struct Recording {
    calls: u64,
    fault: Option<ErrorKind>,
}

impl Recording {
    fn answer(&mut self) -> io::Result<()> {
        self.calls = self.calls.saturating_add(1);
        match self.fault {
            Some(kind) => Err(io::Error::from(kind)),
            None => Ok(()),
        }
    }
}

impl Read for Recording {
    fn read(&mut self, _buf: &mut [u8]) -> io::Result<usize> {
        self.answer()?;
        Ok(0)
    }
}

impl Write for Recording {
    fn write(&mut self, buf: &[u8]) -> io::Result<usize> {
        self.answer()?;
        Ok(buf.len())
    }

    fn flush(&mut self) -> io::Result<()> {
        self.answer()
    }
}

/// What is asked of a device.
#[derive(Clone, Copy)]
enum Request {
    Read,
    Write,
    Flush,
}

fn ask<D: Read + Write>(device: &mut D, request: Request) {
    match request {
        Request::Read => drop(device.read(&mut [0u8; 2])),
        Request::Write => drop(device.write(b"ab")),
        Request::Flush => drop(device.flush()),
    }
}

/// How many calls a request makes of a device that answers so.
fn calls_of(request: Request, fault: Option<ErrorKind>) -> u64 {
    let mut device = Counted::new(Recording { calls: 0, fault });
    ask(&mut device, request);
    device.into_inner().calls
}

/// How many calls come through a fuse for so many, if one of each kind is made.
fn calls_through(calls: u64) -> u64 {
    let mut device = Fuse::new(
        Recording {
            calls: 0,
            fault: None,
        },
        calls,
    );
    for request in [Request::Flush, Request::Read, Request::Write] {
        ask(&mut device, request);
    }
    device.into_inner().calls
}

#[test]
fn a_call_is_one_call_of_the_device(rt: HostRuntime) {
    const FAULTS: &[Option<ErrorKind>] = &[
        None,
        Some(ErrorKind::Interrupted),
        Some(ErrorKind::Other),
    ];
    for fault in FAULTS {
        assert!(rt; calls_of(Request::Read, *fault) == 1, "a read, {fault:?}");
        assert!(rt; calls_of(Request::Write, *fault) == 1, "a write, {fault:?}");
        assert!(rt; calls_of(Request::Flush, *fault) == 1, "a flush, {fault:?}");
    }
}

#[test]
fn a_fuse_passes_on_its_calls_and_no_more(rt: HostRuntime) {
    const ROWS: &[(u64, u64, &str)] = &[
        (0, 0, "nothing"),
        (1, 2, "a flush, and a read"),
        (2, 3, "a flush, a read and a write"),
    ];
    for (calls, passed, what) in ROWS {
        assert!(rt; calls_through(*calls) == *passed, "{what}");
    }
}
