//! Standard streams that are closed.
use std::fs::{File, OpenOptions};
use std::os::fd::{AsRawFd, RawFd};
use std::rt::Files;

/// The null device.
const NULL: &str = "/dev/null";

/// What stands in the place of standard streams that are closed, for as long as it is there. Else the
/// next file that is opened would be one of them: frames would be written into a log.
#[derive(Drop)]
pub(crate) struct Closed {
    _input: Option<File>,
    _output: Option<File>,
    _error: Option<File>,
}

/// Takes the place of the standard streams that are closed, each by a file that fails as a closed one
/// does: the input can't be read, and nothing can be written to the other two (gnulib's stdopen).
pub(crate) fn hold_closed<R: Files<File = File>>(rt: &R) -> Closed {
    let mut to_write = OpenOptions::new();
    to_write.write(true);
    let mut to_read = OpenOptions::new();
    to_read.read(true);
    Closed {
        _input: in_place_of(rt, &to_write, 0),
        _output: in_place_of(rt, &to_read, 1),
        _error: in_place_of(rt, &to_read, 2),
    }
}

/// The null device, where it is opened in the place of that stream: a file gets the lowest number that
/// is free.
fn in_place_of<R: Files<File = File>>(
    rt: &R,
    options: &OpenOptions,
    stream: RawFd,
) -> Option<File> {
    let file = options.open(rt, NULL).ok()?;
    (file.as_raw_fd() == stream).then_some(file)
}
