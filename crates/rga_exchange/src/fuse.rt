//! Devices that fail from some call on.
use std::io::{Error, ErrorKind, Read, Result, Write};

/// A reader or a writer that passes so many reads or writes on to its device. Each later call fails
/// and leaves the device as it is: for trying what becomes of a program whose device fails at each
/// of its calls in turn.
#[derive(Drop)]
pub struct Fuse<T> {
    inner: T,
    left: u64,
}

impl<T> Fuse<T> {
    ghost use Rattle.std.specs.Prelude.{◌≡◌};

    /// The device, to which so many calls are passed on.
    pub fn new(inner: T, calls: u64) -> Self
        ensures inner { result.inner ≡ inner }
        ensures calls { result.left ≡ calls }
    {
        Fuse { inner, left: calls }
    }

    /// The device.
    pub fn into_inner(self) -> T
        ensures { result ≡ self.inner }
    {
        let Fuse { inner, left: _ } = self;
        inner
    }
}

impl<R: Read> Read for Fuse<R> {
    ghost use Rattle.std.specs.Prelude.{◌≡◌, ◌-◌, IsErr};
    ghost use Rattle.std.specs.Io.{ReadsAtMost};
    ghost use Rattle.std.specs.Io.KnownBytes.{ReadConsumes};

    ghost remaining = { λ f. R.remaining f.inner };

    fn read(&mut self, buf: &mut [u8]) -> Result<usize>
        ensures bound { ReadsAtMost result buf.new }
        ensures bytes { ReadConsumes (R.remaining self.old.inner) (R.remaining self.new.inner)
            result buf.new }
        ensures calls { self.new.left ≡ self.old.left - 1 }
        ensures spent { self.old.left ≡ 0 → IsErr result × (self.new.inner ≡ self.old.inner) }
    {
        if self.left == 0 {
            return Err(Error::from(ErrorKind::Other));
        }
        self.left -= 1;
        self.inner.read(buf)
    }
}

impl<W: Write> Write for Fuse<W> {
    ghost use Rattle.std.specs.Prelude.{◌≡◌, ◌-◌, IsErr};
    ghost use Rattle.std.specs.Io.{WritesAtMost};
    ghost use Rattle.std.specs.Io.KnownBytes.{WriteAppends, Keeps};

    ghost contents = { λ f. W.contents f.inner };

    fn write(&mut self, buf: &[u8]) -> Result<usize>
        ensures bound { WritesAtMost result buf.now }
        ensures bytes { WriteAppends (W.contents self.old.inner) (W.contents self.new.inner)
            result buf.now }
        ensures calls { self.new.left ≡ self.old.left - 1 }
        ensures spent { self.old.left ≡ 0 → IsErr result × (self.new.inner ≡ self.old.inner) }
    {
        if self.left == 0 {
            return Err(Error::from(ErrorKind::Other));
        }
        self.left -= 1;
        self.inner.write(buf)
    }

    /// A flush is passed on too while a call is left, and uses none up.
    fn flush(&mut self) -> Result<()>
        ensures bytes { Keeps (W.contents self.old.inner) (W.contents self.new.inner) }
        ensures calls { self.new.left ≡ self.old.left }
        ensures spent { self.old.left ≡ 0 → IsErr result × (self.new.inner ≡ self.old.inner) }
    {
        if self.left == 0 {
            return Err(Error::from(ErrorKind::Other));
        }
        self.inner.flush()
    }
}
