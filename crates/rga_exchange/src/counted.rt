//! Devices whose failed calls are counted.
use std::io::{Error, ErrorKind, Read, Result, Write};
use std::marker::Model;

/// The most calls that are passed on to a device.
pub const MAX_CALLS: u64 = 1099511627776;

/// A reader or a writer whose failed calls are counted, and whose calls come to an end.
///
/// A call that the device fails adds one to the failures, an interrupted one too, and so does a
/// write of some bytes that takes none of them. At most `MAX_CALLS` calls in all are passed on; a
/// further one is not made and counts as failed, so that each loop over a device ends. At the
/// greatest `u64` of failures no call is made any more, and each fails.
///
/// It also keeps whether the last read that was answered found the end of the input, and whether
/// all that was written was flushed behind it.
#[derive(Drop)]
pub struct Counted<T> {
    inner: T,
    left: u64,
    failures: u64,
    at_end: bool,
    flushed: bool,
}

impl<T> Model for Counted<T> {
    ghost use Rattle.std.specs.Prelude.{◌≤◌};
    ghost use Rattle.rga_exchange.specs.Counting.{Calls, calls_code};
    ghost use Rattle.rga_exchange.specs.declared.counted.TheConstants.{MAX_CALLS};

    ghost Value = { Calls T };

    ghost coded = { calls_code T.code };

    ghost view = { λ c. record {
      inner = c.inner;
      failures = c.failures;
      left = c.left;
      at_end = c.at_end;
      flushed = c.flushed;
    } };

    ghost invariant = { λ c. c.left ≤ MAX_CALLS };
}

impl<T> Counted<T> {
    ghost use Rattle.std.specs.Prelude.{◌≡◌, ◌+◌, ◌≤◌, true, false};
    ghost use Rattle.std.specs.Bool.{MatchBool};
    ghost use Rattle.rga_exchange.specs.Counting.{one_more, IsSpent};
    ghost use Rattle.rga_exchange.specs.declared.counted.TheConstants.{MAX_CALLS};

    /// The device, with no failure yet, no end found, nothing to flush and all calls left.
    pub fn new(inner: T) -> Self
        ensures { result ≡ record {
          inner = inner;
          failures = 0;
          left = MAX_CALLS;
          at_end = false;
          flushed = true;
        } }
    {
        Counted {
            inner,
            left: MAX_CALLS,
            failures: 0,
            at_end: false,
            flushed: true,
        }
    }

    /// The device.
    pub fn into_inner(self) -> T
        ensures { result ≡ self.inner }
    {
        let Counted {
            inner,
            left: _,
            failures: _,
            at_end: _,
            flushed: _,
        } = self;
        inner
    }

    /// How many calls failed.
    pub fn failures(&self) -> u64
        ensures value { result ≡ self.now.failures }
        ensures bounded { self.now.left ≤ MAX_CALLS }
    {
        self.failures
    }

    /// Whether a call may be passed on, which then is one of those that are left.
    fn take_call(&mut self) -> bool
        ensures taken { MatchBool result (self.old ≡ record self.new { left = self.new.left + 1 })
            (self.new ≡ self.old) }
        ensures bounded { self.old.left ≤ MAX_CALLS }
        ensures spent { MatchBool result (¬ (IsSpent self.old)) (IsSpent self.old) }
    {
        if self.left == 0 || self.failures == u64::MAX {
            return false;
        }
        self.left -= 1;
        true
    }

    /// Counts a failure.
    fn fail(&mut self)
        ensures { self.new ≡ record self.old { failures = one_more self.old.failures } }
    {
        self.failures = self.failures.saturating_add(1);
    }
}

impl<R: Read> Read for Counted<R> {
    ghost use Rattle.std.specs.Prelude.{◌≡◌, IsErr};
    ghost use Rattle.std.specs.Io.{ReadsAtMost};
    ghost use Rattle.std.specs.Io.KnownBytes.{ReadConsumes};
    ghost use Rattle.rga_exchange.specs.Counting.{Counts, TellsEnd, UsesCall, IsSpent};

    ghost remaining = { λ c. R.remaining c.inner };

    fn read(&mut self, buf: &mut [u8]) -> Result<usize>
        ensures bound { ReadsAtMost result buf.new }
        ensures bytes { ReadConsumes (R.remaining self.old.inner) (R.remaining self.new.inner)
            result buf.new }
        ensures end { TellsEnd result buf.new self.old self.new }
        ensures device { Counts result self.old self.new }
        ensures calls { UsesCall result self.old self.new }
        ensures spent { IsSpent self.old → IsErr result × (self.new.inner ≡ self.old.inner) }
    {
        if !self.take_call() {
            self.fail();
            return Err(Error::from(ErrorKind::Other));
        }
        match self.inner.read(buf) {
            Ok(n) => {
                self.at_end = n == 0 && !buf.is_empty();
                Ok(n)
            }
            Err(e) => {
                self.fail();
                Err(e)
            }
        }
    }
}

impl<W: Write> Write for Counted<W> {
    ghost use Rattle.std.specs.Prelude.{◌≡◌, ◌≤◌, IsErr, OnOk};
    ghost use Rattle.std.specs.Io.{WritesAtMost};
    ghost use Rattle.std.specs.Io.KnownBytes.{WriteAppends};
    ghost use Rattle.rga_exchange.specs.Counting.{Counts, WriteCounts, UsesCall, IsSpent, Unsettles, Settles, Writes, WritesFront, WritesNothing};

    ghost contents = { λ c. W.contents c.inner };

    fn write(&mut self, buf: &[u8]) -> Result<usize>
        ensures bound { WritesAtMost result buf.now }
        ensures bytes { WriteAppends (W.contents self.old.inner) (W.contents self.new.inner)
            result buf.now }
        ensures device { WriteCounts result buf.now self.old self.new }
        ensures flushed { Unsettles self.old self.new }
        ensures calls { UsesCall result self.old self.new }
        ensures spent { IsSpent self.old → IsErr result × (self.new.inner ≡ self.old.inner) }
    {
        if !self.take_call() {
            self.fail();
            return Err(Error::from(ErrorKind::Other));
        }
        self.flushed = false;
        match self.inner.write(buf) {
            Ok(n) => {
                if n == 0 && !buf.is_empty() {
                    self.fail();
                }
                Ok(n)
            }
            Err(e) => {
                self.fail();
                Err(e)
            }
        }
    }

    fn flush(&mut self) -> Result<()>
        ensures bytes { WritesNothing W.contents self.old self.new }
        ensures device { Counts result self.old self.new }
        ensures flushed { Settles result self.old self.new }
        ensures calls { UsesCall result self.old self.new }
        ensures spent { IsSpent self.old → IsErr result × (self.new.inner ≡ self.old.inner) }
    {
        if !self.take_call() {
            self.fail();
            return Err(Error::from(ErrorKind::Other));
        }
        match self.inner.flush() {
            Ok(()) => {
                self.flushed = true;
                Ok(())
            }
            Err(e) => {
                self.fail();
                Err(e)
            }
        }
    }

    /// Writes all of it, or answers the first failure: nothing is tried again, an interrupted call
    /// neither.
    fn write_all(&mut self, buf: &[u8]) -> Result<()>
        ensures bytes { OnOk result (Writes W.contents self.old self.new buf.now) }
        ensures begun { WritesFront W.contents self.old self.new buf.now }
        ensures device { Counts result self.old self.new }
        ensures calls { self.new.left ≤ self.old.left }
    {
        let mut rest = buf;
        'rest: while !rest.is_empty() {
            let n = self.write(rest)?;
            if n == 0 {
                return Err(Error::from(ErrorKind::WriteZero));
            }
            let (_, after) = rest.split_at(n);
            rest = after;
        }
        Ok(())
    }
}
