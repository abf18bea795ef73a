//! Which file a name stands for, and whether it is as it was left.
ghost use Rattle.std.specs.Prelude.{◌≡◌, ◌⊎◌, ◌↔◌, true, pos, ◌+ℤ◌, ◌<ℤ◌, ◌≤ℤ◌};
ghost use Rattle.mgr_port.specs.Verdicts.{AreOfOneFile, IsDatedBy, IsLater, WasGiven};

use crate::spare::Look;

/// By how many nanoseconds this port dates a text later than its log: the finest step of the file
/// systems that keep parts of seconds.
pub(crate) const LATER: u64 = 100;

/// From so many nanoseconds on a tick later is in the next second.
const LAST_TICK: i64 = 999_999_900;

/// A file as it was when it was last read or written.
#[derive(Clone, Copy, PartialEq, Eq)]
pub struct Stamp {
    pub(crate) device: u64,
    pub(crate) inode: u64,
    pub(crate) length: u64,
    pub(crate) changed: Time,
}

/// Seconds and nanoseconds.
#[derive(Clone, Copy, PartialEq, Eq)]
pub struct Time {
    pub(crate) seconds: i64,
    pub(crate) nanos: i64,
}

impl Stamp {
    /// Whether both are of one file, whatever stands in it.
    pub(crate) fn is_of_the_file(&self, other: &Stamp) -> bool
        ensures { (result ≡ true) ↔ AreOfOneFile self.now other.now }
    {
        self.device == other.device && self.inode == other.inode
    }
}

/// Whether a text was dated by a log: by this port, or by a script that gave it the log's time
/// (`touch -r`). A checkout that writes both within a tick of the clock gives them one time too. But
/// what is dated was changed later than its date says, and whole seconds are no sign: archives give
/// them to many files.
pub(crate) fn is_dated_by(text: Look, log: Time) -> bool
    ensures { result ≡ true → IsDatedBy text log }
{
    is_dated(text.stamp.changed, text.touched, log, log.later())
}

/// The same, by when the text was changed, when anything of its file was, its date too, when the log
/// was changed, and by when this port dates a text of that log.
fn is_dated(changed: Time, touched: Time, log: Time, put: Time) -> bool
    ensures { (result ≡ true) ↔ ((changed ≡ put) ⊎ WasGiven changed touched log) }
{
    if changed == put {
        return true;
    }
    if changed != log {
        return false;
    }
    if changed.nanos == 0 {
        return false;
    }
    touched != changed
}

impl Time {
    /// Later by what this port dates a text later.
    fn later(self) -> Time
        ensures tick { IsLater self result }
        ensures second { pos 999999900 ≤ℤ self.nanos
            → self.seconds <ℤ pos 9223372036854775807
            → result.seconds ≡ self.seconds +ℤ pos 1 }
    {
        if self.nanos < LAST_TICK {
            return Time {
                nanos: self.nanos + 100,
                ..self
            };
        }
        Time {
            seconds: self.seconds.saturating_add(1),
            nanos: self.nanos - LAST_TICK,
        }
    }
}
