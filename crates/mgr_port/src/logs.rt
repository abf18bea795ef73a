//! Logs that are written anew.
ghost use Rattle.std.specs.Prelude.{◌≡◌, ℕ, List, [], Option, Some, IfOk, IfSome};
ghost use Rattle.std.specs.Option.{option_map};
ghost use Rattle.mg_files.specs.Calls.{failures_after};
ghost use Rattle.mgr_port.specs.Logs.{Standing, SameElsewhere, Names, Gains, left, raised};

use mg_files::PortFault;
use rga_exchange::Counted;
use std::io::{Read, Write};

/// Logs by the names of their notes, each of which can be written anew. They may tell what stands
/// under a name, with the steps by which it got there (`DiskStep`), and what was refused of that log.
/// `Memory` counts for no failure, as of a port.
pub trait Logs {
    /// A log that is read.
    type Log: Read + Drop;

    /// A file beside it, which is to take its name.
    type Next: Write + Drop;

    /// What stands under a name, where it is told.
    ghost standing: { Self → List ℕ → Option Standing };

    /// What is kept as refused of the log of a name, where it is told: no bytes, if there is no such
    /// file.
    ghost refused: { Self → List ℕ → Option (List ℕ) };

    /// How many calls failed, those of the logs and files that were given back too.
    ghost failures: { Self → ℕ };

    /// Opens the log of a name. Nobody else has it as long as it is open; `File` where somebody has,
    /// and where there is no log.
    fn open_log(&mut self, name: &str) -> Result<Self::Log, PortFault>
        ensures log { IfOk result (λ log. IfSome (standing self.old name.now)
            (λ s. Self.Log.remaining log ≡ Some s.log)) }
        ensures same { standing self.new name.now ≡ standing self.old name.now }
        ensures others { SameElsewhere name.now (standing self.old) (standing self.new) }
        ensures kept { refused self.new ≡ refused self.old }
        ensures device { failures self.new ≡ failures_after result (failures self.old) };

    /// Reads a log to its end.
    fn read_log(&mut self, log: &mut Self::Log) -> Result<Vec<u8>, PortFault>
        ensures bytes { IfOk result (λ bytes. IfSome (Self.Log.remaining log.old)
            (λ all. bytes.items ≡ all)) }
        ensures same { standing self.new ≡ standing self.old }
        ensures kept { refused self.new ≡ refused self.old }
        ensures device { failures self.new ≡ failures_after result (failures self.old) };

    /// Puts bytes behind what is kept as refused of a log, and waits until they are on the device.
    /// `File` too if that is no plain file. If it fails, a beginning of the bytes may be there.
    /// The log remembers that what takes its place will not say the same.
    fn keep_refused(
        &mut self,
        name: &str,
        log: &mut Self::Log,
        bytes: &[u8],
    ) -> Result<(), PortFault>
        ensures gained { Gains result bytes.now (refused self.old name.now)
            (refused self.new name.now) }
        ensures same { standing self.new ≡ standing self.old }
        ensures others { SameElsewhere name.now (refused self.old) (refused self.new) }
        ensures device { failures self.new ≡ failures_after result (failures self.old) };

    /// Makes an empty file beside a log.
    fn make_next(&mut self, name: &str, log: &Self::Log) -> Result<Self::Next, PortFault>
        ensures empty { IfOk result (λ next. IfSome (standing self.old name.now)
            (λ _. Self.Next.contents next ≡ Some [])) }
        ensures same { standing self.new name.now ≡ standing self.old name.now }
        ensures others { SameElsewhere name.now (standing self.old) (standing self.new) }
        ensures kept { refused self.new ≡ refused self.old }
        ensures device { failures self.new ≡ failures_after result (failures self.old) };

    /// Gives the file beside the name of the log, which is kept: as `put_whole` does with all that was
    /// written to it. `File` too where the log is not as it was read. Where it fails, there is no file
    /// beside any more, or it has the name and only that may not be on the device.
    fn name_next(
        &mut self,
        name: &str,
        log: Counted<Self::Log>,
        next: Counted<Self::Next>,
    ) -> Result<(), PortFault>
        ensures named { IfSome (standing self.old name.now) (λ s.
            IfSome (Self.Next.contents next.inner) (λ bytes.
            Names result bytes s (standing self.new name.now))) }
        ensures others { SameElsewhere name.now (standing self.old) (standing self.new) }
        ensures kept { refused self.new ≡ refused self.old }
        ensures device { failures self.new ≡ failures_after result
            (raised (raised (failures self.old) log.failures) next.failures) };

    /// Removes the file beside, which gets no name.
    fn leave_next(&mut self, name: &str, log: Counted<Self::Log>, next: Counted<Self::Next>)
        ensures left { standing self.new name.now
            ≡ option_map left (standing self.old name.now) }
        ensures others { SameElsewhere name.now (standing self.old) (standing self.new) }
        ensures kept { refused self.new ≡ refused self.old }
        ensures device { failures self.new
            ≡ raised (raised (failures self.old) log.failures) next.failures };
}
