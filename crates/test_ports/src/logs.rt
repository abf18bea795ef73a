//! A log in memory that is written anew.
ghost use Rattle.std.specs.Prelude.{◌≡◌, [], false, Some, Err};
ghost use Rattle.mg_files.specs.Calls.{failures_after};
ghost use Rattle.mgr_port.specs.Logs.{Names, Gains, raised};
ghost use Rattle.test_ports.specs.Steps.{with_steps};

use crate::disk::{MemoryDisk, put_whole};
use mg_files::PortFault;
use mgr_port::{Logs, Named};
use rga_exchange::Counted;
use rga_ops::of_io;
use std::alloc::{AllocError, Global};
use std::io;
use std::io::{Cursor, ErrorKind, Read};

/// Holds one log, under the empty name, and tells the steps by which another takes its place, one of
/// which fails. It refuses every other name.
#[derive(Drop)]
pub struct MemoryLogs {
    alloc: Global,
    /// The log that stands there.
    pub log: Vec<u8>,
    /// The disk of the last file beside it.
    pub disk: MemoryDisk,
    /// Whether that file was removed.
    pub left: bool,
    /// What was refused of the log.
    pub refused: Vec<u8>,
    /// How many bytes there is room for of what is refused at once.
    pub room: usize,
    /// How many calls failed.
    pub failures: u64,
}

impl MemoryLogs {
    /// A log over a disk that makes so many steps. Nothing was refused of it, and there is room for
    /// all of it that is.
    pub fn new(alloc: Global, log: Vec<u8>, left: usize) -> MemoryLogs {
        MemoryLogs {
            alloc,
            log,
            disk: MemoryDisk::new(alloc, left),
            left: false,
            refused: Vec::new(alloc),
            room: usize::MAX,
            failures: 0,
        }
    }

    /// Adds the steps so far to a line, as words.
    pub fn push_steps(&self, line: &mut String) -> Result<(), AllocError> {
        self.disk.push_steps(line)?;
        line.push_str(if self.left { " leave" } else { "" })
    }
}

/// How many calls failed, with so many more.
fn failures_with(failures: u64, more: u64) -> u64
    ensures { result ≡ raised failures more }
{
    failures.saturating_add(more)
}

/// The fault of a step that failed, which is counted.
fn refused(failures: &mut u64, error: &io::Error) -> PortFault
    ensures { failures.new ≡ failures_after {A = Unit {0}} (Err result) failures.old }
{
    if let Some(memory) = of_io(error) {
        return PortFault::Memory(memory);
    }
    *failures = failures.saturating_add(1);
    PortFault::File
}

/// Gives the name of a log to the bytes beside it, by the steps of a disk that has made none.
fn take_place(
    disk: &mut MemoryDisk,
    log: &mut Vec<u8>,
    left: &mut bool,
    failures: &mut u64,
    next: Vec<u8>,
) -> Result<(), PortFault>
    requires { disk.old.steps.items ≡ [] }
    ensures named { Names result next.items (with_steps log.old.items [] false)
        (Some (with_steps log.new.items disk.new.steps.items left.new)) }
    ensures device { failures.new ≡ failures_after result failures.old }
{
    match put_whole(disk, &next) {
        Ok(named) => {
            *log = next;
            *left = false;
            match named {
                Named::Settled => Ok(()),
                Named::Unsettled(error) => Err(refused(failures, &error)),
            }
        }
        Err(error) => {
            *left = true;
            Err(refused(failures, &error))
        }
    }
}

/// Puts bytes behind others, as many as there is room for.
fn put_behind(
    kept: &mut Vec<u8>,
    bytes: &[u8],
    room: usize,
    failures: &mut u64,
) -> Result<(), PortFault>
    ensures gained { Gains result bytes.now (Some kept.old.items) (Some kept.new.items) }
    ensures device { failures.new ≡ failures_after result failures.old }
{
    if bytes.len() <= room {
        kept.extend_from_slice(bytes)?;
        return Ok(());
    }
    let (front, _) = bytes.split_at(room);
    kept.extend_from_slice(front)?;
    *failures = failures.saturating_add(1);
    Err(PortFault::File)
}

impl Logs for MemoryLogs {
    ghost use Rattle.std.specs.Prelude.{◌≡◌, IfSome};
    ghost use Rattle.std.specs.Option.{option_map};
    ghost use Rattle.mg_files.specs.Calls.{failures_after};
    ghost use Rattle.mgr_port.specs.Logs.{SameElsewhere, Names, Gains, left, raised};
    ghost use Rattle.test_ports.specs.Standings.{stands_in, refused_in};

    type Log = Cursor<Vec<u8>>;

    type Next = Vec<u8>;

    ghost standing = { λ logs. stands_in logs };

    ghost refused = { λ logs. refused_in logs };

    ghost failures = { λ logs. logs.failures };

    fn open_log(&mut self, name: &str) -> Result<Cursor<Vec<u8>>, PortFault> {
        if !name.is_empty() {
            self.failures = self.failures.saturating_add(1);
            return Err(PortFault::File);
        }
        Ok(Cursor::new(Vec::from_slice(self.alloc, &self.log)?))
    }

    /// What stands in memory is refused for memory alone.
    fn read_log(&mut self, log: &mut Cursor<Vec<u8>>) -> Result<Vec<u8>, PortFault> {
        let mut bytes = Vec::new(self.alloc);
        match log.read_to_end(&mut bytes) {
            Ok(_) => Ok(bytes),
            Err(_) => Err(PortFault::from(AllocError)),
        }
    }

    fn keep_refused(
        &mut self,
        name: &str,
        _log: &mut Cursor<Vec<u8>>,
        bytes: &[u8],
    ) -> Result<(), PortFault>
        ensures gained { Gains result bytes.now (refused_in self.old name.now)
            (refused_in self.new name.now) }
        ensures same { stands_in self.new ≡ stands_in self.old }
        ensures others { SameElsewhere name.now (refused_in self.old) (refused_in self.new) }
        ensures device { self.new.failures ≡ failures_after result self.old.failures }
    {
        if !name.is_empty() {
            self.failures = self.failures.saturating_add(1);
            return Err(PortFault::File);
        }
        put_behind(&mut self.refused, bytes, self.room, &mut self.failures)
    }

    fn make_next(&mut self, _name: &str, _log: &Cursor<Vec<u8>>) -> Result<Vec<u8>, PortFault> {
        Ok(Vec::new(self.alloc))
    }

    fn name_next(
        &mut self,
        name: &str,
        log: Counted<Cursor<Vec<u8>>>,
        next: Counted<Vec<u8>>,
    ) -> Result<(), PortFault>
        ensures named { IfSome (stands_in self.old name.now)
            (λ s. Names result next.inner.items s (stands_in self.new name.now)) }
        ensures others { SameElsewhere name.now (stands_in self.old) (stands_in self.new) }
        ensures kept { refused_in self.new ≡ refused_in self.old }
        ensures device { self.new.failures ≡ failures_after result
            (raised (raised self.old.failures log.failures) next.failures) }
    {
        self.failures = failures_with(self.failures, log.failures());
        self.failures = failures_with(self.failures, next.failures());
        if !name.is_empty() {
            self.failures = self.failures.saturating_add(1);
            return Err(PortFault::File);
        }
        self.disk.steps.clear();
        take_place(
            &mut self.disk,
            &mut self.log,
            &mut self.left,
            &mut self.failures,
            next.into_inner(),
        )
    }

    fn leave_next(&mut self, name: &str, log: Counted<Cursor<Vec<u8>>>, next: Counted<Vec<u8>>)
        ensures left { stands_in self.new name.now
            ≡ option_map left (stands_in self.old name.now) }
        ensures others { SameElsewhere name.now (stands_in self.old) (stands_in self.new) }
        ensures kept { refused_in self.new ≡ refused_in self.old }
        ensures device { self.new.failures
            ≡ raised (raised self.old.failures log.failures) next.failures }
    {
        self.failures = failures_with(self.failures, log.failures());
        self.failures = failures_with(self.failures, next.failures());
        if name.is_empty() {
            self.disk.steps.clear();
            self.left = true;
        }
    }
}
