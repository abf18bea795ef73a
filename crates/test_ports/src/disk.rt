//! A disk in memory.
ghost use Rattle.std.specs.Prelude.{◌≡◌, ◌++◌, ◌∷◌, [], IfOk, OnOk, OnErr};
ghost use Rattle.mgr_port.specs.Disk.{Keeps, Syncs, last_steps, steps_to, unnamed_steps};
ghost use Rattle.test_ports.specs.Steps.{Does, StopsBefore, disk_step_of};

use mgr_port::Named;
use std::alloc::{AllocError, Global};
use std::io;
use std::io::ErrorKind;
use std::marker::Model;

/// A step that was made, and the bytes of a write.
#[derive(Drop)]
pub struct MadeStep {
    kind: StepKind,
    bytes: Vec<u8>,
}

#[derive(Clone, Copy)]
pub(crate) enum StepKind {
    Empty,
    Write,
    Sync,
    Keep,
    TakeName,
    SyncFolder,
}

impl Model for MadeStep {
    ghost use Rattle.mgr_port.specs.Disk.{DiskStep};
    ghost use Rattle.test_ports.specs.Steps.{disk_step_of};

    ghost Value = { DiskStep };

    ghost view = { λ made. disk_step_of made.kind made.bytes.items };
}

impl StepKind {
    fn word(self) -> &'static str {
        match self {
            StepKind::Empty => " empty",
            StepKind::Write => " write",
            StepKind::Sync => " sync",
            StepKind::Keep => " keep",
            StepKind::TakeName => " name",
            StepKind::SyncFolder => " folder",
        }
    }
}

/// Tells its steps, and fails one of them.
#[derive(Drop)]
pub struct MemoryDisk {
    alloc: Global,
    /// The steps so far.
    pub steps: Vec<MadeStep>,
    /// How many steps are made before one fails.
    pub left: usize,
}

impl MemoryDisk {
    /// A disk of which no step was made, and that makes so many.
    pub fn new(alloc: Global, left: usize) -> MemoryDisk {
        MemoryDisk {
            alloc,
            steps: Vec::new(alloc),
            left,
        }
    }

    /// Adds the steps so far to a line, as words.
    pub fn push_steps(&self, line: &mut String) -> Result<(), AllocError> {
        for step in &self.steps {
            line.push_str(step.kind.word())?;
        }
        Ok(())
    }

    /// Makes a step, or fails it.
    fn make(&mut self, kind: StepKind, bytes: &[u8]) -> io::Result<()>
        ensures { Does result (disk_step_of kind bytes.now)
            self.old.steps.items self.new.steps.items }
    {
        if self.left == 0 {
            return Err(io::Error::from(ErrorKind::Other));
        }
        self.left -= 1;
        match self.note(kind, bytes) {
            Ok(()) => Ok(()),
            Err(_) => Err(io::Error::from(ErrorKind::OutOfMemory)),
        }
    }

    /// Notes a step. `AllocError` alone.
    fn note(&mut self, kind: StepKind, bytes: &[u8]) -> Result<(), AllocError>
        ensures made { OnOk result (self.new.steps.items
            ≡ self.old.steps.items ++ disk_step_of kind bytes.now ∷ []) }
        ensures same { OnErr result (self.new.steps.items ≡ self.old.steps.items) }
    {
        let bytes = Vec::from_slice(self.alloc, bytes)?;
        self.steps.push(MadeStep { kind, bytes })?;
        Ok(())
    }
}

/// Makes these bytes the whole file under a name, whatever is beside, by the steps of a file beside.
/// Where a step before the last fails, the old file has the name.
#[tactic(auto, using(crate::proofs::LogLaws::stops_here, crate::proofs::LogLaws::stops_behind))]
pub(crate) fn put_whole(disk: &mut MemoryDisk, bytes: &[u8]) -> io::Result<Named>
    ensures named { IfOk result (λ named.
        disk.new.steps.items ≡ disk.old.steps.items ++ steps_to named bytes.now) }
    ensures unnamed { OnErr result
        (StopsBefore disk.old.steps.items disk.new.steps.items (unnamed_steps bytes.now)) }
{
    disk.make(StepKind::Empty, &[])?;
    disk.make(StepKind::Write, bytes)?;
    match name_written(disk) {
        Ok(named) => Ok(named),
        Err(error) => Err(error),
    }
}

/// The last of these steps.
#[tactic(auto, using(crate::proofs::LogLaws::stops_here, crate::proofs::LogLaws::stops_behind))]
fn name_written(disk: &mut MemoryDisk) -> io::Result<Named>
    ensures named { IfOk result (λ named.
        disk.new.steps.items ≡ disk.old.steps.items ++ last_steps named) }
    ensures unnamed { OnErr result
        (StopsBefore disk.old.steps.items disk.new.steps.items (Syncs ∷ Keeps ∷ [])) }
{
    disk.make(StepKind::Sync, &[])?;
    disk.make(StepKind::Keep, &[])?;
    disk.make(StepKind::TakeName, &[])?;
    match disk.make(StepKind::SyncFolder, &[]) {
        Ok(()) => Ok(Named::Settled),
        Err(error) => Ok(Named::Unsettled(error)),
    }
}
