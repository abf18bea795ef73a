//! What is written to a log.
ghost use Rattle.std.specs.Prelude.{◌≡◌, Err, IfOk, OnOk};
ghost use Rattle.rga_exchange.specs.Counting.{CountsAs, Writes, WritesFront, WritesNothing};
ghost use Rattle.rga_exchange.specs.RunLines.{runs_text};
ghost use Rattle.mg_files.specs.Saving.{appended_text};
ghost use Rattle.rga_exchange.specs.Memory.{SendMemory as Memory};

use rga_exchange::{Counted, SendFault, append_log, append_runs};
use rga_ops::{Op, OutOfMemory};
use std::alloc::Global;
use std::io::Write;
use std::marker::Model;

/// The most operations that a save always appends a line each: where the lines are few, each stands
/// by itself.
pub const MAX_SINGLE: usize = 32;

/// Operations on their way to a log, as lines, each with its newline. The lines are made where they
/// are written. To its callers it is their bytes.
#[derive(Drop)]
pub struct LogLines<'a> {
    alloc: Global,
    runs: bool,
    ops: &'a [Op],
}

impl<'a> Model for LogLines<'a> {
    ghost use Rattle.std.specs.Prelude.{ℕ, List};
    ghost use Rattle.mg_files.specs.Saving.{appended_text};

    ghost Value = { List ℕ };

    ghost view = { λ lines. appended_text lines.runs lines.ops.now };
}

impl<'a> LogLines<'a> {
    /// Those of operations: of more than `MAX_SINGLE`, where runs are asked for, those in a row that
    /// are a run in one. Takes no memory.
    pub(crate) fn new(alloc: Global, runs: bool, ops: &'a [Op]) -> LogLines<'a>
        ensures { result ≡ appended_text runs ops.now }
    {
        LogLines { alloc, runs, ops }
    }

    /// Writes the lines, where each stands by itself in blocks of some 64 KiB. `Memory` comes before
    /// anything is written, and `Write` exactly where a call of the device failed.
    pub fn write_to<W: Write>(&self, writer: &mut Counted<W>) -> Result<(), SendFault>
        ensures written { OnOk result (Writes W.contents writer.old writer.new self.now) }
        ensures begun { WritesFront W.contents writer.old writer.new self.now }
        ensures memory { result ≡ Err Memory → WritesNothing W.contents writer.old writer.new }
        ensures device { CountsAs SendFault.Write result writer.old writer.new }
    {
        if self.runs && self.ops.len() > MAX_SINGLE {
            return write_runs(self.alloc, self.ops, writer);
        }
        match append_log(self.alloc, self.ops, writer) {
            Ok(_) => Ok(()),
            Err(fault) => Err(fault),
        }
    }

    /// The lines in memory. Out of memory is the only fault.
    pub fn to_vec(&self) -> Result<Vec<u8>, OutOfMemory>
        ensures ok { IfOk result (λ bytes. bytes.items ≡ self.now) }
    {
        let mut writer = Counted::new(Vec::new(self.alloc));
        match self.write_to(&mut writer) {
            Ok(()) => Ok(writer.into_inner()),
            Err(fault) => Err(fault.in_memory()),
        }
    }
}

/// Writes the lines of operations in runs, once all are made.
fn write_runs<W: Write>(alloc: Global, ops: &[Op], writer: &mut Counted<W>) -> Result<(), SendFault>
    ensures written { OnOk result (Writes W.contents writer.old writer.new (runs_text ops.now)) }
    ensures begun { WritesFront W.contents writer.old writer.new (runs_text ops.now) }
    ensures memory { result ≡ Err Memory → WritesNothing W.contents writer.old writer.new }
    ensures device { CountsAs SendFault.Write result writer.old writer.new }
{
    let mut lines = Counted::new(Vec::new(alloc));
    if let Err(fault) = append_runs(alloc, ops, &mut lines) {
        return Err(SendFault::Memory(fault.in_memory()));
    }
    writer.write_all(&lines.into_inner())?;
    Ok(())
}
