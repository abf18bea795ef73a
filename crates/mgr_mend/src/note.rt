//! The log of a note, mended.
ghost use Rattle.std.specs.Prelude.{◌≡◌, ◌⊎◌, Some, IfOk, OnOk, OnErr, IfErr, IfSome};
ghost use Rattle.std.specs.Io.KnownBytes.{Appends};
ghost use Rattle.mg_files.specs.Calls.{failures_after};
ghost use Rattle.mgr_port.specs.Disk.{whole_steps};
ghost use Rattle.mgr_port.specs.Logs.{SameElsewhere, StaysSame, StopsEarly, renamed};
ghost use Rattle.mgr_mend.specs.CompactionEnds.{failures_after_compaction};
ghost use Rattle.mgr_mend.specs.Fitting.{all_left_out, all_refused, fitted};
ghost use Rattle.mgr_mend.specs.Ends.{MendsInPart, mended_standing};
ghost use Rattle.mgr_show.specs.Memory.{ShowMemory};

use crate::fitting::mend_for_note;
use crate::mended::{LeftOut, Mended};
use mg_files::PortFault;
use mgr_port::Logs;
use mgr_show::ShowFault;
use rga_exchange::Counted;
use std::alloc::Global;
use std::io::Write;

/// Mends the log of a note as `mend_for_note` does its bytes. What is refused is put behind what is
/// kept as refused of it; then the mended log is written beside it and gets its name. The old log is
/// kept. If nothing is left out, nothing is written.
///
/// Faults: `Read` if the log can't be had or read; `Write` if what is refused is not kept, if
/// nothing can be made beside the log, if the log is not as it was read, and if the mended log is
/// not given its name or that is not on the device; and `Memory`.
#[tactic(auto, using(mgr_port::proofs::LogsLaws::elsewhere))]
pub fn mend_note<L: Logs>(alloc: Global, logs: &mut L, name: &str) -> Result<LeftOut, ShowFault>
    ensures left_out { IfOk result (λ left_out. IfSome (L.standing logs.old name.now)
        (λ s. left_out ≡ all_left_out s.log)) }
    // All steps were made, if anything is left out.
    ensures mended { OnOk result (IfSome (L.standing logs.old name.now)
        (λ s. L.standing logs.new name.now ≡ Some (mended_standing (all_refused s.log) s))) }
    ensures gained { OnOk result (IfSome (L.standing logs.old name.now)
        (λ s. Appends (L.refused logs.old name.now) (L.refused logs.new name.now)
        (all_refused s.log))) }
    // Whatever fails, at least the last step is missing; and all if the log can't be read.
    ensures begun { OnErr result (IfSome (L.standing logs.old name.now)
        (λ s. MendsInPart (fitted s.log) (all_refused s.log) s (L.standing logs.new name.now)
        (L.refused logs.old name.now) (L.refused logs.new name.now))) }
    ensures untouched { IfErr result (λ e. e ≡ ShowFault.Read
        → (L.standing logs.new name.now ≡ L.standing logs.old name.now)
        × (L.refused logs.new ≡ L.refused logs.old)) }
    ensures fault { IfErr result (λ e. (e ≡ ShowFault.Read) ⊎ (e ≡ ShowFault.Write)
        ⊎ (e ≡ ShowMemory)) }
    ensures others { SameElsewhere name.now (L.standing logs.old) (L.standing logs.new) }
    ensures others_refused { SameElsewhere name.now (L.refused logs.old) (L.refused logs.new) }
    ensures device { L.failures logs.new
        ≡ failures_after_compaction result (L.failures logs.old) }
{
    let (log, bytes) = match open_whole(logs, name) {
        Ok(opened) => opened,
        Err(PortFault::File) => return Err(ShowFault::Read),
        Err(PortFault::Memory(memory)) => return Err(ShowFault::Memory(memory)),
    };
    let mended = match mend_for_note(alloc, bytes.as_slice()) {
        Ok(mended) => mended,
        Err(memory) => return Err(ShowFault::Memory(memory)),
    };
    if mended.refused.as_slice().is_empty() {
        return Ok(mended.left_out);
    }
    match put_mended(logs, name, log, &mended) {
        Ok(()) => Ok(mended.left_out),
        Err(PortFault::File) => Err(ShowFault::Write),
        Err(PortFault::Memory(memory)) => Err(ShowFault::Memory(memory)),
    }
}

/// The log of a name, open, and its bytes.
#[tactic(auto, using(mgr_port::proofs::LogsLaws::elsewhere, crate::proofs::NoteLaws::read_whole))]
fn open_whole<L: Logs>(logs: &mut L, name: &str) -> Result<(L::Log, Vec<u8>), PortFault>
    ensures bytes { IfOk result (λ opened. IfSome (L.standing logs.old name.now)
        (λ s. opened.1.items ≡ s.log)) }
    ensures same { L.standing logs.new name.now ≡ L.standing logs.old name.now }
    ensures others { SameElsewhere name.now (L.standing logs.old) (L.standing logs.new) }
    ensures kept { L.refused logs.new ≡ L.refused logs.old }
    ensures device { L.failures logs.new ≡ failures_after result (L.failures logs.old) }
{
    let mut log = match logs.open_log(name) {
        Ok(log) => log,
        Err(fault) => return Err(fault),
    };
    match logs.read_log(&mut log) {
        Ok(bytes) => Ok((log, bytes)),
        Err(fault) => Err(fault),
    }
}

/// Keeps what is refused of a log, and then puts the mended one in its place.
#[tactic(auto, using(mgr_port::proofs::LogsLaws::elsewhere))]
fn put_mended<L: Logs>(
    logs: &mut L,
    name: &str,
    mut log: L::Log,
    mended: &Mended,
) -> Result<(), PortFault>
    ensures named { OnOk result (IfSome (L.standing logs.old name.now)
        (λ _. L.standing logs.new name.now
        ≡ Some (renamed whole_steps mended.now.log.items))) }
    ensures gained { OnOk result (Appends (L.refused logs.old name.now)
        (L.refused logs.new name.now) mended.now.refused.items) }
    ensures begun { OnErr result (IfSome (L.standing logs.old name.now)
        (λ s. MendsInPart mended.now.log.items mended.now.refused.items s
        (L.standing logs.new name.now) (L.refused logs.old name.now)
        (L.refused logs.new name.now))) }
    ensures others { SameElsewhere name.now (L.standing logs.old) (L.standing logs.new) }
    ensures others_refused { SameElsewhere name.now (L.refused logs.old) (L.refused logs.new) }
    ensures device { L.failures logs.new ≡ failures_after result (L.failures logs.old) }
{
    match logs.keep_refused(name, &mut log, mended.refused.as_slice()) {
        Ok(()) => write_anew(logs, name, log, mended.log.as_slice()),
        Err(fault) => Err(fault),
    }
}

/// Writes bytes beside a log, and gives that its name.
#[tactic(auto, using(mgr_port::proofs::LogsLaws::elsewhere, crate::proofs::NoteLaws::raised_by))]
fn write_anew<L: Logs>(logs: &mut L, name: &str, log: L::Log, bytes: &[u8]) -> Result<(), PortFault>
    ensures named { OnOk result (IfSome (L.standing logs.old name.now)
        (λ _. L.standing logs.new name.now ≡ Some (renamed whole_steps bytes.now))) }
    ensures begun { OnErr result (IfSome (L.standing logs.old name.now)
        (λ s. StaysSame s (L.standing logs.new name.now)
        ⊎ StopsEarly bytes.now s (L.standing logs.new name.now))) }
    ensures others { SameElsewhere name.now (L.standing logs.old) (L.standing logs.new) }
    ensures kept { L.refused logs.new ≡ L.refused logs.old }
    ensures device { L.failures logs.new ≡ failures_after result (L.failures logs.old) }
{
    let next = match logs.make_next(name, &log) {
        Ok(next) => next,
        Err(fault) => return Err(fault),
    };
    let reader = Counted::new(log);
    let mut writer = Counted::new(next);
    match writer.write_all(bytes) {
        Ok(()) => logs.name_next(name, reader, writer),
        Err(_) => {
            logs.leave_next(name, reader, writer);
            Err(PortFault::File)
        }
    }
}
