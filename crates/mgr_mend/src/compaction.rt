//! The log of a note, written anew.
ghost use Rattle.std.specs.Prelude.{◌≡◌, ◌≢◌, ◌⊎◌, Some, Err, IfSome, OnOk, OnErr, IfErr};
ghost use Rattle.rga_store.specs.declared.text_store.TheConstants.{MAX_LIMIT};
ghost use Rattle.mgr_show.specs.Log.{log_of};
ghost use Rattle.mgr_show.specs.Shown.{IsOfInput};
ghost use Rattle.mgr_show.specs.Memory.{ShowMemory as Memory};
ghost use Rattle.mgr_port.specs.Disk.{whole_steps};
ghost use Rattle.mgr_port.specs.Logs.{SameElsewhere, StaysSame, StopsEarly, left, raised, renamed};
ghost use Rattle.mgr_mend.specs.CompactionEnds.{EndsWell, EndsEarly, failures_after_compaction};
ghost use Rattle.mgr_show.specs.Memory.{ShowMemory};

use mg_files::PortFault;
use mgr_port::Logs;
use mgr_show::{ShowFault, compact_log};
use rga_exchange::Counted;
use std::alloc::Global;

/// Writes the log of a note anew, in as few lines as runs allow, beside it, and then gives that its
/// name. With `dels` deletions too are written in runs. The old log is kept.
///
/// Faults of the log as of `compact_log`; `Read` too where it can't be had; `Write` too where nothing
/// can be made beside it, where it is not as it was read, and where it is not given its name or that
/// is not on the device; and `Memory`.
#[tactic(auto, using(mgr_port::proofs::LogsLaws::elsewhere))]
pub fn compact_note<L: Logs>(
    alloc: Global,
    logs: &mut L,
    name: &str,
    dels: bool,
) -> Result<(), ShowFault>
    // All steps were made, and the new log stands there, for the content of the old one.
    ensures compacted { OnOk result (IfSome (L.standing logs.old name.now)
        (λ s. EndsWell dels s (L.standing logs.new name.now))) }
    ensures refused { IfErr result (λ e. IsOfInput e → IfSome (L.standing logs.old name.now)
        (λ s. (log_of MAX_LIMIT s.log ≡ Err e)
        × (L.standing logs.new name.now ≡ Some (left s)))) }
    // Whatever fails, at least the last step is missing; and all where the log can't be read.
    ensures begun { OnErr result (IfSome (L.standing logs.old name.now)
        (λ s. EndsEarly dels s (L.standing logs.new name.now))) }
    ensures untouched { IfErr result (λ e. e ≢ ShowFault.Write → e ≢ ShowMemory
        → IfSome (L.standing logs.old name.now)
        (λ s. StaysSame s (L.standing logs.new name.now))) }
    ensures others { SameElsewhere name.now (L.standing logs.old) (L.standing logs.new) }
    ensures device { L.failures logs.new
        ≡ failures_after_compaction result (L.failures logs.old) }
{
    let log = match logs.open_log(name) {
        Ok(log) => log,
        Err(PortFault::File) => return Err(ShowFault::Read),
        Err(PortFault::Memory(memory)) => return Err(ShowFault::Memory(memory)),
    };
    let next = match logs.make_next(name, &log) {
        Ok(next) => next,
        Err(PortFault::File) => return Err(ShowFault::Write),
        Err(PortFault::Memory(memory)) => return Err(ShowFault::Memory(memory)),
    };
    let mut reader = Counted::new(log);
    let mut writer = Counted::new(next);
    let answer = compact_log(alloc, dels, &mut reader, &mut writer);
    match answer {
        Ok(()) => give_name(logs, name, reader, writer),
        Err(fault) => {
            logs.leave_next(name, reader, writer);
            Err(fault)
        }
    }
}

/// Gives what was written beside a log its name.
fn give_name<L: Logs>(
    logs: &mut L,
    name: &str,
    log: Counted<L::Log>,
    next: Counted<L::Next>,
) -> Result<(), ShowFault>
    ensures named { OnOk result (IfSome (L.standing logs.old name.now) (λ s.
        IfSome (L.Next.contents next.inner) (λ bytes.
        L.standing logs.new name.now ≡ Some (renamed whole_steps bytes)))) }
    ensures begun { OnErr result (IfSome (L.standing logs.old name.now) (λ s.
        IfSome (L.Next.contents next.inner) (λ bytes.
        StopsEarly bytes s (L.standing logs.new name.now)))) }
    ensures others { SameElsewhere name.now (L.standing logs.old) (L.standing logs.new) }
    ensures fault { IfErr result (λ e. (e ≡ ShowFault.Write) ⊎ (e ≡ Memory)) }
    ensures device { L.failures logs.new ≡ failures_after_compaction result
        (raised (raised (L.failures logs.old) log.failures) next.failures) }
{
    match logs.name_next(name, log, next) {
        Ok(()) => Ok(()),
        Err(PortFault::File) => Err(ShowFault::Write),
        Err(PortFault::Memory(memory)) => Err(ShowFault::Memory(memory)),
    }
}
