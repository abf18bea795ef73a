//! How logs are merged into a note.
ghost use Rattle.std.specs.Prelude.{◌≡◌, ◌≢◌, ◌⊎◌, Err, MatchBool, map, string_bytes, IfOk, IfErr, OnOk, OnErr};
ghost use Rattle.mgr_show.specs.Joined.{OnLogs};
ghost use Rattle.mgr_mend.specs.Merging.{BeginsInto, BeginsToPut, BeginsToWrite, FindsNoNote, OnlyLoads, RefusesLogs};
ghost use Rattle.mgr_mend.specs.Merging.{IfStays, IsOfFinding, IsOfLogs, IsOfMerging, IsOfNote};
ghost use Rattle.mgr_mend.specs.Merging.{GoesOn, LeavesAll, LeavesText, Merges, MergesInto, PutsNote, Stays};
ghost use Rattle.mgr_mend.specs.Merging.{calls_failed, reads_failed, taking_outcome};
ghost use Rattle.mgr_mend.specs.Memory.{MergeMemory};

use crate::fault::MergeFault;
use crate::loading::{Beside, load_note};
use crate::merged::{Merged, Torn};
use crate::taking::take_logs;
use crate::text::{Owner, owner_of};
use crate::writing::write_note;
use mg_buffer::VisitedBuffer;
use mg_files::Port;
use mgr_show::Sources;
use rga_store::TextStore;
use std::alloc::Global;

/// Takes the operations of the logs of the names into a note, and writes it: what is new is
/// appended to its log, and its text is put, also where nothing is new. A last line of a log that
/// was cut off is left out, and told. There may be no logs: then the text is put.
///
/// A text that stands there is kept by the port where it knows it not as its own. But the text of
/// one of the logs is put first as it stands, so that nothing of it is kept; and where nothing is
/// new, one that another program changed stays: `TextStays`.
///
/// Faults, after which nothing is written: `NoLog` where there is a text and no log; `Load` with
/// that of the note; then, for each log in turn, `Log` if it can't be read; `Apart`, unless the
/// logs are to be adopted; `Log` with its first fault; `Far`; then `TextStays`, with the last lines
/// that were left out. `File` and `Memory`.
pub fn merge_logs<S: TextStore, P: Port, F: Sources>(
    alloc: Global,
    port: &mut P,
    sources: &mut F,
    name: &str,
    logs: &[String],
    adopt: bool,
) -> Result<Merged, MergeFault>
    ensures merged { IfOk result (λ m. OnLogs (F.contents sources.old) (map string_bytes logs.now)
        (λ logs. Merges (P.calls port.old) (P.calls port.new) name.now adopt logs
        m.new m.torn.items)) }

    ensures not_loaded { IfErr result (λ e. IsOfNote e
        → FindsNoNote (P.calls port.old) (P.calls port.new) name.now e) }
    ensures refused { IfErr result (λ e. IsOfLogs e
        → OnLogs (F.contents sources.old) (map string_bytes logs.now)
        (λ logs. RefusesLogs (P.calls port.old) (P.calls port.new) name.now adopt logs e)) }
    ensures text_stays { IfErr result (λ e. IfStays e (λ torn. OnLogs (F.contents sources.old)
        (map string_bytes logs.now)
        (λ logs. LeavesText (P.calls port.old) (P.calls port.new) name.now adopt logs torn))) }
    ensures unwritten { IfErr result (λ e. e ≢ MergeFault.File → e ≢ MergeMemory
        → OnlyLoads (P.calls port.old) (P.calls port.new) name.now) }
    // Whatever fails, nothing is written, or a beginning of what is to be.
    ensures begun { OnErr result (OnlyLoads (P.calls port.old) (P.calls port.new) name.now
        ⊎ OnLogs (F.contents sources.old) (map string_bytes logs.now)
        (λ logs. BeginsToWrite (P.calls port.old) (P.calls port.new) name.now adopt logs)) }

    ensures calls { P.failures port.new ≡ calls_failed result (P.failures port.old) }
    ensures reads { F.failures sources.new ≡ reads_failed result (F.failures sources.old) }
{
    let (mut opened, beside) = load_note::<S, P>(alloc, port, name)?;
    merge_loaded(alloc, port, sources, logs, adopt, &beside, &mut opened)
}

/// Takes the operations of the logs of the names into what was loaded, and writes it.
fn merge_loaded<S: TextStore, P: Port, F: Sources>(
    alloc: Global,
    port: &mut P,
    sources: &mut F,
    logs: &[String],
    adopt: bool,
    beside: &Beside,
    opened: &mut VisitedBuffer<S>,
) -> Result<Merged, MergeFault>
    ensures merged { IfOk result (λ m. OnLogs (F.contents sources.old) (map string_bytes logs.now)
        (λ logs. MergesInto (P.calls port.old) (P.calls port.new) opened.old beside.now adopt logs
        m.new m.torn.items)) }
    ensures loaded { IfErr result (λ e. ¬ (IsOfNote e)) }
    ensures refused { IfErr result (λ e. IsOfLogs e
        → (P.calls port.new ≡ P.calls port.old) × OnLogs (F.contents sources.old)
        (map string_bytes logs.now) (λ logs. taking_outcome opened.old adopt logs ≡ Err e)) }
    ensures text_stays { IfErr result (λ e. IfStays e (λ torn.
        (P.calls port.new ≡ P.calls port.old) × OnLogs (F.contents sources.old)
        (map string_bytes logs.now) (λ logs. LeavesAll opened.old beside.now adopt logs torn))) }
    ensures unwritten { IfErr result (λ e. e ≢ MergeFault.File → e ≢ MergeMemory
        → P.calls port.new ≡ P.calls port.old) }
    ensures begun { OnErr result ((P.calls port.new ≡ P.calls port.old)
        ⊎ OnLogs (F.contents sources.old) (map string_bytes logs.now)
        (λ logs. BeginsInto (P.calls port.old) (P.calls port.new) opened.old beside.now adopt
        logs)) }
    ensures calls { P.failures port.new ≡ calls_failed result (P.failures port.old) }
    ensures reads { F.failures sources.new ≡ reads_failed result (F.failures sources.old) }
{
    let (torn, owner) = merge_into(alloc, sources, logs, adopt, beside, opened)?;
    let new = opened.buffer.unsaved().len();
    write_note(alloc, port, owner, beside, opened)?;
    Ok(Merged { new, torn })
}

/// Takes the operations of the logs of the names into what was loaded, where the text beside it
/// lets them in. Answers which logs had a last line that was cut off, and whose the text is.
fn merge_into<S: TextStore, F: Sources>(
    alloc: Global,
    sources: &mut F,
    logs: &[String],
    adopt: bool,
    beside: &Beside,
    opened: &mut VisitedBuffer<S>,
) -> Result<(Vec<Torn>, Owner), MergeFault>
    ensures taken { IfOk result (λ p. OnLogs (F.contents sources.old) (map string_bytes logs.now)
        (λ logs. GoesOn opened.old beside.now adopt logs opened.new p.0.items p.1)) }
    ensures refused { IfErr result (λ e. IsOfLogs e
        → OnLogs (F.contents sources.old) (map string_bytes logs.now)
        (λ logs. taking_outcome opened.old adopt logs ≡ Err e)) }
    ensures text_stays { IfErr result (λ e. IfStays e (λ torn. OnLogs (F.contents sources.old)
        (map string_bytes logs.now) (λ logs. LeavesAll opened.old beside.now adopt logs torn))) }
    ensures fault { IfErr result (λ e. IsOfMerging e) }
    ensures reads { F.failures sources.new ≡ reads_failed result (F.failures sources.old) }
{
    let torn = take_logs(alloc, sources, logs, adopt, &mut opened.buffer)?;
    let owner = owner_of(alloc, sources, logs, beside, &opened.buffer)?;
    if text_stays(owner, opened) {
        return Err(MergeFault::TextStays(torn));
    }
    Ok((torn, owner))
}

/// Whether nothing is new, and the text is that of another program.
fn text_stays<S: TextStore>(owner: Owner, opened: &VisitedBuffer<S>) -> bool
    ensures { MatchBool result (Stays owner opened.now) (¬ (Stays owner opened.now)) }
{
    if owner != Owner::Other {
        return false;
    }
    opened.buffer.unsaved().is_empty()
}

/// Loads a note, and puts its text, whatever stands there: the port keeps that as at any save.
/// Where there is neither log nor text nothing is put.
///
/// Faults, after which nothing is written: `NoLog` where there is a text and no log; `Load` with
/// that of the note. `File` and `Memory`.
pub fn put_note<S: TextStore, P: Port>(
    alloc: Global,
    port: &mut P,
    name: &str,
) -> Result<(), MergeFault>
    ensures put { OnOk result (PutsNote (P.calls port.old) (P.calls port.new) name.now) }
    ensures not_loaded { IfErr result (λ e. IsOfNote e
        → FindsNoNote (P.calls port.old) (P.calls port.new) name.now e) }
    ensures fault { IfErr result (λ e. IsOfFinding e) }
    ensures begun { OnErr result (OnlyLoads (P.calls port.old) (P.calls port.new) name.now
        ⊎ BeginsToPut (P.calls port.old) (P.calls port.new) name.now) }
    ensures calls { P.failures port.new ≡ calls_failed result (P.failures port.old) }
{
    let (mut opened, beside) = load_note::<S, P>(alloc, port, name)?;
    write_note(alloc, port, Owner::Note, &beside, &mut opened)?;
    Ok(())
}
