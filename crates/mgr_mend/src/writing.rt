//! How a note is written.
ghost use Rattle.std.specs.Prelude.{◌≡◌, ℕ, List, [], ◌∷◌, true, OnOk, IfErr, MatchOption};
ghost use Rattle.mg_files.specs.Calls.{Adds, call, failures_after};
ghost use Rattle.mg_files.specs.declared.port.CallKind.TheVariants.{PutText};
ghost use Rattle.mg_files.specs.Saving.{SaveStep, failed_calls, is_due, save_calls};
ghost use Rattle.mg_files.specs.declared.port.PortFault.{PortFault as Fault};
ghost use Rattle.mgr_mend.specs.Merging.{StopsWriting, first_calls, text_due, write_calls};

use crate::loading::Beside;
use crate::text::Owner;
use mg_buffer::VisitedBuffer;
use mg_files::{Port, PortFault, save};
use rga_store::TextStore;
use std::alloc::Global;

/// Writes a note: what is unsaved of its log, and its text. The text of a log is put first as it
/// stands.
pub(crate) fn write_note<S: TextStore, P: Port>(
    alloc: Global,
    port: &mut P,
    owner: Owner,
    beside: &Beside,
    opened: &mut VisitedBuffer<S>,
) -> Result<(), PortFault>
    ensures written { OnOk result (Adds (P.calls port.old) (P.calls port.new)
        (write_calls owner beside.now opened.old)) }
    ensures begun { IfErr result (λ fault.
        StopsWriting fault (P.calls port.old) (P.calls port.new) owner beside.now opened.old) }
    ensures device { P.failures port.new ≡ failures_after result (P.failures port.old) }
{
    let Some(text) = first_text(owner, beside) else {
        return save_due(alloc, port, beside.logged, opened);
    };
    port.put_text(opened.buffer.name(), text)?;
    save_due(alloc, port, beside.logged, opened)
}

/// The text that is put first.
fn first_text(owner: Owner, beside: &Beside) -> Option<&[u8]>
    ensures { MatchOption result ((name : List ℕ) → first_calls owner name beside.now.text ≡ [])
        (λ text. (name : List ℕ) → first_calls owner name beside.now.text
        ≡ call PutText name text.now ∷ []) }
{
    if owner != Owner::AnyLog {
        return None;
    }
    match &beside.text {
        Some(text) => Some(text.as_slice()),
        None => None,
    }
}

/// Saves what is changed; where there is a log the text is put, whatever is changed.
fn save_due<S: TextStore, P: Port>(
    alloc: Global,
    port: &mut P,
    logged: bool,
    opened: &mut VisitedBuffer<S>,
) -> Result<(), PortFault>
    ensures saved { OnOk result (Adds (P.calls port.old) (P.calls port.new)
        (save_calls (text_due logged opened.old))) }
    ensures begun { IfErr result (λ fault. (step : SaveStep)
        × Adds (P.calls port.old) (P.calls port.new)
        (failed_calls step fault (text_due logged opened.old))) }
    ensures device { P.failures port.new ≡ failures_after result (P.failures port.old) }
{
    mark_due(logged, opened);
    save(alloc, opened, port)?;
    Ok(())
}

/// Notes that the text waits where there is a log. Where operations are unsaved it does anyway.
fn mark_due<S: TextStore>(logged: bool, opened: &mut VisitedBuffer<S>)
    ensures saves { save_calls opened.new ≡ save_calls (text_due logged opened.old) }
    ensures fails { (step : SaveStep) (fault : Fault) → is_due step opened.new ≡ true
        → failed_calls step fault opened.new
        ≡ failed_calls step fault (text_due logged opened.old) }
{
    if !opened.buffer.unsaved().is_empty() {
        return;
    }
    if !logged {
        return;
    }
    opened.mark_logged();
}
