//! How a buffer is saved.
ghost use Rattle.std.specs.Prelude.{◌≡◌, false, OnOk, OnErr};
ghost use Rattle.mg_files.specs.Calls.{Adds, told, failures_after};
ghost use Rattle.mg_files.specs.Saving.{log_call, text_call, LogsTo, SavesTo};

use crate::lines::LogLines;
use crate::port::{Port, PortFault};
use mg_buffer::VisitedBuffer;
use rga_store::TextStore;
use std::alloc::Global;

/// Saves what is changed: the unsaved operations are appended to the log, in runs where
/// `append_runs` asked for these and they are more than `MAX_SINGLE`; or the whole log is written
/// where it may not end in a newline. Then the text is put. Answers whether there was something to
/// save; where there was not, no call of the port is made.
///
/// `File` where the port refused a call, which then is the last one made, and `Memory`. A fault
/// before the log is written leaves the operations unsaved, and the next writing of the log is a
/// whole one; after it nothing is unsaved, and the text waits. In no case does it change the text,
/// point, mark or groups.
pub fn save<S: TextStore, P: Port>(
    alloc: Global,
    opened: &mut VisitedBuffer<S>,
    port: &mut P,
) -> Result<bool, PortFault>
    ensures saves { SavesTo result (P.calls port.old) (P.calls port.new) opened.old opened.new }
    ensures links { P.links port.new ≡ P.links port.old }
    ensures device { P.failures port.new ≡ failures_after result (P.failures port.old) }
{
    if !opened.is_changed() {
        return Ok(false);
    }
    log(alloc, opened, port)?;
    save_text(opened, port)?;
    Ok(true)
}

/// Brings the log up to date: where operations are unsaved it is appended to, or written whole, as
/// by a save. The text stays, and waits then. Where nothing is unsaved, no call of the port is made.
///
/// `File` where the port refused the call, and `Memory`. After both the operations stay unsaved, and
/// the next writing of the log is a whole one. In no case does it change the text, point, mark or
/// groups.
pub fn log<S: TextStore, P: Port>(
    alloc: Global,
    opened: &mut VisitedBuffer<S>,
    port: &mut P,
) -> Result<(), PortFault>
    ensures logs { LogsTo result (P.calls port.old) (P.calls port.new) opened.old opened.new }
    ensures links { P.links port.new ≡ P.links port.old }
    ensures device { P.failures port.new ≡ failures_after result (P.failures port.old) }
{
    if opened.buffer.unsaved().is_empty() {
        return Ok(());
    }
    if let Err(fault) = write_log(alloc, opened, port) {
        opened.mark_unlogged();
        return Err(fault);
    }
    opened.mark_logged();
    Ok(())
}

/// Appends the unsaved operations to the log, or writes all operations as the whole log.
fn write_log<S: TextStore, P: Port>(
    alloc: Global,
    opened: &VisitedBuffer<S>,
    port: &mut P,
) -> Result<(), PortFault>
    ensures tells { Adds (P.calls port.old) (P.calls port.new)
        (told result (log_call opened.now)) }
    ensures links { P.links port.new ≡ P.links port.old }
    ensures device { P.failures port.new ≡ failures_after result (P.failures port.old) }
{
    if opened.writes_whole() {
        let ops = opened.buffer.store().ops()?;
        let lines = LogLines::new(alloc, false, &ops);
        return port.replace(opened.buffer.name(), &lines);
    }
    let lines = LogLines::new(alloc, opened.appends_runs(), opened.buffer.unsaved());
    port.append(opened.buffer.name(), &lines)
}

/// Puts the text, which then waits no more.
fn save_text<S: TextStore, P: Port>(
    opened: &mut VisitedBuffer<S>,
    port: &mut P,
) -> Result<(), PortFault>
    ensures tells { Adds (P.calls port.old) (P.calls port.new)
        (told result (text_call opened.old)) }
    ensures put { OnOk result (opened.new ≡ record opened.old { text_waits = false }) }
    ensures same { OnErr result (opened.new ≡ opened.old) }
    ensures links { P.links port.new ≡ P.links port.old }
    ensures device { P.failures port.new ≡ failures_after result (P.failures port.old) }
{
    let text = opened.buffer.text_string()?;
    port.put_text(opened.buffer.name(), text.as_bytes())?;
    opened.mark_put();
    Ok(())
}
