//! Whose text it is that stands beside the log of a note.
ghost use Rattle.std.specs.Prelude.{◌≡◌, ℕ, List, map, string_bytes, bytes_eq, Ok, IfOk, IfErr, IfSome};
ghost use Rattle.std.specs.List.{list_any};
ghost use Rattle.mgr_show.specs.Joined.{OnLogs};
ghost use Rattle.mgr_mend.specs.Merging.{IsOfReading, is_text_of, owner, reads_failed};
ghost use Rattle.mgr_mend.specs.Memory.{MergeMemory};

use crate::fault::MergeFault;
use crate::loading::Beside;
use mg_buffer::Buffer;
use mgr_show::{ShowFault, Sources, take_but_torn};
use rga_ops::OutOfMemory;
use rga_records::Records;
use rga_store::{MAX_LIMIT, TextStore};
use std::alloc::Global;

/// Whose a text is.
#[derive(Clone, Copy, PartialEq, Eq)]
pub(crate) enum Owner {
    /// There is none, or it is the note's as the note is now.
    Note,
    /// It is that of a log alone.
    AnyLog,
    /// Another program changed it.
    Other,
}

/// Whose the text is that was found beside the log of a note, which took these logs.
pub(crate) fn owner_of<S: TextStore, F: Sources>(
    alloc: Global,
    sources: &mut F,
    logs: &[String],
    beside: &Beside,
    buffer: &Buffer<S>,
) -> Result<Owner, MergeFault>
    ensures owner { IfOk result (λ o. OnLogs (F.contents sources.old) (map string_bytes logs.now)
        (λ logs. o ≡ owner beside.now.text buffer.now.content logs)) }
    ensures fault { IfErr result (λ e. IsOfReading e) }
    ensures reads { F.failures sources.new ≡ reads_failed result (F.failures sources.old) }
{
    let Some(text) = &beside.text else {
        return Ok(Owner::Note);
    };
    let own = buffer.text_string()?;
    if is_same(own.as_bytes(), text) {
        return Ok(Owner::Note);
    }
    if is_of_any(alloc, sources, logs, text)? {
        return Ok(Owner::AnyLog);
    }
    Ok(Owner::Other)
}

fn is_same(text: &[u8], other: &[u8]) -> bool
    ensures { result ≡ bytes_eq text.now other.now }
{
    text == other
}

/// Whether a text is that of one of the logs alone.
fn is_of_any<F: Sources>(
    alloc: Global,
    sources: &mut F,
    logs: &[String],
    text: &[u8],
) -> Result<bool, MergeFault>
    ensures any { IfOk result (λ any. OnLogs (F.contents sources.old) (map string_bytes logs.now)
        (λ logs. any ≡ list_any (is_text_of text.now) logs)) }
    ensures fault { IfErr result (λ e. IsOfReading e) }
    ensures reads { F.failures sources.new ≡ reads_failed result (F.failures sources.old) }
{
    for (index, name) in logs.iter().enumerate() {
        if is_of_named(alloc, sources, name.as_str(), index, text)? {
            return Ok(true);
        }
    }
    Ok(false)
}

/// Whether a text is that of the log with this index, of this name, alone.
fn is_of_named<F: Sources>(
    alloc: Global,
    sources: &mut F,
    name: &str,
    index: usize,
    text: &[u8],
) -> Result<bool, MergeFault>
    ensures is { IfOk result (λ is. IfSome (F.contents sources.old name.now)
        (λ bytes. is ≡ is_text_of text.now bytes)) }
    ensures fault { IfErr result (λ e. IsOfReading e) }
    ensures same { (other : List ℕ) → F.contents sources.new other ≡ F.contents sources.old other }
    ensures reads { F.failures sources.new ≡ reads_failed result (F.failures sources.old) }
{
    match sources.read(alloc, name) {
        Ok(bytes) => Ok(is_text_of(alloc, text, bytes.as_slice())?),
        Err(fault) => Err(MergeFault::at_log(index, fault)),
    }
}

/// Whether a text is that of a log alone. Out of memory alone.
fn is_text_of(alloc: Global, text: &[u8], bytes: &[u8]) -> Result<bool, OutOfMemory>
    ensures is { IfOk result (λ is. is ≡ is_text_of text.now bytes.now) }
{
    let mut records = match Records::new(alloc, MAX_LIMIT) {
        Ok(records) => records,
        Err(refused) => return Err(refused.memory()),
    };
    match take_but_torn(alloc, &mut records, bytes) {
        Ok(_) => {}
        Err(ShowFault::Memory(memory)) => return Err(memory),
        Err(_) => return Ok(false),
    }
    let own = records.text_string(alloc)?;
    Ok(is_same(own.as_bytes(), text))
}
