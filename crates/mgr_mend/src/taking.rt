//! How the operations of logs are taken into a note.
ghost use Rattle.std.specs.Prelude.{◌≡◌, ◌⊎◌, ◌&&◌, not, true, false, ℕ, ◌<◌, ◌^◌, ◌++◌, List, map, string_bytes, Ok, Err, IfOk, IfErr, IfSome, OnOk};
ghost use Rattle.rga_ops.specs.Content.{clock_of};
ghost use Rattle.mgr_show.specs.Joined.{OnLogs};
ghost use Rattle.mgr_mend.specs.Taking.{HasTaken, is_apart, log_merged, logs_taken, merged_from, torn_at};
ghost use Rattle.mgr_mend.specs.Merging.{IsOfLogs, IsOfTaking, reads_failed};
ghost use Rattle.mgr_mend.specs.Memory.{MergeMemory};

use crate::fault::MergeFault;
use crate::guards::{is_apart, is_far};
use crate::merged::Torn;
use mg_buffer::Buffer;
use mgr_show::{Sources, take_but_torn};
use rga_exchange::{LogEnd, LogRead};
use rga_ops::OutOfMemory;
use rga_store::TextStore;
use std::alloc::Global;

/// Takes the operations of the logs of the names in turn, and answers which of them had a last line
/// that was cut off. The first log that is apart from what is held by then, refused or far above
/// the note is the fault.
pub(crate) fn take_logs<S: TextStore, F: Sources>(
    alloc: Global,
    sources: &mut F,
    logs: &[String],
    adopt: bool,
    buffer: &mut Buffer<S>,
) -> Result<Vec<Torn>, MergeFault>
    ensures taken { IfOk result (λ torn. OnLogs (F.contents sources.old) (map string_bytes logs.now)
        (λ logs. merged_from adopt (clock_of buffer.old.content) buffer.old.limit 0
        buffer.old.content logs ≡ Ok (logs_taken buffer.new.content torn.items))) }
    ensures refused { IfErr result (λ e. IsOfLogs e → OnLogs (F.contents sources.old)
        (map string_bytes logs.now) (λ logs. merged_from adopt (clock_of buffer.old.content)
        buffer.old.limit 0 buffer.old.content logs ≡ Err e)) }
    ensures fault { IfErr result (λ e. IsOfTaking e) }
    ensures same { (other : List ℕ) → F.contents sources.new other ≡ F.contents sources.old other }
    ensures reads { F.failures sources.new ≡ reads_failed result (F.failures sources.old) }
    ensures follows { OnOk result (HasTaken buffer.old buffer.new) }
{
    let clock = buffer.store().clock();
    let mut torn = Vec::new(alloc);
    for (index, name) in logs.iter().enumerate() {
        let read = take_named(alloc, sources, name.as_str(), index, adopt, clock, buffer)?;
        push_torn(&mut torn, index, read)?;
    }
    Ok(torn)
}

/// Notes the last line of the log with this index if it was cut off. Out of memory alone.
fn push_torn(torn: &mut Vec<Torn>, index: usize, read: LogRead) -> Result<(), OutOfMemory>
    requires { read.lines < 2 ^ 63 }
    ensures noted { OnOk result (torn.new.items
        ≡ torn.old.items ++ torn_at index read.lines read.end) }
{
    match read.end {
        LogEnd::Whole | LogEnd::Bare => Ok(()),
        LogEnd::Torn(_) => {
            let line = read.lines + 1;
            torn.push(Torn { log: index, line })?;
            Ok(())
        }
    }
}

/// Takes the operations of the log with this index, of this name, and answers how it was read.
fn take_named<S: TextStore, F: Sources>(
    alloc: Global,
    sources: &mut F,
    name: &str,
    index: usize,
    adopt: bool,
    clock: u64,
    buffer: &mut Buffer<S>,
) -> Result<LogRead, MergeFault>
    ensures taken { IfOk result (λ read. IfSome (F.contents sources.old name.now) (λ bytes.
        log_merged adopt clock buffer.old.limit index buffer.old.content bytes
        ≡ Ok (logs_taken buffer.new.content (torn_at index read.lines read.end)))) }
    ensures refused { IfErr result (λ e. IsOfLogs e → IfSome (F.contents sources.old name.now)
        (λ bytes. log_merged adopt clock buffer.old.limit index buffer.old.content bytes
        ≡ Err e)) }
    ensures fault { IfErr result (λ e. IsOfTaking e) }
    ensures bound { IfOk result (λ read. read.lines < 2 ^ 63) }
    ensures same { (other : List ℕ) → F.contents sources.new other ≡ F.contents sources.old other }
    ensures reads { F.failures sources.new ≡ reads_failed result (F.failures sources.old) }
    ensures limit { buffer.new.limit ≡ buffer.old.limit }
    ensures follows { OnOk result (HasTaken buffer.old buffer.new) }
{
    match sources.read(alloc, name) {
        Ok(bytes) => take_bytes(alloc, bytes.as_slice(), index, adopt, clock, buffer),
        Err(unread) => Err(MergeFault::at_log(index, unread)),
    }
}

/// The same of its bytes.
fn take_bytes<S: TextStore>(
    alloc: Global,
    bytes: &[u8],
    index: usize,
    adopt: bool,
    clock: u64,
    buffer: &mut Buffer<S>,
) -> Result<LogRead, MergeFault>
    ensures taken { IfOk result (λ read.
        log_merged adopt clock buffer.old.limit index buffer.old.content bytes.now
        ≡ Ok (logs_taken buffer.new.content (torn_at index read.lines read.end))) }
    ensures refused { IfErr result (λ e. IsOfLogs e →
        log_merged adopt clock buffer.old.limit index buffer.old.content bytes.now ≡ Err e) }
    ensures fault { IfErr result (λ e. IsOfTaking e) }
    ensures no_read { (n : ℕ) → reads_failed result n ≡ n }
    ensures bound { IfOk result (λ read. read.lines < 2 ^ 63) }
    ensures limit { buffer.new.limit ≡ buffer.old.limit }
    ensures follows { OnOk result (HasTaken buffer.old buffer.new) }
{
    check_apart(alloc, buffer.store(), bytes, index, adopt)?;
    match take_but_torn(alloc, buffer, bytes) {
        Ok(read) => {
            if is_far(buffer.store(), clock) {
                return Err(MergeFault::Far(index));
            }
            Ok(read)
        }
        Err(fault) => Err(MergeFault::at_log(index, fault)),
    }
}

/// `Apart` if the log with this index is apart from what a store holds, and not to be adopted; or
/// `Memory`.
fn check_apart<S: TextStore>(
    alloc: Global,
    store: &S,
    bytes: &[u8],
    index: usize,
    adopt: bool,
) -> Result<(), MergeFault>
    ensures together { OnOk result
        ((not adopt && is_apart (S.content store.now) bytes.now) ≡ false) }
    ensures apart { IfErr result (λ e. (e ≡ MergeMemory) ⊎ ((e ≡ MergeFault.Apart index)
        × ((not adopt && is_apart (S.content store.now) bytes.now) ≡ true))) }
{
    if adopt {
        return Ok(());
    }
    if is_apart(alloc, store, bytes)? {
        return Err(MergeFault::Apart(index));
    }
    Ok(())
}
