//! A log, read for what it holds.
ghost use Rattle.std.specs.Prelude.{◌≡◌, ◌≢◌, ℕ, List, Err, IfOk, IfErr, IfSome, length, string_bytes};
ghost use Rattle.rga_store.specs.declared.text_store.TheConstants.{MAX_LIMIT};
ghost use Rattle.mgr_show.specs.Shown.{IsOfInput};
ghost use Rattle.mgr_show.specs.Note.{log_source, note_of};
ghost use Rattle.mgr_show.specs.Sources.{failures_after};
ghost use Rattle.mgr_show.specs.Stored.{IsRead};
ghost use Rattle.mgr_show.specs.Memory.{ShowMemory};

use crate::fault::ShowFault;
use crate::note::{log_name, take_but_torn};
use crate::sources::Sources;
use rga_exchange::LogRead;
use rga_flat::FlatStore;
use rga_ops::OutOfMemory;
use rga_store::{MAX_LIMIT, TextStore};
use std::alloc::Global;

/// A log that was read to its end.
#[derive(Drop)]
pub(crate) struct StoredLog<T: Drop> {
    /// How many bytes it has.
    pub(crate) bytes: usize,
    /// What its operations lead to.
    pub(crate) store: T,
    /// How many lines it has, and how it ends.
    pub(crate) read: LogRead,
}

/// Reads a log by its name, into a store of its own. A last line without newline counts if it is an
/// operation, and else is left out: the note may be open elsewhere.
///
/// `Line` and `Refused` are the first fault in the order of the lines. `Read` comes if the log
/// can't be read.
pub(crate) fn read_log<T: TextStore, S: Sources>(
    alloc: Global,
    sources: &mut S,
    name: &str,
) -> Result<StoredLog<T>, ShowFault>
    ensures read { IfOk result (λ log. IfSome (S.contents sources.old name.now)
        (λ bytes. IsRead bytes (T.content log.store) log.read)) }
    ensures bytes { IfOk result (λ log. IfSome (S.contents sources.old name.now)
        (λ bytes. log.bytes ≡ length bytes)) }
    ensures refused { IfErr result (λ e. IsOfInput e →
        IfSome (S.contents sources.old name.now) (λ bytes. note_of MAX_LIMIT bytes ≡ Err e)) }
    ensures whole { (number : ℕ) → result ≢ Err (ShowFault.Torn number) }
    ensures no_write { result ≢ Err ShowFault.Write }
    ensures same { (other : List ℕ) → S.contents sources.new other ≡ S.contents sources.old other }
    ensures reads { S.failures sources.new ≡ failures_after result (S.failures sources.old) }
{
    let bytes = sources.read(alloc, name)?;
    let mut store = match T::new(alloc, MAX_LIMIT) {
        Ok(store) => store,
        Err(refused) => return Err(ShowFault::Memory(refused.memory())),
    };
    let read = take_but_torn(alloc, &mut store, bytes.as_slice())?;
    Ok(StoredLog {
        bytes: bytes.len(),
        store,
        read,
    })
}

/// Reads the log of a note, as `read_log` does.
pub(crate) fn read_note<S: Sources>(
    alloc: Global,
    sources: &mut S,
    name: &str,
) -> Result<StoredLog<FlatStore>, ShowFault>
    ensures read { IfOk result (λ log. IfSome (S.contents sources.old (log_source name.now))
        (λ bytes. IsRead bytes log.store.content log.read)) }
    ensures refused { IfErr result (λ e. IsOfInput e →
        IfSome (S.contents sources.old (log_source name.now)) (λ bytes.
        note_of MAX_LIMIT bytes ≡ Err e)) }
    ensures whole { (number : ℕ) → result ≢ Err (ShowFault.Torn number) }
    ensures no_write { result ≢ Err ShowFault.Write }
    ensures same { (other : List ℕ) → S.contents sources.new other ≡ S.contents sources.old other }
    ensures reads { S.failures sources.new ≡ failures_after result (S.failures sources.old) }
{
    let source = source_name(alloc, name)?;
    read_log(alloc, sources, source.as_str())
}

/// The name under which the log of a note is read: `-` is taken as it is. Out of memory
/// alone.
#[tactic(auto, unfolding(crate::specs::Note::log_source))]
fn source_name(alloc: Global, name: &str) -> Result<String, OutOfMemory>
    ensures name { IfOk result (λ source. string_bytes source ≡ log_source name.now) }
{
    if name == "-" {
        return Ok(String::from_str(alloc, name)?);
    }
    log_name(alloc, name)
}
