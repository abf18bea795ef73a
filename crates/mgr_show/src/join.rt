//! Logs in one.
ghost use Rattle.std.specs.Prelude.{◌≡◌, ◌≢◌, ◌⊎◌, ◌||◌, ℕ, List, [], length, map, string_bytes, true, Ok, Err, OnOk, OnErr, IfErr, IfSome};
ghost use Rattle.std.specs.List.{list_any};
ghost use Rattle.rga_store.specs.declared.text_store.TheConstants.{MAX_LIMIT};
ghost use Rattle.rga_exchange.specs.Counting.{CountsAs, WritesNothing};
ghost use Rattle.rga_exchange.specs.DeletionRuns.{has_deletion_runs};
ghost use Rattle.mgr_show.specs.Log.{shown_from};
ghost use Rattle.mgr_show.specs.Shown.{IsOfInput};
ghost use Rattle.mgr_show.specs.Sources.{failures_after};
ghost use Rattle.mgr_show.specs.Joined.{has_far_counter, joined_from, join_of, reads_failed, OnLogs, IsOfLog, NamesOneOf, Joins, BeginsToJoin};
ghost use Rattle.mgr_show.specs.Memory.{JoinMemory};

use crate::compact::compact_records;
use crate::fault::{JoinFault, ShowFault};
use crate::show::take_whole_log;
use crate::sources::Sources;
use rga_exchange::Counted;
use rga_ops::OutOfMemory;
use rga_records::Records;
use rga_store::{MAX_LIMIT, Taker};
use std::alloc::{AllocError, Global};
use std::io::Write;

/// By how much a counter may be above the number of identifiers: who takes one that is far above
/// can make few operations more.
const NEAR: u64 = 4294967296;

/// Reads logs by their names, and writes their join in as few lines as runs allow, and nothing
/// else: a log that stands for the content of all their operations. Deletions are in runs if one of
/// the logs has a run of them. A last line without newline counts if it is an operation.
///
/// `Log` with `Line`, `Refused` or `Torn` is the first fault in the order of the names, and there
/// in that of the lines. `Log` with `Read` comes if a log can't be read. `Far` comes if all logs
/// were taken, and a counter is more than 2^32 above the number of identifiers that they know.
/// Nothing is written before that. If `Write` or `Memory` comes after it, a beginning of the lines
/// was written.
pub fn join_logs<S: Sources, W: Write>(
    alloc: Global,
    sources: &mut S,
    names: &[String],
    writer: &mut Counted<W>,
) -> Result<(), JoinFault>
    ensures joined { OnOk result (OnLogs (S.contents sources.old) (map string_bytes names.now)
        (λ logs. Joins W.contents writer.old writer.new logs)) }

    ensures refused { IfErr result (λ e. IsOfLog e → OnLogs (S.contents sources.old)
        (map string_bytes names.now) (λ logs. join_of MAX_LIMIT logs ≡ Err e)) }
    ensures named { IfErr result (λ e. NamesOneOf (length names.now) e) }
    ensures unwritten { IfErr result (λ e. e ≢ JoinFault.Write → e ≢ JoinMemory
        → writer.new ≡ writer.old) }
    // Whatever fails, nothing was written or a beginning of the lines of the join.
    ensures begun { OnErr result (OnLogs (S.contents sources.old) (map string_bytes names.now)
        (λ logs. WritesNothing W.contents writer.old writer.new
        ⊎ BeginsToJoin W.contents writer.old writer.new logs)) }
    ensures flushed { OnOk result (writer.new.flushed ≡ true) }

    ensures same { (other : List ℕ) → S.contents sources.new other ≡ S.contents sources.old other }
    ensures reads { S.failures sources.new ≡ reads_failed result (S.failures sources.old) }
    ensures writes { CountsAs JoinFault.Write result writer.old writer.new }
{
    let mut records = match Records::new(alloc, MAX_LIMIT) {
        Ok(records) => records,
        Err(refused) => return Err(JoinFault::Memory(refused.memory())),
    };
    let mut deletion_runs = false;
    take_logs(alloc, sources, names, &mut records, &mut deletion_runs)?;
    if is_far(&records) {
        return Err(JoinFault::Far);
    }
    compact_records(alloc, &records, deletion_runs, writer)?;
    Ok(())
}

/// Whether records have a counter far above the number of identifiers that they know.
fn is_far(records: &Records) -> bool
    ensures { result ≡ has_far_counter records.now.content }
{
    let known = records.known() as u64;
    let clock = records.clock();
    if clock <= known {
        return false;
    }
    clock - known > NEAR
}

/// Takes the operations of the logs of the names. `deletion_runs` becomes true if one of them has a
/// run of deletions.
///
/// `Log` with `Read`, `Line`, `Refused` or `Torn` is the first fault in the order of the names, and
/// there in that of the lines. `Memory`.
fn take_logs<S: Sources, T: Taker>(
    alloc: Global,
    sources: &mut S,
    names: &[String],
    taker: &mut T,
    deletion_runs: &mut bool,
) -> Result<(), JoinFault>
    ensures ok { OnOk result (OnLogs (S.contents sources.old) (map string_bytes names.now)
        (λ logs. joined_from (T.limit taker.old) 0 (T.content taker.old) logs
        ≡ Ok (T.content taker.new))) }
    ensures deletion_runs { OnOk result (OnLogs (S.contents sources.old)
        (map string_bytes names.now) (λ logs.
        deletion_runs.new ≡ (deletion_runs.old || list_any has_deletion_runs logs))) }
    ensures refused { IfErr result (λ e. IsOfLog e → OnLogs (S.contents sources.old)
        (map string_bytes names.now) (λ logs.
        joined_from (T.limit taker.old) 0 (T.content taker.old) logs ≡ Err e)) }
    ensures named { IfErr result (λ e. NamesOneOf (length names.now) e) }
    ensures same { (other : List ℕ) → S.contents sources.new other ≡ S.contents sources.old other }
    ensures reads { S.failures sources.new ≡ reads_failed result (S.failures sources.old) }
    ensures no_write { result ≢ Err JoinFault.Write }
    ensures limit { T.limit taker.new ≡ T.limit taker.old }
{
    for (index, name) in names.iter().enumerate() {
        if let Err(fault) = take_named(alloc, sources, name.as_str(), taker, deletion_runs) {
            return Err(JoinFault::at_log(index, fault));
        }
    }
    Ok(())
}

/// Takes the operations of the log of a name, as `take_whole_log` does.
fn take_named<S: Sources, T: Taker>(
    alloc: Global,
    sources: &mut S,
    name: &str,
    taker: &mut T,
    deletion_runs: &mut bool,
) -> Result<(), ShowFault>
    ensures ok { OnOk result (IfSome (S.contents sources.old name.now) (λ bytes.
        shown_from (T.limit taker.old) (T.content taker.old) bytes ≡ Ok (T.content taker.new))) }
    ensures deletion_runs { OnOk result (IfSome (S.contents sources.old name.now)
        (λ bytes. deletion_runs.new ≡ (deletion_runs.old || has_deletion_runs bytes))) }
    ensures refused { IfErr result (λ e. IsOfInput e → IfSome (S.contents sources.old name.now)
        (λ bytes. shown_from (T.limit taker.old) (T.content taker.old) bytes ≡ Err e)) }
    ensures same { (other : List ℕ) → S.contents sources.new other ≡ S.contents sources.old other }
    ensures device { S.failures sources.new ≡ failures_after result (S.failures sources.old) }
    ensures no_write { result ≢ Err ShowFault.Write }
    ensures limit { T.limit taker.new ≡ T.limit taker.old }
{
    let bytes = sources.read(alloc, name)?;
    match take_whole_log(
        alloc,
        taker,
        &mut Counted::new(bytes.as_slice()),
        deletion_runs,
    ) {
        // No machine has the bytes on which a reader of them would spend its calls.
        Err(ShowFault::Read) => Err(ShowFault::Memory(OutOfMemory::from(AllocError))),
        taken => taken,
    }
}
