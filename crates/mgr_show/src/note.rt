//! The text of a note, by its log.
ghost use Rattle.std.specs.Prelude.{◌≡◌, ◌≢◌, ◌⊎◌, ℕ, ◌<◌, ◌^◌, List, true, Ok, Err, OnOk, OnErr, IfOk, IfErr, IfSome, string_bytes};
ghost use Rattle.rga_store.specs.declared.text_store.TheConstants.{MAX_LIMIT};
ghost use Rattle.rga_exchange.specs.Counting.{CountsAs, Writes, WritesFront, WritesNothing};
ghost use Rattle.rga_exchange.specs.Log.{log_outcome};
ghost use Rattle.rga_exchange.specs.Taking.{intake};
ghost use Rattle.mgr_show.specs.Log.{HasFollowed};
ghost use Rattle.mgr_show.specs.Shown.{log_content, shown_bytes, IsOfInput};
ghost use Rattle.mgr_show.specs.Note.{log_name, first_lines, front_of, note_from, note_of, IsReadable};
ghost use Rattle.mgr_show.specs.Sources.{failures_after};
ghost use Rattle.mgr_show.specs.Memory.{ShowMemory};

use crate::fault::ShowFault;
use crate::show::write_text;
use crate::sources::Sources;
use rga_exchange::{Counted, LogFault, LogRead, take_log};
use rga_ops::OutOfMemory;
use rga_records::Records;
use rga_store::{MAX_LIMIT, Taker};
use std::alloc::{AllocError, Global};
use std::io::Write;

/// Writes the text of the note with this name in UTF-8, and nothing else: that of the operations of
/// its log, or of the first so many lines of it. A last line without newline counts if it is an
/// operation, and else is left out.
///
/// `Line` and `Refused` are the first fault in the order of the lines. `Read` comes if the log
/// can't be read. Nothing is written before all of it was taken.
pub fn show_note<S: Sources, W: Write>(
    alloc: Global,
    sources: &mut S,
    name: &str,
    lines: Option<u64>,
    writer: &mut Counted<W>,
) -> Result<(), ShowFault>
    ensures shown { OnOk result (IfSome (S.contents sources.old (log_name name.now)) (λ bytes.
        let front = front_of lines bytes in IsReadable front
        × Writes W.contents writer.old writer.new (shown_bytes (log_content front)))) }

    ensures refused { IfErr result (λ e. IsOfInput e → IfSome
        (S.contents sources.old (log_name name.now))
        (λ bytes. note_of MAX_LIMIT (front_of lines bytes) ≡ Err e)) }
    ensures whole { (number : ℕ) → result ≢ Err (ShowFault.Torn number) }
    ensures unwritten { IfErr result (λ e. e ≢ ShowFault.Write → writer.new ≡ writer.old) }
    // Whatever fails, nothing was written or a beginning of the text.
    ensures begun { OnErr result (IfSome (S.contents sources.old (log_name name.now)) (λ bytes.
        let front = front_of lines bytes in WritesNothing W.contents writer.old writer.new
        ⊎ (IsReadable front
        × WritesFront W.contents writer.old writer.new (shown_bytes (log_content front))))) }
    ensures flushed { OnOk result (writer.new.flushed ≡ true) }

    ensures same { (other : List ℕ) → S.contents sources.new other ≡ S.contents sources.old other }
    ensures reads { S.failures sources.new ≡ failures_after result (S.failures sources.old) }
    ensures writes { CountsAs ShowFault.Write result writer.old writer.new }
{
    let text = text_of_note(alloc, sources, name, lines)?;
    write_text(text.as_str(), writer)
}

/// The text of a note, whose operations are put in order once all are taken.
fn text_of_note<S: Sources>(
    alloc: Global,
    sources: &mut S,
    name: &str,
    lines: Option<u64>,
) -> Result<String, ShowFault>
    ensures text { IfOk result (λ text. IfSome (S.contents sources.old (log_name name.now))
        (λ bytes. let front = front_of lines bytes in IsReadable front
        × (string_bytes text ≡ shown_bytes (log_content front)))) }
    ensures refused { IfErr result (λ e. IsOfInput e → IfSome
        (S.contents sources.old (log_name name.now))
        (λ bytes. note_of MAX_LIMIT (front_of lines bytes) ≡ Err e)) }
    ensures whole { (number : ℕ) → result ≢ Err (ShowFault.Torn number) }
    ensures no_write { result ≢ Err ShowFault.Write }
    ensures same { (other : List ℕ) → S.contents sources.new other ≡ S.contents sources.old other }
    ensures reads { S.failures sources.new ≡ failures_after result (S.failures sources.old) }
{
    let log = log_name(alloc, name)?;
    let bytes = sources.read(alloc, log.as_str())?;
    let mut records = match Records::new(alloc, MAX_LIMIT) {
        Ok(records) => records,
        Err(refused) => return Err(ShowFault::Memory(refused.memory())),
    };
    take_but_torn(alloc, &mut records, front(bytes.as_slice(), lines))?;
    let text = records.text_string(alloc)?;
    Ok(text)
}

/// The name of the log of a note. Out of memory alone.
pub(crate) fn log_name(alloc: Global, name: &str) -> Result<String, OutOfMemory>
    ensures name { IfOk result (λ log. string_bytes log ≡ log_name name.now) }
{
    Ok(format!(in alloc; "{}.ops", name)?)
}

/// The first lines of a log, if so many are asked for; else all of it.
fn front(bytes: &[u8], lines: Option<u64>) -> &[u8]
    ensures { result.now ≡ front_of lines bytes.now }
{
    match lines {
        Some(count) => first_lines(bytes, count),
        None => bytes,
    }
}

/// The first so many lines, each with its newline; all bytes, if there are no more lines.
fn first_lines(bytes: &[u8], count: u64) -> &[u8]
    ensures { result.now ≡ first_lines count bytes.now }
{
    let mut left = count;
    for (index, byte) in bytes.iter().enumerate() {
        if left == 0 {
            return &bytes[..index];
        }
        if *byte == b'\n' {
            left -= 1;
        }
    }
    bytes
}

/// Takes the operations of a log, but for a last line that was cut off. Answers how many lines it
/// has, and how it ends. Faults: `Line` and `Refused`, of which the first in the order of the lines
/// is answered, and `Memory`.
pub fn take_but_torn<T: Taker>(
    alloc: Global,
    taker: &mut T,
    bytes: &[u8],
) -> Result<LogRead, ShowFault>
    ensures ok { OnOk result (note_from (T.limit taker.old) (T.content taker.old) bytes.now
        ≡ Ok (T.content taker.new)) }
    ensures read { IfOk result (λ read.
        (log_outcome (T.limit taker.old) (T.content taker.old) bytes.now).1 ≡ Ok read) }
    ensures refused { IfErr result (λ e. IsOfInput e →
        note_from (T.limit taker.old) (T.content taker.old) bytes.now ≡ Err e) }
    ensures whole { (number : ℕ) → result ≢ Err (ShowFault.Torn number) }
    ensures device { (result ≢ Err ShowFault.Read) × (result ≢ Err ShowFault.Write) }
    ensures limit { T.limit taker.new ≡ T.limit taker.old }
    ensures follows { OnOk result
        (HasFollowed (intake T.limit T.content T.follows taker.old taker.new)) }
    ensures bound { IfOk result (λ read. read.lines < 2 ^ 63) }
{
    match take_log(alloc, taker, &mut Counted::new(bytes), &mut false) {
        Ok(read) => Ok(read),
        // No machine has the bytes on which a reader of them would spend its calls.
        Err(LogFault::Read) => Err(ShowFault::Memory(OutOfMemory::from(AllocError))),
        Err(fault) => Err(ShowFault::from(fault)),
    }
}
