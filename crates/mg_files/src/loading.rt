//! How a buffer is loaded.
ghost use Rattle.std.specs.Prelude.{◌≡◌, ◌≢◌, true, false, None, Ok, Err, MatchResult, IfOk, IfSome, ◌⊎◌, chars};
ghost use Rattle.rga_ops.specs.Prelude.{nothing};
ghost use Rattle.rga_doc.specs.Document.{document};
ghost use Rattle.mg_files.specs.Files.{Files, text_bytes};
ghost use Rattle.mg_files.specs.Loading.{load_outcome, opened_and_end, opening_answer, MayWantMemory, log_loaded, text_loaded};
ghost use Rattle.std.specs.Str.{is_utf8};
ghost use Rattle.mg_files.specs.declared.fault.LoadFault.TheVariants.{NotText};
ghost use Rattle.mg_files.specs.Memory.{LoadMemory as Memory};

use crate::fault::LoadFault;
use crate::port::Found;
use mg_buffer::{Buffer, VisitedBuffer};
use rga_doc::Doc;
use rga_exchange::{Counted, LogEnd, read_log};
use rga_ops::Refusal;
use rga_store::{MAX_LIMIT, TextStore};
use std::alloc::Global;

/// Opens the buffer of a name, of a replica that may know `limit` identifiers, by what was found
/// under the name, and answers how its log ends.
///
/// Where a log is there, be it of no bytes, the text is not looked at: the buffer has the operations
/// of the log, and is unchanged however the log ends. Else it has the characters of the text,
/// inserted by one splice and all unsaved; else nothing. Point is at the front, there is no mark,
/// and nothing to undo.
///
/// Faults, in this order: `Store` with `BadId` for replica 0 and with `Range` unless the limit is 1
/// to `MAX_LIMIT`; `Log` with the first fault of the log; `NotText`; `Store` with `Full` where the
/// text has more characters than the limit; `Memory`. Only a log and the characters of a text ask
/// for memory before a fault; the name is copied after all of them.
pub fn load<S: TextStore>(
    alloc: Global,
    name: &str,
    replica: u16,
    limit: usize,
    found: Found,
) -> Result<(VisitedBuffer<S>, LogEnd), LoadFault>
    ensures exact { result ≢ Err Memory → result ≡ load_outcome name.now replica limit found }
    // What is loaded of a text shows that text.
    ensures shown { IfOk result (λ o. found.log ≡ None → IfSome found.text
        (λ bytes. text_bytes o.0.buffer.content ≡ bytes)) }
    ensures memory { result ≡ Err Memory → MayWantMemory replica limit found }
{
    check_opening(replica, limit)?;
    let Found { log, text } = found;
    if let Some(log) = log {
        return load_log(alloc, name, replica, limit, &log);
    }
    if let Some(text) = text {
        return load_text(alloc, name, replica, limit, &text);
    }
    let doc = empty_doc(alloc, replica, limit)?;
    let name = String::from_str(alloc, name)?;
    let buffer = Buffer::new(alloc, doc, name, Vec::new(alloc));
    Ok((VisitedBuffer::new(buffer, false), LogEnd::Whole))
}

/// Whether there are buffers of such a replica with such a limit. Takes no memory.
fn check_opening(replica: u16, limit: usize) -> Result<(), LoadFault>
    ensures { result ≡ opening_answer replica limit }
{
    if replica == 0 {
        return Err(LoadFault::Store(Refusal::BadId));
    }
    if limit == 0 || limit > MAX_LIMIT {
        return Err(LoadFault::Store(Refusal::Range));
    }
    Ok(())
}

/// A document that holds nothing.
fn empty_doc<S: TextStore>(alloc: Global, replica: u16, limit: usize) -> Result<Doc<S>, LoadFault>
    requires { opening_answer replica limit ≡ Ok tt }
    ensures { MatchResult result
        (λ doc. doc ≡ document nothing limit replica false) (λ e. e ≡ Memory) }
{
    let store = S::new(alloc, limit)?;
    Ok(Doc::new(alloc, store, replica)?)
}

/// The buffer of a log.
fn load_log<S: TextStore>(
    alloc: Global,
    name: &str,
    replica: u16,
    limit: usize,
    bytes: &[u8],
) -> Result<(VisitedBuffer<S>, LogEnd), LoadFault>
    requires { opening_answer replica limit ≡ Ok tt }
    ensures { result ≢ Err Memory →
        result ≡ opened_and_end name.now replica limit (log_loaded limit bytes.now) }
{
    let mut doc = empty_doc(alloc, replica, limit)?;
    let mut reader = Counted::new(bytes);
    let end = read_log(alloc, &mut doc, &mut reader)?;
    let name = String::from_str(alloc, name)?;
    let buffer = Buffer::new(alloc, doc, name, Vec::new(alloc));
    Ok((VisitedBuffer::new(buffer, end != LogEnd::Whole), end))
}

/// The buffer of a text. What is no text is found before memory is asked for.
fn load_text<S: TextStore>(
    alloc: Global,
    name: &str,
    replica: u16,
    limit: usize,
    bytes: &[u8],
) -> Result<(VisitedBuffer<S>, LogEnd), LoadFault>
    requires { opening_answer replica limit ≡ Ok tt }
    ensures exact { result ≢ Err Memory → result
        ≡ opened_and_end name.now replica limit (text_loaded replica limit bytes.now) }
    ensures shown { IfOk result (λ o. text_bytes o.0.buffer.content ≡ bytes.now) }
    ensures memory { result ≡ Err Memory → is_utf8 bytes.now ≡ true }
{
    let put = characters_of(alloc, bytes)?;
    let mut doc = empty_doc(alloc, replica, limit)?;
    let ops = doc.splice(0, 0, &put)?;
    let name = String::from_str(alloc, name)?;
    let buffer = Buffer::new(alloc, doc, name, ops);
    Ok((VisitedBuffer::new(buffer, false), LogEnd::Whole))
}

/// The characters of a text. What is no text is found before memory is asked for.
fn characters_of(alloc: Global, bytes: &[u8]) -> Result<Vec<char>, LoadFault>
    ensures { MatchResult result
        (λ put. (put.items ≡ chars bytes.now) × (is_utf8 bytes.now ≡ true))
        (λ e. ((e ≡ NotText) × (is_utf8 bytes.now ≡ false))
        ⊎ ((e ≡ Memory) × (is_utf8 bytes.now ≡ true))) }
{
    let Ok(text) = str::from_utf8(bytes) else {
        return Err(LoadFault::NotText);
    };
    Ok(text.chars().collect(alloc)?)
}
