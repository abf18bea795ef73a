//! The lines of a mended log that a note has room for.
ghost use Rattle.std.specs.Prelude.{◌≡◌, ◌++◌, not, is_ok, if◌then◌else◌, IfOk, OnOk};
ghost use Rattle.rga_ops.specs.Content.{content_of, join, nothing};
ghost use Rattle.rga_ops.specs.ListAnswer.{list_answer};
ghost use Rattle.rga_exchange.specs.Sending.{AreWritable};
ghost use Rattle.mgr_mend.specs.Mending.{whole_operations};
ghost use Rattle.mgr_mend.specs.Fitting.{after_line, all_left_out, all_refused, excess, excess_count};
ghost use Rattle.mgr_mend.specs.Fitting.{fits, fitted, fitting, line_if, note_lines, rest_line, with_excess};

use crate::mended::{LeftOut, Mended, mend_log, one_if};
use crate::reading::read_line;
use memchr::memchr;
use rga_ops::{Op, OutOfMemory, Refusal};
use rga_records::Records;
use rga_store::{MAX_LIMIT, Taker};
use std::alloc::Global;

/// Mends the bytes of a log as `mend_log` does, for a note, which knows at most 1,000,000
/// identifiers.
///
/// A line of the mended log with which it would know more is left out whole, and stands in front of
/// what else was left out; those after it that fit stay. Each line that stays ends in a newline. Out
/// of memory alone.
pub fn mend_for_note(alloc: Global, bytes: &[u8]) -> Result<Mended, OutOfMemory>
    ensures log { IfOk result (λ m. m.log.items ≡ fitted bytes.now) }
    ensures refused { IfOk result (λ m. m.refused.items ≡ all_refused bytes.now) }
    ensures left_out { IfOk result (λ m. m.left_out ≡ all_left_out bytes.now) }
    // So the theorems of `laws` hold of it.
    ensures writable { OnOk result (AreWritable (whole_operations bytes.now)) }
{
    let mended = mend_log(alloc, bytes)?;
    fit_lines(alloc, &mended)
}

/// Takes the lines of a mended log into an empty note, in order, as far as there is room.
fn fit_lines(alloc: Global, mended: &Mended) -> Result<Mended, OutOfMemory>
    ensures log { IfOk result (λ m. m.log.items
        ≡ fitting nothing (note_lines mended.now.log.items)) }
    ensures refused { IfOk result (λ m. m.refused.items
        ≡ excess nothing (note_lines mended.now.log.items) ++ mended.now.refused.items) }
    ensures left_out { IfOk result (λ m. m.left_out
        ≡ with_excess (excess_count nothing (note_lines mended.now.log.items))
        mended.now.left_out) }
{
    let mut note = empty_note(alloc)?;
    let mut log = Vec::new(alloc);
    let mut refused = Vec::new(alloc);
    let mut ops = Vec::new(alloc);
    let mut excess = 0u64;
    let mut rest = mended.log.as_slice();
    'lines: while let Some(end) = memchr(b'\n', rest) {
        let (line, _) = rest.split_at(end);
        let (_, behind) = rest.split_at(end + 1);
        let fits = fit_line(alloc, &mut note, &mut log, &mut refused, &mut ops, line)?;
        excess += one_if(!fits);
        rest = behind;
    }
    excess += fit_rest(alloc, &mut note, &mut log, &mut refused, &mut ops, rest)?;
    refused.extend_from_slice(&mended.refused)?;
    let left_out = with_excess(mended.left_out, excess);
    Ok(Mended {
        log,
        refused,
        left_out,
    })
}

/// What a note has that has nothing yet.
fn empty_note(alloc: Global) -> Result<Records, OutOfMemory>
    ensures content { IfOk result (λ note. note.content ≡ nothing) }
    ensures limit { IfOk result (λ note. note.limit ≡ 1000000) }
{
    match Records::new(alloc, MAX_LIMIT) {
        Ok(note) => Ok(note),
        Err(refused) => Err(refused.memory()),
    }
}

fn with_excess(left_out: LeftOut, excess: u64) -> LeftOut
    ensures { result ≡ with_excess excess left_out }
{
    LeftOut { excess, ..left_out }
}

/// The same as `fit_line` of a rest, if there is any. Answers how many lines have no room.
fn fit_rest(
    alloc: Global,
    note: &mut Records,
    log: &mut Vec<u8>,
    refused: &mut Vec<u8>,
    ops: &mut Vec<Op>,
    rest: &[u8],
) -> Result<u64, OutOfMemory>
    requires { note.old.limit ≡ 1000000 }
    ensures log { OnOk result (log.new.items
        ≡ log.old.items ++ fitting note.old.content (rest_line rest.now)) }
    ensures refused { OnOk result (refused.new.items
        ≡ refused.old.items ++ excess note.old.content (rest_line rest.now)) }
    ensures count { IfOk result (λ count. count
        ≡ excess_count note.old.content (rest_line rest.now)) }
{
    if rest.is_empty() {
        return Ok(0);
    }
    let fits = fit_line(alloc, note, log, refused, ops, rest)?;
    Ok(one_if(!fits))
}

/// Puts a line with a newline into the log, if a note has room for its operations, which it takes;
/// else among what is refused. Answers which. What stands in the last list counts for nothing.
fn fit_line(
    alloc: Global,
    note: &mut Records,
    log: &mut Vec<u8>,
    refused: &mut Vec<u8>,
    ops: &mut Vec<Op>,
    line: &[u8],
) -> Result<bool, OutOfMemory>
    requires { note.old.limit ≡ 1000000 }
    ensures fits { IfOk result (λ test. test ≡ fits note.old.content line.now) }
    ensures content { OnOk result (note.new.content ≡ after_line note.old.content line.now) }
    ensures limit { note.new.limit ≡ note.old.limit }
    ensures log { OnOk result (log.new.items
        ≡ log.old.items ++ line_if (fits note.old.content line.now) line.now) }
    ensures refused { OnOk result (refused.new.items
        ≡ refused.old.items ++ line_if (not (fits note.old.content line.now)) line.now) }
{
    read_line(alloc, ops, line)?;
    let fits = take_all(note, ops)?;
    put_line_if(log, fits, line)?;
    put_line_if(refused, !fits, line)?;
    Ok(fits)
}

/// Takes all operations into a note, or none, where there is no room for all. Answers which.
fn take_all(note: &mut Records, ops: &[Op]) -> Result<bool, OutOfMemory>
    ensures taken { IfOk result (λ taken. taken
        ≡ is_ok (list_answer note.old.limit note.old.content ops.now)) }
    ensures content { IfOk result (λ taken. note.new.content
        ≡ (if taken then join note.old.content (content_of ops.now) else note.old.content)) }
    ensures limit { note.new.limit ≡ note.old.limit }
{
    match note.apply_all(ops) {
        Ok(()) => Ok(true),
        Err(Refusal::Memory(memory)) => Err(memory),
        Err(_) => Ok(false),
    }
}

/// Puts a line with a newline, if that is to be.
fn put_line_if(bytes: &mut Vec<u8>, test: bool, line: &[u8]) -> Result<(), OutOfMemory>
    ensures { OnOk result (bytes.new.items ≡ bytes.old.items ++ line_if test line.now) }
{
    if test {
        bytes.extend_from_slice(line)?;
        bytes.push(b'\n')?;
    }
    Ok(())
}
