//! A log mended, with what was left out of it.
ghost use Rattle.std.specs.Prelude.{◌≡◌, ◌++◌, ◌∷◌, [], ◌&&◌, ◌==◌, ◌<◌, Some, not, map, length, slice_get, IfOk, OnOk};
ghost use Rattle.rga_exchange.specs.Sending.{log_text, AreWritable};
ghost use Rattle.rga_lines.specs.Spelling.{line};
ghost use Rattle.rga_lines.specs.Stream.{newline};
ghost use Rattle.mgr_mend.specs.Mending as spec;
ghost use Rattle.mgr_mend.specs.Parts.{any_beaten, counts_of, judged as spec_judged, judged_fate, staying};

use crate::fate::Fate;
use crate::judging::{Judged, judge};
use crate::reading::read_operations;
use memchr::memchr;
use rga_lines::write_line;
use rga_ops::{Op, OutOfMemory};
use std::alloc::Global;

/// What was left out of a log, in lines.
#[derive(Clone, Copy, PartialEq, Eq)]
pub struct LeftOut {
    /// Whole lines that are no operation.
    pub faulty: u64,
    /// Lines, or the rest, with an insertion in whose place another one is kept.
    pub beaten: u64,
    /// Whether what stands behind the last newline is no operation: a line that was cut off.
    pub torn: bool,
    /// Lines that a note has no room for: it would know more than 1,000,000 identifiers.
    pub excess: u64,
}

/// A mended log.
#[derive(Drop)]
pub struct Mended {
    /// What stays: operations alone, and no two insertions of one identifier that differ.
    pub log: Vec<u8>,
    /// The bytes that were left out, in order.
    pub refused: Vec<u8>,
    /// What they were.
    pub left_out: LeftOut,
}

/// Mends the bytes of a log.
///
/// A whole line that is an operation or a run of operations stays as it is, and so does the rest
/// after the last newline. Each other line is left out, and a rest that is none was cut off. Of
/// insertions of one identifier that differ that one stays whose line, as `write_line` writes it,
/// is the least, byte by byte. A line with one that does not stay is left out; in its place stand
/// the lines of its other operations, each with its newline. Out of memory alone.
pub fn mend_log(alloc: Global, bytes: &[u8]) -> Result<Mended, OutOfMemory>
    ensures log { IfOk result (λ m. m.log.items ≡ spec.mended bytes.now) }
    ensures refused { IfOk result (λ m. m.refused.items ≡ spec.refused_of bytes.now) }
    ensures left_out { IfOk result (λ m. m.left_out ≡ spec.left_out_of bytes.now) }
    // So the theorems of `laws` hold of it.
    ensures writable { OnOk result (AreWritable (spec.whole_operations bytes.now)) }
{
    let read = read_operations(alloc, bytes)?;
    let judged = judge(alloc, &read.ops)?;
    mend_lines(alloc, bytes, &read.counts, &judged)
}

/// The same by how many operations each line has, and the rest as one more, and by all operations.
fn mend_lines(
    alloc: Global,
    bytes: &[u8],
    counts: &[Option<usize>],
    judged: &[Judged],
) -> Result<Mended, OutOfMemory>
    requires counts { counts.now ≡ counts_of (spec.all_lines bytes.now) }
    requires judged { let all = spec.whole_operations bytes.now in
        judged.now ≡ map (spec_judged all) all }
    ensures log { IfOk result (λ m. m.log.items ≡ spec.mended bytes.now) }
    ensures refused { IfOk result (λ m. m.refused.items ≡ spec.refused_of bytes.now) }
    ensures left_out { IfOk result (λ m. m.left_out ≡ spec.left_out_of bytes.now) }
{
    let mut log = Vec::new(alloc);
    let mut refused = Vec::new(alloc);
    let mut faulty = 0u64;
    let mut beaten = 0u64;
    let mut rest = bytes;
    let mut later_counts = counts;
    let mut later = judged;
    'lines: while let Some(end) = memchr(b'\n', rest) {
        let (part, behind) = rest.split_at(end + 1);
        let count = first_count(later_counts);
        let (_, counts_behind) = later_counts.split_at(1);
        let (own, judged_behind) = later.split_at(count.unwrap_or(0));
        let fate = put_part(alloc, &mut log, &mut refused, part, count, own)?;
        faulty += one_if(fate.is_faulty());
        beaten += one_if(fate.is_beaten());
        rest = behind;
        later_counts = counts_behind;
        later = judged_behind;
    }
    let count = first_count(later_counts);
    let fate = put_part(alloc, &mut log, &mut refused, rest, count, later)?;
    let left_out = LeftOut {
        faulty,
        beaten: beaten + one_if(fate.is_beaten()),
        torn: is_torn(fate, rest),
        excess: 0,
    };
    Ok(Mended {
        log,
        refused,
        left_out,
    })
}

/// The first of some numbers of operations.
fn first_count(counts: &[Option<usize>]) -> Option<usize>
    requires { 0 < length counts.now }
    ensures { slice_get counts.now 0 ≡ Some result }
{
    counts[0]
}

/// Whether a rest with this fate was cut off.
fn is_torn(fate: Fate, rest: &[u8]) -> bool
    ensures { result ≡ (spec.is_faulty fate && not (length rest.now == 0)) }
{
    if rest.is_empty() {
        return false;
    }
    fate.is_faulty()
}

pub(crate) fn one_if(test: bool) -> u64
    ensures { result ≡ spec.one_if test }
{
    if test { 1 } else { 0 }
}

/// Puts a line with its newline, or the rest, into the log or among what is left out.
fn put_part(
    alloc: Global,
    log: &mut Vec<u8>,
    refused: &mut Vec<u8>,
    part: &[u8],
    count: Option<usize>,
    own: &[Judged],
) -> Result<Fate, OutOfMemory>
    ensures fate { IfOk result (λ fate. fate ≡ judged_fate count own.now) }
    ensures log { IfOk result (λ fate. log.new.items
        ≡ log.old.items ++ spec.mended_as fate part.now (staying own.now)) }
    ensures refused { IfOk result (λ fate. refused.new.items
        ≡ refused.old.items ++ spec.refused_as fate part.now) }
{
    let fate = fate_of(count, own);
    match fate {
        Fate::Kept => log.extend_from_slice(part)?,
        Fate::Beaten => {
            put_staying(alloc, log, own)?;
            refused.extend_from_slice(part)?;
        }
        Fate::Faulty => refused.extend_from_slice(part)?,
    }
    Ok(fate)
}

/// What becomes of a line with so many operations.
fn fate_of(count: Option<usize>, own: &[Judged]) -> Fate
    ensures { result ≡ judged_fate count own.now }
{
    if count.is_none() {
        return Fate::Faulty;
    }
    if has_beaten(own) {
        Fate::Beaten
    } else {
        Fate::Kept
    }
}

/// Whether one of them is beaten.
fn has_beaten(own: &[Judged]) -> bool
    ensures { result ≡ any_beaten own.now }
{
    own.iter().any(|judged| judged.beaten)
}

/// Puts the lines of the operations that are not beaten.
fn put_staying(alloc: Global, log: &mut Vec<u8>, own: &[Judged]) -> Result<(), OutOfMemory>
    ensures { OnOk result (log.new.items ≡ log.old.items ++ log_text (staying own.now)) }
{
    let mut rest = own;
    'staying: while let Some((judged, behind)) = rest.split_first() {
        if !judged.beaten {
            put_line(alloc, log, &judged.op)?;
        }
        rest = behind;
    }
    Ok(())
}

/// Puts the line of an operation, with its newline.
fn put_line(alloc: Global, log: &mut Vec<u8>, op: &Op) -> Result<(), OutOfMemory>
    ensures { OnOk result (log.new.items ≡ log.old.items ++ (line op.now ++ newline ∷ [])) }
{
    let line = write_line(alloc, op)?;
    log.extend_from_slice(line.as_bytes())?;
    log.push(b'\n')?;
    Ok(())
}
