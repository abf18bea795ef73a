//! Lines that are spelled as `specs/Spelling.antt` has it, with no blanks and the members by their
//! names, read with no value of JSON in between. What is spelled otherwise is left to others.
ghost use Rattle.std.specs.Prelude.{◌≡◌, true, Ok, IfOk, IfErr, IfSome};
ghost use Rattle.rga_lines.specs.Log.{SaysRun};
ghost use Rattle.rga_lines.specs.Spelling.{BeginsWithLine, ReadsInsertions};
ghost use Rattle.rga_lines.specs.Table.{any_line_at};
ghost use Rattle.rga_lines.specs.declared.line.Line.TheVariants.{One, Deletions};

use crate::spelled_parts::{after_literal, character, id_after, is_literal, number};
use crate::{DeletionRun, Line, MAX_RUN};
use rga_ops::{Id, Op, OutOfMemory};

/// What the bytes of a line say, where they are so spelled. `None` says nothing of the line: it may
/// be spelled otherwise, or be that of a run of insertions, which `read_insertions` reads.
pub(crate) fn spelled(bytes: &[u8]) -> Option<Line>
    ensures { IfSome result (λ line. any_line_at bytes.now ≡ Ok line) }
{
    if let Some(op) = spelled_insertion(bytes) {
        return Some(Line::One(op));
    }
    if let Some(deletion) = read_deletion(bytes) {
        return Some(Line::One(deletion));
    }
    Some(Line::Deletions(spelled_deletions(bytes)?))
}

/// The insertion that the bytes of a line say, where they are so spelled.
fn spelled_insertion(bytes: &[u8]) -> Option<Op>
    ensures { IfSome result (λ op. any_line_at bytes.now ≡ Ok (One op)) }
{
    if let Some((op, rest)) = insertion_at(bytes)
        && rest.is_empty()
    {
        return Some(op);
    }
    None
}

/// The insertion whose line the bytes begin with, where it is so spelled, and what stands behind
/// that line.
#[inline(always)]
pub(crate) fn insertion_at(bytes: &[u8]) -> Option<(Op, &[u8])>
    ensures { IfSome result (λ p. BeginsWithLine bytes.now p.0 p.1.now) }
{
    if let Some(rest) = after_literal(bytes, b"{\"char\":\"")
        && let Some((ch, rest)) = character(rest)
        && let Some((id, rest)) = id_after(rest, b"\",\"id\":")
        && let Some((parent, rest)) = id_after(rest, b",\"op\":\"ins\",\"parent\":")
        && let Some(rest) = after_literal(rest, b"}")
    {
        let op = Op::Insert { id, parent, ch };
        op.check().ok()?;
        return Some((op, rest));
    }
    None
}

/// The run of deletions that the bytes of a line say, where they are so spelled.
fn spelled_deletions(bytes: &[u8]) -> Option<DeletionRun>
    ensures { IfSome result (λ run. any_line_at bytes.now ≡ Ok (Deletions run)) }
{
    if let Some(rest) = after_literal(bytes, b"{\"count\":")
        && let Some((count, rest)) = number(rest)
        && let Some((id, rest)) = id_after(rest, b",\"id\":")
        && is_literal(rest, b",\"op\":\"dels\"}")
        && id.counter() > 0
        && count > 0
        && count <= MAX_RUN as u64
        && id.counter() + count <= Id::MAX_COUNTER + 1
    {
        return Some(DeletionRun { id, count });
    }
    None
}

/// The deletion that the bytes of a line say, where they are spelled as `write_line` spells it.
/// `None` says nothing of the line.
pub fn read_deletion(bytes: &[u8]) -> Option<Op>
    ensures { IfSome result (λ op. any_line_at bytes.now ≡ Ok (One op)) }
{
    // The line of a run begins as that of a deletion does.
    if bytes.ends_with(b":\"del\"}")
        && let Some((id, rest)) = id_after(bytes, b"{\"id\":")
        && is_literal(rest, b",\"op\":\"del\"}")
        && id.counter() > 0
    {
        return Some(Op::Delete { id });
    }
    None
}

/// Reads the insertions of a run into the list, in place of what stood there, where the bytes of
/// its line are spelled as `write_run` spells them. `false` says nothing of the line, whatever then
/// stands in the list. A list that has the places for them takes no memory; `Memory` is the only
/// refusal.
pub fn read_insertions(ops: &mut Vec<Op>, bytes: &[u8]) -> Result<bool, OutOfMemory>
    ensures said { IfOk result (λ read. read ≡ true → SaysRun bytes.now ops.new.items) }
{
    let Some((id, rest)) = id_after(bytes, b"{\"id\":") else {
        return Ok(false);
    };
    let Some((parent, rest)) = id_after(rest, b",\"op\":\"run\",\"parent\":") else {
        return Ok(false);
    };
    let Some(text) = after_literal(rest, b",\"text\":\"") else {
        return Ok(false);
    };
    let read = characters(ops, id, parent, text)?;
    let count = ops.len();
    if count == 0
        || count > MAX_RUN
        || id.counter() + count as u64 > Id::MAX_COUNTER + 1
        || id.counter() <= parent.counter()
    {
        return Ok(false);
    }
    Ok(read)
}

/// Reads the insertions of the characters of a run into the list, by what stands behind the quote
/// that opens its text. `false` also where a counter is out of range.
fn characters(ops: &mut Vec<Op>, id: Id, parent: Id, bytes: &[u8]) -> Result<bool, OutOfMemory>
    ensures read { IfOk result (λ read. read ≡ true
        → ReadsInsertions id parent bytes.now ops.new.items) }
{
    ops.clear();
    let replica = id.replica();
    let mut counter = id.counter();
    let mut above = parent;
    let mut rest = bytes;
    'chars: while let Some((ch, behind)) = character(rest) {
        let Ok(id) = Id::new(counter, replica) else {
            return Ok(false);
        };
        let op = Op::Insert {
            id,
            parent: above,
            ch,
        };
        ops.push(op)?;
        above = id;
        counter += 1;
        rest = behind;
    }
    Ok(is_literal(rest, b"\"}"))
}
