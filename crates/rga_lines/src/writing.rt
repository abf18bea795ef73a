//! Lines written: the one spelling of an operation, of a run of either kind, and of the head and the
//! end of an exchange.
ghost use Rattle.std.specs.Prelude.{◌≡◌, ◌++◌, ◌<◌, codes, decimal, Ok, IfOk, IfErr, OnOk, string_bytes};
ghost use Rattle.std.specs.Char.{IsScalar};
ghost use Rattle.rga_ops.specs.Operation.{checked};
ghost use Rattle.rga_ops.specs.declared.op.Op.TheVariants.{Insert, Delete};
ghost use Rattle.std.specs.List.{flat_map, AllByRecursion};
ghost use Rattle.rga_lines.specs.Runs.{IsRun};
ghost use Rattle.rga_lines.specs.Spelling.{code_escape, escaped, pair_text, line, run_line};
ghost use Rattle.rga_lines.specs.Spelling.{deletion_run_line, head_line, end_line};
ghost use Rattle.rga_lines.specs.Spelling.{IsWritableRun};
ghost use Rattle.rga_lines.specs.Spelling.{IsElementOrRoot, IsWritable};

use crate::pieces::{hex_digit, short_escape};
use crate::{DeletionRun, Run};
use itoa::Buffer;
use rga_ops::{Id, Op, OutOfMemory};
use std::alloc::{AllocError, Global};

/// Room for any line that is written, the text of a run aside. The longest is an insertion's: 38
/// bytes of names and marks, an escape of 6, and two identifiers of 24.
const ROOM: usize = 92;

/// The line of an operation without its newline, as `line` of `specs/Spelling.antt` has it: no
/// blanks, the members by their names, and escapes only where JSON (RFC 8259, section 7) asks for
/// them. `Memory` is the only refusal.
pub fn write_line(alloc: Global, op: &Op) -> Result<String, OutOfMemory>
    ensures ok { IfOk result (λ s. string_bytes s ≡ line op.now) }
    // What `Op::check` accepts is written so that it can be read back.
    ensures writable { OnOk result (checked op.now ≡ Ok tt → IsWritable op.now) }
{
    let mut text = String::with_capacity(alloc, ROOM)?;
    push_line(&mut text, op)?;
    Ok(text)
}

/// The line of a run without its newline, as `run_line` of `specs/Spelling.antt` has it. `read_any`
/// gives back any that it gives: of 1 to 4096 characters, with a last counter in range and a
/// counter above the parent's. `Memory` is the only refusal.
pub fn write_run(alloc: Global, run: &Run) -> Result<String, OutOfMemory>
    ensures ok { IfOk result (λ s. string_bytes s ≡ run_line run.now) }
    // A run that `read_any` may give is written so that it can be read back.
    ensures writable { OnOk result (IsRun run.now → IsWritableRun run.now) }
{
    let mut text = String::with_capacity(alloc, ROOM + run.chars.len())?;
    push_run(&mut text, run)?;
    Ok(text)
}

/// The line of a run of deletions without its newline, as `deletion_run_line` of
/// `specs/Spelling.antt` has it. `read_any` gives back any that it gives. `Memory` is the only
/// refusal.
#[tactic(auto, unfolding(crate::specs::Spelling::deletion_run_line))]
pub fn write_deletion_run(alloc: Global, run: &DeletionRun) -> Result<String, OutOfMemory>
    ensures ok { IfOk result (λ s. string_bytes s ≡ deletion_run_line run.now) }
{
    let mut text = String::with_capacity(alloc, ROOM)?;
    push_count(&mut text, run.count)?;
    push_id(&mut text, ",\"id\":", &run.id)?;
    text.push_str(",\"op\":\"dels\"}")?;
    Ok(text)
}

/// Characters as they stand between quotes.
fn push_all(text: &mut String, chars: &[char]) -> Result<(), AllocError>
    ensures ok { OnOk result
        (string_bytes text.new ≡ string_bytes text.old ++ flat_map escaped chars.now) }
    ensures scalars { OnOk result (AllByRecursion IsScalar chars.now) }
{
    let mut rest = chars;
    'chars: while let Some((ch, behind)) = rest.split_first() {
        push_escaped(text, *ch)?;
        rest = behind;
    }
    Ok(())
}

/// The line that begins an exchange, without its newline: it names the version of the lines.
/// `Memory` is the only refusal.
#[tactic(auto, unfolding(crate::specs::Spelling::head_line))]
pub fn write_head(alloc: Global) -> Result<String, OutOfMemory>
    ensures ok { IfOk result (λ s. string_bytes s ≡ head_line) }
{
    let mut text = String::with_capacity(alloc, ROOM)?;
    text.push_str("{\"op\":\"head\",\"version\":2}")?;
    Ok(text)
}

/// The line that ends an exchange of so many operations, without its newline. `Memory` is the only
/// refusal.
#[tactic(auto, unfolding(crate::specs::Spelling::end_line))]
pub fn write_end(alloc: Global, count: u64) -> Result<String, OutOfMemory>
    ensures ok { IfOk result (λ s. string_bytes s ≡ end_line count) }
{
    let mut text = String::with_capacity(alloc, ROOM)?;
    push_count(&mut text, count)?;
    text.push_str(",\"op\":\"end\"}")?;
    Ok(text)
}

/// Adds the line of an operation.
fn push_line(text: &mut String, op: &Op) -> Result<(), AllocError>
    ensures ok { OnOk result (string_bytes text.new ≡ string_bytes text.old ++ line op.now) }
    ensures writable { OnOk result (checked op.now ≡ Ok tt → IsWritable op.now) }
{
    match op {
        Op::Insert { id, parent, ch } => push_insertion(text, id, parent, *ch),
        Op::Delete { id } => push_deletion(text, id),
    }
}

#[tactic(auto, using(crate::proofs::WritableLemmas::insertion_writable), unfolding(crate::specs::Spelling::line))]
fn push_insertion(text: &mut String, id: &Id, parent: &Id, ch: char) -> Result<(), AllocError>
    ensures ok { OnOk result
        (string_bytes text.new ≡ string_bytes text.old ++ line (Insert id.now parent.now ch)) }
    ensures writable { let op = Insert id.now parent.now ch in
        OnOk result (checked op ≡ Ok tt → IsWritable op) }
{
    text.push_str("{\"char\":\"")?;
    push_escaped(text, ch)?;
    push_id(text, "\",\"id\":", id)?;
    push_id(text, ",\"op\":\"ins\",\"parent\":", parent)?;
    text.push_str("}")
}

#[tactic(auto, using(crate::proofs::WritableLemmas::deletion_writable), unfolding(crate::specs::Spelling::line))]
fn push_deletion(text: &mut String, id: &Id) -> Result<(), AllocError>
    ensures ok { OnOk result
        (string_bytes text.new ≡ string_bytes text.old ++ line (Delete id.now)) }
    ensures writable { OnOk result (checked (Delete id.now) ≡ Ok tt → IsWritable (Delete id.now)) }
{
    push_id(text, "{\"id\":", id)?;
    text.push_str(",\"op\":\"del\"}")
}

/// Adds the line of a run.
#[tactic(auto, unfolding(crate::specs::Spelling::run_line))]
fn push_run(text: &mut String, run: &Run) -> Result<(), AllocError>
    ensures ok { OnOk result (string_bytes text.new ≡ string_bytes text.old ++ run_line run.now) }
    ensures writable { OnOk result (IsRun run.now → IsWritableRun run.now) }
{
    push_id(text, "{\"id\":", &run.id)?;
    push_id(text, ",\"op\":\"run\",\"parent\":", &run.parent)?;
    text.push_str(",\"text\":\"")?;
    push_all(text, &run.chars)?;
    text.push_str("\"}")?;
    Ok(())
}

/// Adds the brace that opens a line, and its member that is a count.
fn push_count(text: &mut String, count: u64) -> Result<(), AllocError>
    ensures { OnOk result (string_bytes text.new
        ≡ string_bytes text.old ++ (codes "{\"count\":" ++ decimal count)) }
{
    let mut digits = Buffer::new();
    text.push_str("{\"count\":")?;
    text.push_str(digits.format(count))
}

/// Adds what names an identifier, and the identifier as two numbers between brackets.
fn push_id(text: &mut String, name: &str, id: &Id) -> Result<(), AllocError>
    ensures ok { OnOk result
        (string_bytes text.new ≡ string_bytes text.old ++ (name.now ++ pair_text id.now)) }
    ensures identifier { OnOk result (IsElementOrRoot id.now) }
{
    let mut digits = Buffer::new();
    text.push_str(name)?;
    text.push_str("[")?;
    text.push_str(digits.format(id.counter()))?;
    text.push_str(",")?;
    text.push_str(digits.format(id.replica()))?;
    text.push_str("]")
}

/// A character as it stands between quotes.
fn push_escaped(text: &mut String, ch: char) -> Result<(), AllocError>
    ensures { OnOk result (string_bytes text.new ≡ string_bytes text.old ++ escaped ch) }
{
    match short_escape(ch) {
        Some(escape) => text.push_str(escape),
        None if ch < ' ' => push_code(text, ch),
        None => text.push(ch),
    }
}

/// A character below the space as its code in hexadecimal digits.
fn push_code(text: &mut String, ch: char) -> Result<(), AllocError>
    requires { ch < 32 }
    ensures { OnOk result (string_bytes text.new ≡ string_bytes text.old ++ code_escape ch) }
{
    let code = u32::from(ch);
    text.push_str("\\u00")?;
    text.push(hex_digit(code / 16))?;
    text.push(hex_digit(code % 16))
}
