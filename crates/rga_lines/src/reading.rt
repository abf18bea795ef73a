//! What the bytes of a line say.
ghost use Rattle.std.specs.Prelude.{◌≡◌, ◌≢◌, ◌<◌, length, Ok, Err};
ghost use Rattle.rga_lines.specs.Table.{operation_alone, any_line_at, line_at, longest_line};
ghost use Rattle.rga_lines.specs.declared.fault.LineFault.TheVariants.{Long};
ghost use Rattle.rga_lines.specs.Memory.{LineMemory as Memory};

use crate::fault::of_json;
use crate::spelled::spelled;
use crate::{Line, LineFault, MAX_LINE, line_of};
use rga_ops::Op;
use serde_json::Value;
use std::alloc::Global;

/// What a line says, given without its newline: a JSON object (RFC 8259), in any spelling, with
/// exactly the members of one of
///
/// ```text
/// {"char":"a","id":[1,2],"op":"ins","parent":[0,0]}
/// {"id":[1,2],"op":"del"}
/// {"id":[1,2],"op":"run","parent":[0,0],"text":"hello"}
/// {"count":5,"id":[1,2],"op":"dels"}
/// {"op":"head","version":2}
/// {"count":2,"op":"end"}
/// ```
///
/// A run stands for insertions of rising counters, each after the one before it: here of (1,2)
/// after the root to (5,2) after (4,2). A run of deletions stands for those of so many elements with
/// rising counters: here of (1,2) to (5,2). The head names the version of the lines, which is 2.
///
/// Where a member is named twice its last value counts. The faults are answered in the order that
/// `LineFault` tells. `Long` takes no memory.
pub fn read_any(alloc: Global, bytes: &[u8]) -> Result<Line, LineFault>
    ensures exact { result ≢ Err Memory → result ≡ any_line_at bytes.now }
    ensures long { longest_line < length bytes.now → result ≡ Err Long }
{
    if bytes.len() > MAX_LINE {
        return Err(LineFault::Long);
    }
    if let Some(line) = spelled(bytes) {
        return Ok(line);
    }
    match Value::from_slice(alloc, bytes) {
        Ok(value) => line_of(alloc, &value),
        Err(error) => match of_json(&error) {
            Some(memory) => Err(LineFault::Memory(memory)),
            None => Err(LineFault::Json),
        },
    }
}

/// The operation that a line says, given without its newline: what `read_any` gives, but `Kind`
/// for a run of either kind and for the head and the end of an exchange.
pub fn read_line(alloc: Global, bytes: &[u8]) -> Result<Op, LineFault>
    ensures exact { result ≢ Err Memory → result ≡ line_at bytes.now }
    ensures long { longest_line < length bytes.now → result ≡ Err Long }
{
    let line = read_any(alloc, bytes)?;
    alone(&line)
}

/// The operation that the line is, where one alone may stand.
fn alone(line: &Line) -> Result<Op, LineFault>
    ensures { result ≡ operation_alone (Ok line.now) }
{
    match line {
        Line::One(op) => Ok(*op),
        Line::Run(_) | Line::Deletions(_) | Line::Head | Line::Last(_) => Err(LineFault::Kind),
    }
}
