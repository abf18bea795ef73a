//! What the bytes of a report's line say.
ghost use Rattle.std.specs.Prelude.{◌≡◌, ◌≢◌, ◌<◌, length, Err, IfOk};
ghost use Rattle.rga_lines.specs.declared.fault.LineFault.TheVariants.{Long};
ghost use Rattle.rga_lines.specs.Memory.{LineMemory as Memory};
ghost use Rattle.mg_events.specs.Reports.{report_at, HasSoundRun};

use crate::report::Report;
use crate::values::{operations_report, report_of};
use rga_lines::{LineFault, of_json, read_any};
use serde_json::Value;
use std::alloc::Global;

/// What the line of a report says, given without its newline: a JSON object (RFC 8259), in any
/// spelling, with exactly the members of one of
///
/// ```text
/// {"char":"a","id":[1,2],"op":"ins","parent":[0,0]}
/// {"id":[1,2],"op":"del"}
/// {"id":[1,2],"op":"run","parent":[0,0],"text":"hello"}
/// {"count":5,"id":[1,2],"op":"dels"}
/// {"op":"paste","text":"hello"}
/// {"base":7,"hi":3,"lo":0,"op":"splice","text":"hello"}
/// {"cols":80,"op":"size","rows":24}
/// {"op":"places","places":[[7,1],[12,2],[0,0]]}
/// {"op":"rest"}
/// ```
///
/// The first four are those of a log. `"more":true` or `"more":false` may stand in `paste` and in
/// `splice`; left out it is false. The numbers are whole and below 2^64, and places are identifiers
/// or the root, [0,0]. Where a member is named twice its last value counts.
///
/// Where several faults hold, the one that is tested first is answered: `Long` for more than
/// `MAX_LINE` bytes; `Json`; `Kind` where the value is no object; `Member` where it has no `op`;
/// `Kind` where `op` is no text, is unknown, or is `head` or `end`; `Member` where a member is absent
/// or a further one is there; `Kind` where a member has the wrong type, as a place that is no array;
/// `Id` where a place is not exactly two numbers in range; of the four of a log `Id`, `Char` and
/// `Order` as `read_any` says. `Memory` comes last: only where a growth was refused. `Long` takes no
/// memory.
///
/// A run that it gives has 1 to `MAX_RUN` operations, and counters in range.
pub fn read_report(alloc: Global, line: &[u8]) -> Result<Report, LineFault>
    ensures exact { result ≢ Err Memory → result ≡ report_at line.now }
    ensures long { 65536 < length line.now → result ≡ Err Long }
    ensures run { IfOk result HasSoundRun }
{
    match read_any(alloc, line) {
        Ok(said) => operations_report(Ok(said)),
        Err(fault) => match fault {
            LineFault::Kind => match Value::from_slice(alloc, line) {
                Ok(value) => report_of(alloc, &value),
                Err(error) => match of_json(&error) {
                    Some(memory) => Err(LineFault::Memory(memory)),
                    None => Err(LineFault::Json),
                },
            },
            _ => Err(fault),
        },
    }
}
