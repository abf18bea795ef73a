//! Exchanges, received by whatever takes operations.
ghost use Rattle.std.specs.Prelude.{◌≡◌, ◌≢◌, length, Err, OnOk, IfOk};
ghost use Rattle.rga_ops.specs.Prelude.{join, content_of};
ghost use Rattle.rga_exchange.specs.Counting.{CountsAs, OnBytes};
ghost use Rattle.rga_lines.specs.Log.{stream_operations};
ghost use Rattle.rga_store.specs.Taking.{TakesMore};
ghost use Rattle.rga_exchange.specs.Taking.{intake, HasTakenLines, HasTakenWholeLines};
ghost use Rattle.rga_exchange.specs.Receiving.{exchange_outcome, EndsWithLastRead};
ghost use Rattle.rga_exchange.specs.declared.taking.Form.TheVariants.{Exchange};
ghost use Rattle.rga_exchange.specs.Memory.{ReceiveMemory};

use crate::Counted;
use crate::fault::ReceiveFault;
use crate::taking::{Form, Stream, StreamEnd, take_stream};
use rga_store::Taker;
use std::alloc::Global;
use std::io::Read;

/// Takes the operations of an exchange up to its end line, and answers their number. The first line
/// may be the head, `{"op":"head","version":2}`: it counts as a line and not as an operation.
/// Before each read the whole lines read so far are taken; no read follows the one that brought the
/// end line, and what stands behind it in that read is dropped.
///
/// Faults, of which the first in the order of the lines is answered: `Line`, where a head behind
/// another line is `Kind` and a rest of more than 65536 bytes is `Long`; `Refused`; `Cut`, where
/// the input ends before an end line that a newline ends; `Count`, where the end line names another
/// number than that of the operations before it. `Read` and `Memory` come where the device fails
/// and where a growth is refused. The lines before a fault stay taken; with `Memory` these are all
/// that were whole before the last read, and the first ones of those that it ended. Nothing behind
/// the last newline ever is.
pub fn receive<T: Taker, R: Read>(
    alloc: Global,
    taker: &mut T,
    reader: &mut Counted<R>,
) -> Result<u64, ReceiveFault>
    // However the reads cut the bytes, they lead to what all of them lead to.
    ensures outcome { result ≢ Err ReceiveFault.Read → result ≢ Err ReceiveMemory
        → OnBytes R.remaining reader.old (λ bytes. exchange_outcome
        (T.limit taker.old) (T.content taker.old) bytes ≡ (T.content taker.new, result)) }
    ensures joined { OnOk result (OnBytes R.remaining reader.old (λ bytes.
        T.content taker.new ≡ join (T.content taker.old) (content_of (stream_operations bytes)))) }
    ensures took { OnOk result (OnBytes R.remaining reader.old (λ bytes.
        TakesMore (T.content taker.old) (stream_operations bytes) (T.content taker.new))) }
    ensures number { IfOk result (λ n. OnBytes R.remaining reader.old
        (λ bytes. n ≡ length (stream_operations bytes))) }

    // What was read is lines of operations alone, with the head before them or without one, and
    // then one block at most.
    ensures last { OnOk result (EndsWithLastRead Exchange R.remaining reader.old reader.new) }
    ensures last_count { result ≡ Err ReceiveFault.Count
        → EndsWithLastRead Exchange R.remaining reader.old reader.new }

    ensures whole_lines { result ≡ Err ReceiveFault.Read → HasTakenWholeLines Exchange R.remaining
        reader.old reader.new (intake T.limit T.content T.follows taker.old taker.new) }
    // Whatever the answer, all lines that were whole before the last block were taken, the first
    // ones of those that end in it, and nothing else.
    ensures lines { HasTakenLines Exchange R.remaining reader.old reader.new
        (intake T.limit T.content T.follows taker.old taker.new) }
    ensures device { CountsAs ReceiveFault.Read result reader.old reader.new }
    ensures limit { T.limit taker.new ≡ T.limit taker.old }
{
    let Stream {
        lines: _lines,
        operations,
        end,
    } = take_stream(alloc, Form::Exchange, taker, reader, &mut false)?;
    match end {
        StreamEnd::EndLine(number) if u128::from(number) == operations => Ok(number),
        StreamEnd::EndLine(_) => Err(ReceiveFault::Count),
        StreamEnd::Input(_) => Err(ReceiveFault::Cut),
    }
}
