//! Logs, read into whatever takes operations.
ghost use Rattle.std.specs.Prelude.{◌≡◌, ◌≢◌, ◌<◌, ◌^◌, ◌||◌, Err, IfOk, OnOk};
ghost use Rattle.rga_exchange.specs.Counting.{CountsAs, OnBytes};
ghost use Rattle.rga_lines.specs.Log.{log_operations};
ghost use Rattle.rga_lines.specs.Table.{any_line_at};
ghost use Rattle.rga_store.specs.Taking.{TakesMore};
ghost use Rattle.rga_exchange.specs.DeletionRuns.{is_deletion_run, has_deletion_runs};
ghost use Rattle.rga_exchange.specs.Taking.{intake};
ghost use Rattle.rga_exchange.specs.Log.{TakesLog, log_end, bare_answer, TakesRest};
ghost use Rattle.rga_exchange.specs.Memory.{LogMemory};

use crate::Counted;
use crate::fault::{LogFault, ReceiveFault};
use crate::taking::{Form, LineTaken, Stream, StreamEnd, take_other, take_stream};
use rga_lines::LineFault;
use rga_store::Taker;
use std::alloc::Global;
use std::io::Read;

/// What stands behind the last newline of a log.
#[derive(Clone, Copy, Debug, PartialEq, Eq)]
pub enum LogEnd {
    /// Nothing.
    Whole,
    /// An operation or a run, which was taken.
    Bare,
    /// So many bytes that are no operation: a line that was cut off. They were left out.
    Torn(u64),
}

/// A log that was read to its end: the number of its whole lines, which all were taken, and what
/// stands behind them.
#[derive(Clone, Copy)]
pub struct LogRead {
    pub lines: u64,
    pub end: LogEnd,
}

/// Takes the operations of a log, to the end of the input: those of its lines, and that of a last
/// line without newline where it is one. Answers what stands behind the whole lines, and how many
/// they are. Before each read the whole lines read so far are taken. `Ok` comes only once a read
/// gave no bytes, whatever the reader. `deletion_runs` becomes true where the log has a run of
/// deletions.
///
/// Faults, of which the first in the order of the lines is answered: `Line`, where the head and the
/// end line of an exchange are `Kind` and a rest of more than 65536 bytes is `Long`; `Refused`.
/// `Read` and `Memory` come where the device fails and where a growth is refused. The lines before
/// a fault stay taken; with `Memory` these are all that were whole before the last read, and the
/// first ones of those that it ended.
pub fn take_log<T: Taker, R: Read>(
    alloc: Global,
    taker: &mut T,
    reader: &mut Counted<R>,
    deletion_runs: &mut bool,
) -> Result<LogRead, LogFault>
    ensures taken { TakesLog R.remaining reader.old reader.new
        (intake T.limit T.content T.follows taker.old taker.new) (λ outcome. outcome) result }
    ensures took { OnOk result (OnBytes R.remaining reader.old (λ bytes.
        TakesMore (T.content taker.old) (log_operations bytes) (T.content taker.new))) }
    ensures device { CountsAs LogFault.Read result reader.old reader.new }
    ensures deletion_runs { OnOk result (OnBytes R.remaining reader.old
        (λ bytes. deletion_runs.new ≡ (deletion_runs.old || has_deletion_runs bytes))) }
    ensures limit { T.limit taker.new ≡ T.limit taker.old }
    ensures bound { IfOk result (λ log. log.lines < 2 ^ 63) }
{
    let Stream {
        lines,
        operations: _operations,
        end,
    } = take_stream(alloc, Form::Log, taker, reader, deletion_runs)?;
    match end {
        StreamEnd::EndLine(_) => Err(LogFault::Line(lines + 1, LineFault::Kind)),
        StreamEnd::Input(rest) => {
            let end = take_rest(alloc, taker, lines, &rest, deletion_runs)?;
            Ok(LogRead { lines, end })
        }
    }
}

/// Takes what stands behind so many lines: an operation, a run, or nothing.
fn take_rest<T: Taker>(
    alloc: Global,
    taker: &mut T,
    lines: u64,
    rest: &[u8],
    deletion_runs: &mut bool,
) -> Result<LogEnd, LogFault>
    requires { lines < 2 ^ 63 }
    ensures taken { TakesRest (intake T.limit T.content T.follows taker.old taker.new)
        lines rest.now result }
    ensures deletion_runs { result ≢ Err LogMemory → deletion_runs.new
        ≡ (deletion_runs.old || is_deletion_run (any_line_at rest.now)) }
    ensures limit { T.limit taker.new ≡ T.limit taker.old }
{
    if rest.is_empty() {
        return Ok(LogEnd::Whole);
    }
    let taken = take_other(alloc, Form::Log, taker, lines + 1, rest, deletion_runs);
    end_of(rest.len() as u64, taken)
}

/// How a rest of so many bytes ends a log, by what became of it as a line.
fn end_of(bytes: u64, taken: Result<LineTaken, LogFault>) -> Result<LogEnd, LogFault>
    ensures { result ≡ bare_answer bytes taken }
{
    match taken {
        Ok(LineTaken::Operations(_)) => Ok(LogEnd::Bare),
        Ok(LineTaken::EndLine(_)) => Ok(LogEnd::Torn(bytes)),
        Err(LogFault::Line(_, _)) => Ok(LogEnd::Torn(bytes)),
        Err(fault) => Err(fault),
    }
}

/// Takes the operations of a log as `take_log` does, and answers what stands behind its whole
/// lines. `Cut` and `Count` are no faults of a log.
pub fn read_log<T: Taker, R: Read>(
    alloc: Global,
    taker: &mut T,
    reader: &mut Counted<R>,
) -> Result<LogEnd, ReceiveFault>
    ensures taken { TakesLog R.remaining reader.old reader.new
        (intake T.limit T.content T.follows taker.old taker.new) log_end result }
    ensures took { OnOk result (OnBytes R.remaining reader.old (λ bytes.
        TakesMore (T.content taker.old) (log_operations bytes) (T.content taker.new))) }
    ensures never { (result ≢ Err ReceiveFault.Cut) × (result ≢ Err ReceiveFault.Count) }
    ensures device { CountsAs ReceiveFault.Read result reader.old reader.new }
    ensures limit { T.limit taker.new ≡ T.limit taker.old }
{
    let log = take_log(alloc, taker, reader, &mut false)?;
    Ok(log.end)
}
