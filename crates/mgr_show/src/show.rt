//! The text of a log.
ghost use Rattle.std.specs.Prelude.{◌≡◌, ◌≢◌, ◌⊎◌, ◌||◌, true, Ok, Err, OnOk, OnErr, IfErr};
ghost use Rattle.rga_ops.specs.Prelude.{Content, nothing};
ghost use Rattle.rga_store.specs.declared.text_store.TheConstants.{MAX_LIMIT};
ghost use Rattle.rga_exchange.specs.Counting.{CountsAs, OnBytes, Writes, WritesFront, WritesNothing};
ghost use Rattle.rga_exchange.specs.DeletionRuns.{has_deletion_runs};
ghost use Rattle.rga_exchange.specs.Taking.{intake, content_intake, HasTakenWholeLines};
ghost use Rattle.rga_exchange.specs.declared.taking.Form.TheVariants.{Log};
ghost use Rattle.mgr_show.specs.Log.{log_of, shown_from};
ghost use Rattle.mgr_show.specs.Shown.{IsOfInput, ShowsLog, BeginsToShow};
ghost use Rattle.mgr_show.specs.Memory.{ShowMemory};

use crate::fault::ShowFault;
use rga_exchange::{Counted, LogEnd, take_log};
use rga_records::Records;
use rga_store::{MAX_LIMIT, Taker};
use std::alloc::Global;
use std::io::{Read, Write};

/// Reads operation lines to the end of the input, and writes the text of their operations in UTF-8
/// and nothing else. A last line without newline counts where it is an operation.
///
/// Faults of the input, of which the first in the order of the lines is answered: `Line`,
/// `Refused`, `Torn`. Nothing is written before the whole input was taken.
pub fn show_ops<R: Read, W: Write>(
    alloc: Global,
    reader: &mut Counted<R>,
    writer: &mut Counted<W>,
) -> Result<(), ShowFault>
    ensures shown { OnOk result (OnBytes R.remaining reader.old
        (λ bytes. ShowsLog W.contents writer.old writer.new bytes)) }

    // A fault of the input is the first one of its bytes, however the reads cut them.
    ensures refused { IfErr result (λ e. IsOfInput e → OnBytes R.remaining reader.old
        (λ bytes. log_of MAX_LIMIT bytes ≡ Err e)) }
    ensures nothing { IfErr result (λ e. e ≢ ShowFault.Write → e ≢ ShowMemory
        → WritesNothing W.contents writer.old writer.new) }
    ensures unwritten { IfErr result (λ e. e ≢ ShowFault.Write → writer.new ≡ writer.old) }
    // Whatever fails, nothing was written or a beginning of the text of an accepted log.
    ensures begun { OnErr result (OnBytes R.remaining reader.old (λ bytes.
        WritesNothing W.contents writer.old writer.new
        ⊎ BeginsToShow W.contents writer.old writer.new bytes)) }
    ensures flushed { OnOk result (writer.new.flushed ≡ true) }

    // Of what was taken the content alone is told: the records are made and dropped here.
    ensures whole_lines { result ≡ Err ShowFault.Read → (c : Content) × HasTakenWholeLines Log
        R.remaining reader.old reader.new (content_intake MAX_LIMIT nothing c) }
    // A call that failed is told as such, and not as something else.
    ensures reads { CountsAs ShowFault.Read result reader.old reader.new }
    ensures writes { CountsAs ShowFault.Write result writer.old writer.new }
{
    let mut records = match Records::new(alloc, MAX_LIMIT) {
        Ok(records) => records,
        Err(refused) => return Err(ShowFault::Memory(refused.memory())),
    };
    take_whole_log(alloc, &mut records, reader, &mut false)?;
    let text = records.text_string(alloc)?;
    write_text(text.as_str(), writer)
}

/// Takes the operations of a log to its end, where a last line that was cut off is a fault.
/// `deletion_runs` becomes true where the log has a run of deletions.
pub(crate) fn take_whole_log<T: Taker, R: Read>(
    alloc: Global,
    taker: &mut T,
    reader: &mut Counted<R>,
    deletion_runs: &mut bool,
) -> Result<(), ShowFault>
    ensures ok { OnOk result (OnBytes R.remaining reader.old (λ bytes.
        shown_from (T.limit taker.old) (T.content taker.old) bytes ≡ Ok (T.content taker.new))) }
    ensures deletion_runs { OnOk result (OnBytes R.remaining reader.old
        (λ bytes. deletion_runs.new ≡ (deletion_runs.old || has_deletion_runs bytes))) }
    ensures refused { IfErr result (λ e. IsOfInput e → OnBytes R.remaining reader.old
        (λ bytes. shown_from (T.limit taker.old) (T.content taker.old) bytes ≡ Err e)) }

    ensures whole_lines { IfErr result (λ e. e ≡ ShowFault.Read → HasTakenWholeLines Log R.remaining
        reader.old reader.new (intake T.limit T.content T.follows taker.old taker.new)) }
    ensures device { CountsAs ShowFault.Read result reader.old reader.new }
    ensures no_write { result ≢ Err ShowFault.Write }
    ensures limit { T.limit taker.new ≡ T.limit taker.old }
{
    let log = take_log(alloc, taker, reader, deletion_runs)?;
    match log.end {
        LogEnd::Whole | LogEnd::Bare => Ok(()),
        LogEnd::Torn(_) => Err(ShowFault::Torn(log.lines + 1)),
    }
}

/// Writes a text, and flushes the device. `Write` comes exactly where a call failed.
pub fn write_text<W: Write>(text: &str, writer: &mut Counted<W>) -> Result<(), ShowFault>
    ensures written { OnOk result (Writes W.contents writer.old writer.new text.now) }
    ensures begun { WritesFront W.contents writer.old writer.new text.now }
    ensures flushed { OnOk result (writer.new.flushed ≡ true) }
    ensures fault { IfErr result (λ e. e ≡ ShowFault.Write) }
    ensures device { CountsAs ShowFault.Write result writer.old writer.new }
{
    let Ok(()) = writer.write_all(text.as_bytes()) else {
        return Err(ShowFault::Write);
    };
    let Ok(()) = writer.flush() else {
        return Err(ShowFault::Write);
    };
    Ok(())
}
