//! A log in as few lines as runs allow.
ghost use Rattle.std.specs.Prelude.{◌≡◌, ◌≢◌, ◌⊎◌, [], true, Ok, Err, OnOk, OnErr, IfErr};
ghost use Rattle.rga_ops.specs.Prelude.{Content, nothing};
ghost use Rattle.rga_store.specs.declared.text_store.TheConstants.{MAX_LIMIT};
ghost use Rattle.rga_exchange.specs.Counting.{CountsAs, OnBytes, Writes, WritesFront, WritesNothing};
ghost use Rattle.rga_lines.specs.Stream.{rest_of};
ghost use Rattle.rga_exchange.specs.Sending.{StandsFor};
ghost use Rattle.rga_exchange.specs.Taking.{content_intake, HasTakenWholeLines};
ghost use Rattle.rga_exchange.specs.declared.taking.Form.TheVariants.{Log};
ghost use Rattle.rga_exchange.specs.Compacting.{compact_text};
ghost use Rattle.mgr_show.specs.Log.{log_of};
ghost use Rattle.mgr_show.specs.Shown.{IsOfInput};
ghost use Rattle.mgr_show.specs.Compacted.{Compacts, BeginsToCompact};
ghost use Rattle.mgr_show.specs.Memory.{ShowMemory};

use crate::fault::ShowFault;
use crate::show::take_whole_log;
use rga_exchange::{Counted, SendFault, compact_ops};
use rga_records::Records;
use rga_store::MAX_LIMIT;
use std::alloc::Global;
use std::io::{Read, Write};

/// Reads operation lines to the end of the input, and writes what they make in as few lines as runs
/// allow: a log that stands for the same content, and nothing else. Deletions are in runs too with
/// `dels`, and where the input has a run of deletions. A last line without newline counts where it
/// is an operation.
///
/// Faults of the input as of `show_ops`. Nothing is written before the whole input was taken. Where
/// `Write` or `Memory` is answered then, a beginning of the lines was written.
pub fn compact_log<R: Read, W: Write>(
    alloc: Global,
    dels: bool,
    reader: &mut Counted<R>,
    writer: &mut Counted<W>,
) -> Result<(), ShowFault>
    ensures compacted { OnOk result (OnBytes R.remaining reader.old
        (λ bytes. Compacts W.contents writer.old writer.new dels bytes)) }

    // A fault of the input is the first one of its bytes, however the reads cut them.
    ensures refused { IfErr result (λ e. IsOfInput e → OnBytes R.remaining reader.old
        (λ bytes. log_of MAX_LIMIT bytes ≡ Err e)) }
    ensures unwritten { IfErr result (λ e. e ≢ ShowFault.Write → e ≢ ShowMemory
        → writer.new ≡ writer.old) }
    // Whatever fails, nothing was written or a beginning of the lines of an accepted log.
    ensures begun { OnErr result (OnBytes R.remaining reader.old (λ bytes.
        WritesNothing W.contents writer.old writer.new
        ⊎ BeginsToCompact W.contents writer.old writer.new dels bytes)) }
    ensures flushed { OnOk result (writer.new.flushed ≡ true) }

    ensures whole_lines { result ≡ Err ShowFault.Read → (c : Content) × HasTakenWholeLines Log
        R.remaining reader.old reader.new (content_intake MAX_LIMIT nothing c) }
    ensures reads { CountsAs ShowFault.Read result reader.old reader.new }
    ensures writes { CountsAs ShowFault.Write result writer.old writer.new }
{
    let mut records = match Records::new(alloc, MAX_LIMIT) {
        Ok(records) => records,
        Err(refused) => return Err(ShowFault::Memory(refused.memory())),
    };
    let mut deletion_runs = dels;
    take_whole_log(alloc, &mut records, reader, &mut deletion_runs)?;
    compact_records(alloc, &records, deletion_runs, writer)?;
    Ok(())
}

/// Writes the lines of what records hold.
pub(crate) fn compact_records<W: Write>(
    alloc: Global,
    records: &Records,
    dels: bool,
    writer: &mut Counted<W>,
) -> Result<(), SendFault>
    ensures written { OnOk result (Writes W.contents writer.old writer.new
        (compact_text dels records.now.content)) }
    ensures stands { OnOk result (StandsFor (compact_text dels records.now.content)
        records.now.content) }
    ensures ended { OnOk result (rest_of (compact_text dels records.now.content) ≡ []) }
    ensures begun { WritesFront W.contents writer.old writer.new
        (compact_text dels records.now.content) }
    ensures flushed { OnOk result (writer.new.flushed ≡ true) }
    ensures device { CountsAs SendFault.Write result writer.old writer.new }
{
    // What is known is told with the fact that each operation is well-formed.
    let _known = records.known();
    let ops = records.ops(alloc)?;
    compact_ops(alloc, &ops, dels, writer)?;
    Ok(())
}
