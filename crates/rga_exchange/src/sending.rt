//! Operations sent: as lines, in blocks.
ghost use Rattle.std.specs.Prelude.{◌≡◌, ℕ, ◌≤◌, ◌++◌, ◌∷◌, List, [], length, true, Ok, Err, IfOk, IfErr, OnOk};
ghost use Rattle.rga_ops.specs.Prelude.{operations, Content, Agree, IsSound, join, known_count, content_of};
ghost use Rattle.rga_ops.specs.ListAnswer.{AreWellFormed, IsJoinable};
ghost use Rattle.rga_exchange.specs.Counting.{CountsAs, Writes, WritesFront, WritesAllBut, WritesNothing};
ghost use Rattle.rga_lines.specs.Spelling.{head_line};
ghost use Rattle.rga_lines.specs.Stream.{newline, rest_of};
ghost use Rattle.rga_exchange.specs.Sending.{log_text, exchange_text, stream_text, AreWritable, StandsFor};
ghost use Rattle.rga_exchange.specs.Sending.{AppendsFirst, WritesFirst};
ghost use Rattle.rga_exchange.specs.Receiving.{exchange_outcome};
ghost use Rattle.rga_exchange.specs.Memory.{SendMemory};

use crate::Counted;
use crate::block::Block;
use crate::fault::SendFault;
use rga_lines::{write_end, write_head};
use rga_ops::{Op, OutOfMemory};
use rga_store::TextStore;
use std::alloc::Global;
use std::io::Write;

/// Writes all that a store holds: the head of an exchange, the line of each of its operations, the
/// insertions by rising identifier and then the deletions, and the line that ends an exchange of so
/// many; each with its newline. Answers how many operations there are.
///
/// Beside the list of the operations only one block of some 64 KiB is held. The device is given
/// blocks, and at last what is left; no failed call is made again, and the device is flushed at the
/// end. `Write` comes exactly where a call failed.
pub fn send<S: TextStore, W: Write>(
    alloc: Global,
    store: &S,
    writer: &mut Counted<W>,
) -> Result<u64, SendFault>
    ensures number { IfOk result (λ number. number ≡ length (operations (S.content store.now))) }
    ensures written { OnOk result (Writes W.contents writer.old writer.new
        (stream_text (S.content store.now))) }
    // Whatever holds a content that agrees with it, and has room for both, receives it whole.
    ensures received { IfOk result (λ number. let sent = S.content store.now in
        (limit : ℕ) (c : Content) → IsSound sent → Agree c sent
        → known_count (join c sent) ≤ limit
        → exchange_outcome limit c (stream_text sent) ≡ (join c sent, Ok number)) }
    ensures begun { WritesFront W.contents writer.old writer.new
        (stream_text (S.content store.now)) }
    ensures flushed { OnOk result (writer.new.flushed ≡ true) }
    ensures device { CountsAs SendFault.Write result writer.old writer.new }
{
    let ops = store.ops()?;
    send_list(alloc, &ops, writer)
}

/// Writes what `send` writes of a store of exactly these operations, in their order: the head of an
/// exchange, the line of each operation, and the line that ends an exchange of so many. Answers how
/// many there are. What is held beside them, and the calls of the device, are those of `send`.
pub fn send_list<W: Write>(
    alloc: Global,
    list: &[Op],
    writer: &mut Counted<W>,
) -> Result<u64, SendFault>
    ensures number { IfOk result (λ number. number ≡ length list.now) }
    ensures written { OnOk result (Writes W.contents writer.old writer.new
        (exchange_text list.now)) }
    // Whatever holds a content to which they can be joined, and has room for both, receives them
    // whole.
    ensures received { IfOk result (λ number. let sent = content_of list.now in
        (limit : ℕ) (c : Content) → AreWellFormed list.now → IsJoinable c list.now
        → known_count (join c sent) ≤ limit
        → exchange_outcome limit c (exchange_text list.now) ≡ (join c sent, Ok number)) }
    ensures begun { WritesFront W.contents writer.old writer.new (exchange_text list.now) }
    ensures flushed { OnOk result (writer.new.flushed ≡ true) }
    ensures device { CountsAs SendFault.Write result writer.old writer.new }
{
    let number = list.len() as u64;
    let end = write_end(alloc, number)?;
    let mut block = begin_exchange(alloc)?;
    push_lines(list, &mut block, writer)?;
    block.push(end.as_bytes())?;
    block.finish(writer)?;
    Ok(number)
}

/// A block with the head of an exchange.
fn begin_exchange(alloc: Global) -> Result<Block, OutOfMemory>
    ensures ok { IfOk result (λ block. block ≡ head_line ++ newline ∷ []) }
{
    let head = write_head(alloc)?;
    let mut block = Block::new(alloc)?;
    block.push(head.as_bytes())?;
    Ok(block)
}

/// Writes the line of each operation with its newline, in the order of the list, and nothing else.
/// Answers how many there are.
///
/// Only one block of some 64 KiB is held. The device is given blocks, and at last what is left; no
/// failed call is made again, and the device is flushed at the end. `Write` comes exactly where a
/// call failed, and `Memory` before anything is written.
pub fn append_log<W: Write>(
    alloc: Global,
    ops: &[Op],
    writer: &mut Counted<W>,
) -> Result<u64, SendFault>
    ensures number { IfOk result (λ number. number ≡ length ops.now) }
    ensures written { OnOk result (Writes W.contents writer.old writer.new (log_text ops.now)) }
    // A log that is empty or ends in a newline, and stands for a content, then stands for that
    // content joined with the operations.
    ensures joined { OnOk result ((bytes : List ℕ) (c : Content) → StandsFor bytes c
        → rest_of bytes ≡ [] → AreWellFormed ops.now → IsJoinable c ops.now
        → StandsFor (bytes ++ log_text ops.now) (join c (content_of ops.now))) }
    ensures begun { WritesFront W.contents writer.old writer.new (log_text ops.now) }
    // Whatever is answered, such a log, with what was written behind it, stands for that content
    // joined with the first so many of the operations.
    ensures gained { AppendsFirst W.contents writer.old writer.new ops.now }
    ensures memory { result ≡ Err SendMemory →
        WritesNothing W.contents writer.old writer.new }
    ensures flushed { OnOk result (writer.new.flushed ≡ true) }
    ensures device { CountsAs SendFault.Write result writer.old writer.new }
{
    let mut block = Block::new(alloc)?;
    push_lines(ops, &mut block, writer)?;
    block.finish(writer)?;
    Ok(ops.len() as u64)
}

/// Adds the lines of the operations to the block, which is written whenever it is full.
fn push_lines<W: Write>(
    ops: &[Op],
    block: &mut Block,
    writer: &mut Counted<W>,
) -> Result<(), SendFault>
    ensures ok { OnOk result (WritesAllBut W.contents writer.old writer.new
        (block.old ++ log_text ops.now) block.new) }
    ensures writable { OnOk result (AreWellFormed ops.now → AreWritable ops.now) }
    ensures begun { WritesFront W.contents writer.old writer.new (block.old ++ log_text ops.now) }
    ensures first { WritesFirst W.contents writer.old writer.new block.old ops.now }
    ensures fault { IfErr result (λ e. e ≡ SendFault.Write) }
    ensures device { CountsAs SendFault.Write result writer.old writer.new }
{
    for op in ops {
        block.take_operation(op, writer)?;
    }
    Ok(())
}
