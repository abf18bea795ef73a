//! Lines on their way to a device.
ghost use Rattle.std.specs.Prelude.{◌≡◌, ℕ, ◌≤◌, ◌+◌, length, take, drop, IsOk, OnOk};

use crate::Counted;
use crate::fault::SendFault;
use rga_lines::Speller;
use rga_lines::bytes::put;
use rga_ops::Op;
use std::alloc::{AllocError, Global};
use std::io::Write;
use std::marker::Model;

/// How many bytes a block has room for, and the most that a read asks for.
pub const BLOCK: usize = 65536;

/// The room behind a block, for the line of an operation that begins in it. A line that is pushed
/// behind the last one may ask for more.
const END: usize = 128;

/// Lines that are not yet written, each with the newline that ends it.
#[derive(Drop)]
pub struct Block {
    /// All that there is room for; the lines stand in front.
    bytes: Vec<u8>,
    /// Where the lines end.
    end: usize,
    speller: Speller,
}

impl Model for Block {
    ghost use Rattle.std.specs.Prelude.{ℕ, List, ◌+◌, ◌≤◌, length, take};
    ghost use Rattle.rga_exchange.specs.declared.block.TheConstants.{BLOCK, END};

    ghost Value = { List ℕ };

    ghost view = { λ block. take block.end block.bytes.items };

    ghost invariant = { λ block. (BLOCK + END ≤ length block.bytes.items)
        × (block.end ≤ length block.bytes.items) };
}

impl Block {
    ghost use Rattle.std.specs.Prelude.{◌≡◌, ◌≤◌, ◌<◌, ◌+◌, ◌++◌, ◌∷◌, [], length, true, Ok, IfOk, IsOk, OnOk, IfErr};
    ghost use Rattle.rga_ops.specs.Prelude.{checked};
    ghost use Rattle.rga_lines.specs.Spelling.{line as line_of, IsWritable};
    ghost use Rattle.rga_exchange.specs.declared.block.TheConstants.{BLOCK, END};
    ghost use Rattle.rga_exchange.specs.Counting.{Writes, WritesFront, WritesAllBut, CountsAs};
    ghost use Rattle.rga_lines.specs.Stream.{newline};

    /// An empty block, with room for some 64 KiB.
    pub fn new(alloc: Global) -> Result<Self, AllocError>
        ensures { IfOk result (λ block. block ≡ []) }
    {
        let mut bytes = Vec::new(alloc);
        bytes.resize(BLOCK + END, 0)?;
        Ok(Block {
            bytes,
            end: 0,
            speller: Speller::new(),
        })
    }

    /// Takes a line, whether there is room for it or not.
    pub(crate) fn push(&mut self, line: &[u8]) -> Result<(), AllocError>
        ensures pushed { OnOk result (self.new ≡ self.old ++ (line.now ++ newline ∷ [])) }
        ensures room { length self.old + length line.now < BLOCK + END → IsOk result }
    {
        lengthen(&mut self.bytes, self.end + line.len() + 1)?;
        let end = put(self.bytes.as_mut_slice(), self.end, line);
        self.end = put(self.bytes.as_mut_slice(), end, b"\n");
        Ok(())
    }

    /// Takes a line, of any length: where there is no room for it, what it has is written before.
    /// `Write` comes exactly where a call failed, and `Memory` for no line of less than 128 bytes.
    /// What it then has is not told.
    pub fn take_line<W: Write>(
        &mut self,
        line: &[u8],
        writer: &mut Counted<W>,
    ) -> Result<(), SendFault>
        ensures ok { OnOk result (WritesAllBut W.contents writer.old writer.new
            (self.old ++ (line.now ++ newline ∷ [])) self.new) }
        ensures begun { WritesFront W.contents writer.old writer.new self.old }
        ensures room { length line.now < END → IfErr result (λ e. e ≡ SendFault.Write) }
        ensures device { CountsAs SendFault.Write result writer.old writer.new }
    {
        if self.end + line.len() >= BLOCK {
            self.write_to(writer)?;
        }
        self.push(line)?;
        Ok(())
    }

    /// Takes the line of an operation: where it is full, what fills it is written before.
    pub(crate) fn take_operation<W: Write>(
        &mut self,
        op: &Op,
        writer: &mut Counted<W>,
    ) -> Result<(), SendFault>
        ensures ok { OnOk result (WritesAllBut W.contents writer.old writer.new
            (self.old ++ (line_of op.now ++ newline ∷ [])) self.new) }
        ensures writable { OnOk result (checked op.now ≡ Ok tt → IsWritable op.now) }
        ensures begun { WritesFront W.contents writer.old writer.new self.old }
        ensures fault { IfErr result (λ e. e ≡ SendFault.Write) }
        ensures device { CountsAs SendFault.Write result writer.old writer.new }
    {
        self.write_full(writer)?;
        self.end = self
            .speller
            .put_line(self.bytes.as_mut_slice(), self.end, op);
        Ok(())
    }

    /// Writes what fills it, where it is full, and keeps the rest.
    #[inline(always)]
    fn write_full<W: Write>(&mut self, writer: &mut Counted<W>) -> Result<(), SendFault>
        ensures ok { OnOk result
            (WritesAllBut W.contents writer.old writer.new self.old self.new) }
        ensures rest { OnOk result (length self.new < BLOCK) }
        ensures begun { WritesFront W.contents writer.old writer.new self.old }
        ensures fault { IfErr result (λ e. e ≡ SendFault.Write) }
        ensures device { CountsAs SendFault.Write result writer.old writer.new }
    {
        if self.end < BLOCK {
            return Ok(());
        }
        self.write_front(writer)
    }

    /// The same where it is full. A file that is written in full blocks is so page by page, which
    /// costs less than where a page is written twice.
    fn write_front<W: Write>(&mut self, writer: &mut Counted<W>) -> Result<(), SendFault>
        requires { BLOCK ≤ length self.old }
        ensures ok { OnOk result
            (WritesAllBut W.contents writer.old writer.new self.old self.new) }
        ensures rest { OnOk result (length self.new < BLOCK) }
        ensures begun { WritesFront W.contents writer.old writer.new self.old }
        ensures fault { IfErr result (λ e. e ≡ SendFault.Write) }
        ensures device { CountsAs SendFault.Write result writer.old writer.new }
    {
        let rest = self.end % BLOCK;
        let whole = self.end - rest;
        writer.write_all(&self.bytes[..whole])?;
        move_to_front(self.bytes.as_mut_slice(), whole, rest);
        self.end = rest;
        Ok(())
    }

    /// Writes its lines, and has none then.
    fn write_to<W: Write>(&mut self, writer: &mut Counted<W>) -> Result<(), SendFault>
        ensures written { OnOk result (Writes W.contents writer.old writer.new self.old) }
        ensures empty { OnOk result (self.new ≡ []) }
        ensures begun { WritesFront W.contents writer.old writer.new self.old }
        ensures fault { IfErr result (λ e. e ≡ SendFault.Write) }
        ensures device { CountsAs SendFault.Write result writer.old writer.new }
    {
        writer.write_all(&self.bytes[..self.end])?;
        self.end = 0;
        Ok(())
    }

    /// Writes the lines that are left, and flushes the device. `Write` is the only refusal.
    pub fn finish<W: Write>(mut self, writer: &mut Counted<W>) -> Result<(), SendFault>
        ensures ok { OnOk result (Writes W.contents writer.old writer.new self) }
        ensures begun { WritesFront W.contents writer.old writer.new self }
        ensures flushed { OnOk result (writer.new.flushed ≡ true) }
        ensures fault { IfErr result (λ e. e ≡ SendFault.Write) }
        ensures device { CountsAs SendFault.Write result writer.old writer.new }
    {
        self.write_to(writer)?;
        writer.flush()?;
        Ok(())
    }
}

/// Has so many bytes, or more. What stands there stays.
fn lengthen(bytes: &mut Vec<u8>, count: usize) -> Result<(), AllocError>
    ensures long { OnOk result (count ≤ length bytes.new.items) }
    ensures grown { length bytes.old.items ≤ length bytes.new.items }
    ensures kept { (at : ℕ) → at ≤ length bytes.old.items →
        take at bytes.new.items ≡ take at bytes.old.items }
    ensures room { count ≤ length bytes.old.items → IsOk result }
{
    if count <= bytes.len() {
        return Ok(());
    }
    bytes.resize(count, 0)
}

/// Moves so many bytes that stand from a place on to the front.
fn move_to_front(bytes: &mut [u8], from: usize, count: usize)
    requires within { from + count ≤ length bytes.old }
    requires apart { count ≤ from }
    ensures moved { take count bytes.new ≡ take count (drop from bytes.old) }
    ensures length { length bytes.new ≡ length bytes.old }
{
    let (front, back) = bytes.split_at_mut(from);
    front[..count].copy_from_slice(&back[..count]);
}
