//! Streams cut into lines.
ghost use Rattle.std.specs.Prelude.{◌≡◌, ◌≢◌, ◌==◌, ◌≤◌, ◌<◌, ◌+◌, [], true, Ok, Err, None};
ghost use Rattle.std.specs.Prelude.{IsOk, IfOk, IfErr, IfSome, OnOk, OnErr, MatchOption, option_map};
ghost use Rattle.std.specs.Prelude.{vec_items, vec_len, length, take, drop, position};
ghost use Rattle.rga_lines.specs.Stream.{Splitting, splitting_code, IsKept, HasNoNewline};
ghost use Rattle.rga_lines.specs.Stream.{EndsNextLine, splitting_with, newline, fed, next_of};
ghost use Rattle.rga_lines.specs.Table.{any_line_at};
ghost use Rattle.rga_lines.specs.declared.fault.LineFault.TheVariants.{Long};
ghost use Rattle.rga_lines.specs.declared.line.Line.TheVariants.{One};
ghost use Rattle.rga_lines.specs.Memory.{LineMemory as Memory};

use crate::spelled::insertion_at;
use crate::{LineFault, MAX_LINE};
use memchr::memchr;
use rga_ops::{Op, OutOfMemory};
use std::alloc::Global;
use std::marker::Model;

/// Cuts a stream into lines, in whatever pieces it comes. A line is what stands before a newline;
/// what follows the last newline is the rest.
#[derive(Drop)]
pub struct Splitter {
    buffer: Vec<u8>,
    /// The bytes of the buffer before this index were given.
    start: usize,
    /// So many of the waiting bytes are known to be no newline: they are not searched again.
    searched: usize,
    /// A line was too long.
    broken: bool,
}

impl Model for Splitter {
    ghost Value = { Splitting };

    ghost coded = { splitting_code };

    ghost view = { λ s. record { waiting = drop s.start s.buffer.items; broken = s.broken } };

    ghost invariant = { λ s. IsKept s.buffer.items (vec_len s.buffer) s.start s.searched s.broken };
}

impl Splitter {
    /// A splitter that was fed nothing. Takes no memory.
    pub fn new(alloc: Global) -> Self
        ensures { result ≡ splitting_with [] }
    {
        Splitter {
            buffer: Vec::new(alloc),
            start: 0,
            searched: 0,
            broken: false,
        }
    }

    /// Adds the next piece of the stream. `Memory` alone, and then nothing changed. After a line
    /// that was too long it adds nothing, and is `Ok`.
    pub fn feed(&mut self, piece: &[u8]) -> Result<(), OutOfMemory>
        ensures ok { OnOk result (self.new ≡ fed piece.now self.old) }
        ensures same { OnErr result (self.new ≡ self.old) }
        ensures broken { self.old.broken ≡ true → IsOk result }
    {
        if self.broken {
            return Ok(());
        }
        self.forget_given();
        self.buffer.extend_from_slice(piece)?;
        Ok(())
    }

    /// Makes room, where that moves no more bytes than were given. So all that is ever moved is no
    /// more than what was fed.
    fn forget_given(&mut self)
        ensures { self.new ≡ self.old }
    {
        let waiting = self.buffer.len() - self.start;
        if waiting <= self.start {
            self.buffer.copy_within(self.start.., 0);
            self.buffer.truncate(waiting);
            self.start = 0;
        }
    }

    fn waiting(&self) -> &[u8]
        ensures { result.now ≡ self.now.waiting }
    {
        &self.buffer[self.start..]
    }

    /// The next whole line, without its newline; `None` where no whole line is left.
    ///
    /// `Long` where that line, or the rest if no whole line is left, has more than `MAX_LINE`
    /// bytes, and at each later call. `Memory`, and then nothing changed: only where there is a
    /// line to give.
    pub fn next_line(&mut self) -> Result<Option<Vec<u8>>, LineFault>
        ensures ok { IfOk result (λ o. next_of self.old ≡ (Ok (option_map vec_items o), self.new)) }
        ensures err { IfErr result (λ e. e ≢ Memory → next_of self.old ≡ (Err e, self.new)) }
        ensures same { result ≡ Err Memory → self.new ≡ self.old }

        // Neither of these takes memory.
        ensures long { (next_of self.old).0 ≡ Err Long → result ≡ Err Long }
        ensures none { (next_of self.old).0 ≡ Ok None → result ≡ Ok None }
    {
        let Some(end) = self.find_line()? else {
            return Ok(None);
        };
        let line = Vec::from_slice(*self.buffer.allocator(), self.line(end))?;
        self.pass_line(end);
        Ok(Some(line))
    }

    /// The length of the next whole line, without its newline; `None` where no whole line is left.
    /// The line still waits: `line` lends it, and `pass_line` goes on behind it. Takes no memory.
    ///
    /// `Long` as of `next_line`.
    pub fn find_line(&mut self) -> Result<Option<usize>, LineFault>
        ensures found { IfOk result (λ o. (self.new ≡ self.old)
            × MatchOption o (next_of self.old ≡ (Ok None, self.old)) (EndsNextLine self.old)) }
        ensures err { IfErr result (λ e. (e ≡ Long) × (next_of self.old ≡ (Err Long, self.new))) }
    {
        if self.broken {
            return Err(LineFault::Long);
        }
        let waiting = self.waiting();
        match first_newline(waiting, self.searched) {
            Some(end) if end <= MAX_LINE => {
                self.searched = end;
                Ok(Some(end))
            }
            None if waiting.len() <= MAX_LINE => {
                self.searched = waiting.len();
                Ok(None)
            }
            _ => {
                self.buffer.clear();
                self.start = 0;
                self.searched = 0;
                self.broken = true;
                Err(LineFault::Long)
            }
        }
    }

    /// The next line, where it is that of an insertion as `write_line` spells it: the operation, and
    /// the line's length. `None` says nothing of the line. No newline is looked for, so this is
    /// quicker than `find_line`. Takes no memory.
    #[inline(always)]
    pub fn find_insertion(&self) -> Option<(Op, usize)>
        ensures { IfSome result (λ p. EndsNextLine self.now p.1
            × (any_line_at (take p.1 self.now.waiting) ≡ Ok (One p.0))) }
    {
        if self.broken {
            return None;
        }
        let waiting = self.waiting();
        if let Some((op, rest)) = insertion_at(waiting)
            && let Some((first, _)) = rest.split_first()
            && *first == b'\n'
        {
            return Some((op, waiting.len() - rest.len()));
        }
        None
    }

    /// So many of the bytes that wait: the next line, where `find_line` gave its length.
    pub fn line(&self, end: usize) -> &[u8]
        requires { end ≤ length self.now.waiting }
        ensures { result.now ≡ take end self.now.waiting }
    {
        &self.waiting()[..end]
    }

    /// Goes on behind so many bytes and one more: behind the next line and its newline, where
    /// `find_line` gave its length.
    pub fn pass_line(&mut self, end: usize)
        requires { end < length self.old.waiting }
        ensures { self.new ≡ splitting_with (drop (end + 1) self.old.waiting) }
    {
        self.searched = 0;
        self.start += end + 1;
    }

    /// The rest, with the lines that were not asked for. Nothing after `Long`.
    pub fn finish(self) -> Vec<u8>
        ensures rest { result.items ≡ self.waiting }
        ensures broken { self.broken ≡ true → result.items ≡ [] }
    {
        let Splitter {
            mut buffer,
            start,
            searched: _,
            broken: _,
        } = self;
        buffer.drain(..start);
        buffer
    }
}

/// The index of the first newline, which is not among the bytes that were searched.
fn first_newline(bytes: &[u8], searched: usize) -> Option<usize>
    requires within { searched ≤ length bytes.now }
    requires none { HasNoNewline (take searched bytes.now) }
    ensures { result ≡ position (λ b. b == newline) bytes.now }
{
    let index = memchr(b'\n', &bytes[searched..])?;
    Some(searched + index)
}
