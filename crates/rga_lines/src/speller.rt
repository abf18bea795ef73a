//! Operations spelled as lines, one after the other, without asking for memory.
ghost use Rattle.std.specs.Prelude.{◌≡◌, ◌≤◌, ◌+◌, ◌++◌, ◌∷◌, ◌<◌, [], Ok, length, take};
ghost use Rattle.rga_ops.specs.Operation.{checked};
ghost use Rattle.rga_ops.specs.declared.op.Op.TheVariants.{Insert, Delete};
ghost use Rattle.rga_lines.specs.Spelling.{line, IsWritable};
ghost use Rattle.rga_lines.specs.Stream.{newline};
ghost use Rattle.rga_lines.specs.declared.speller.TheConstants.{LINE_ROOM};

use crate::bytes::put_array;
use crate::hundred::Hundred;
use crate::pieces::{put_character, put_replica};
use rga_ops::{Id, Op};
use std::marker::Model;

/// Room for any line of an operation with its newline. The longest is an insertion's: 39 bytes of
/// names and marks, an escape of 6, and two identifiers of at most 28.
pub const LINE_ROOM: usize = 101;

/// What spells operations as lines. It keeps the digits with which the last counters began, since
/// most begin as the one before.
#[derive(Drop)]
pub struct Speller {
    id: Hundred,
    parent: Hundred,
    deleted: Hundred,
}

impl Model for Speller {
    ghost use Rattle.std.specs.Prelude.{◌≡◌, codes};

    ghost Value = { Unit {0} };

    ghost view = { λ _. tt };

    ghost invariant = { λ s. (s.id ≡ codes "\",\"id\":[")
        × (s.parent ≡ codes "],\"op\":\"ins\",\"parent\":[") × (s.deleted ≡ codes "{\"id\":[") };
}

impl Speller {
    /// One that has spelled nothing.
    pub fn new() -> Speller {
        Speller {
            id: Hundred::behind(b"\",\"id\":["),
            parent: Hundred::behind(b"],\"op\":\"ins\",\"parent\":["),
            deleted: Hundred::behind(b"{\"id\":["),
        }
    }

    /// Puts the line that `write_line` writes, with its newline, from a place on, and answers where
    /// it ends. What stands behind that, within the room, may change. Takes no memory.
    pub fn put_line(&mut self, bytes: &mut [u8], at: usize, op: &Op) -> usize
        requires room { at + LINE_ROOM ≤ length bytes.old }
        ensures put { take result bytes.new ≡ take at bytes.old ++ (line op.now ++ newline ∷ []) }
        ensures within { result ≤ at + LINE_ROOM }
        ensures length { length bytes.new ≡ length bytes.old }
        // What `Op::check` accepts is written so that it can be read back.
        ensures writable { checked op.now ≡ Ok tt → IsWritable op.now }
    {
        let end = match op {
            Op::Insert { id, parent, ch } => self.put_insertion(bytes, at, id, parent, *ch),
            Op::Delete { id } => self.put_deletion(bytes, at, id),
        };
        put_array(bytes, end, *b"\n")
    }

    #[tactic(auto, using(crate::proofs::WritableLemmas::insertion_writable), unfolding(crate::specs::Spelling::line))]
    fn put_insertion(
        &mut self,
        bytes: &mut [u8],
        at: usize,
        id: &Id,
        parent: &Id,
        ch: char,
    ) -> usize
        requires room { at + LINE_ROOM ≤ length bytes.old }
        ensures put { take result bytes.new
            ≡ take at bytes.old ++ line (Insert id.now parent.now ch) }
        ensures within { result < at + LINE_ROOM }
        ensures length { length bytes.new ≡ length bytes.old }
        ensures writable { let op = Insert id.now parent.now ch in
            checked op ≡ Ok tt → IsWritable op }
    {
        let at = put_array(bytes, at, *b"{\"char\":\"");
        let at = put_character(bytes, at, ch);
        let at = self.id.put(bytes, at, id.counter());
        let at = put_replica(bytes, at, id.replica());
        let at = self.parent.put(bytes, at, parent.counter());
        let at = put_replica(bytes, at, parent.replica());
        put_array(bytes, at, *b"]}")
    }

    #[tactic(auto, using(crate::proofs::WritableLemmas::deletion_writable), unfolding(crate::specs::Spelling::line))]
    fn put_deletion(&mut self, bytes: &mut [u8], at: usize, id: &Id) -> usize
        requires room { at + LINE_ROOM ≤ length bytes.old }
        ensures put { take result bytes.new ≡ take at bytes.old ++ line (Delete id.now) }
        ensures within { result < at + LINE_ROOM }
        ensures length { length bytes.new ≡ length bytes.old }
        ensures writable { checked (Delete id.now) ≡ Ok tt → IsWritable (Delete id.now) }
    {
        let at = self.deleted.put(bytes, at, id.counter());
        let at = put_replica(bytes, at, id.replica());
        put_array(bytes, at, *b"],\"op\":\"del\"}")
    }
}
