//! A hundred numbers in a row, whose digits begin alike.
ghost use Rattle.std.specs.Prelude.{◌≡◌, ◌≤◌, ◌+◌, ◌++◌, length, take, decimal};
ghost use Rattle.rga_lines.specs.declared.hundred.TheConstants.{MAX_PIECE, ROOM};

use crate::bytes::{put, put_array};
use crate::pieces::put_number;
use std::marker::Model;

/// The longest piece that may stand before a number.
const MAX_PIECE: usize = 30;

/// Room for a piece, and for all digits of a `u64` but the last two.
const ROOM: usize = 48;

/// The digits of all numbers below a hundred, two of each.
static PAIRS: [u8; 200] =
    *b"00010203040506070809101112131415161718192021222324252627282930313233343536373839404142434445464748495051525354555657585960616263646566676869707172737475767778798081828384858687888990919293949596979899";

/// A piece that is put before numbers, and the digits with which the last of these began, since
/// most begin as the one before. To its callers it is the piece.
#[derive(Drop)]
pub(crate) struct Hundred {
    /// The least number that begins with these digits and then has two more.
    first: u64,
    /// How long the piece is.
    piece: usize,
    /// The piece and the digits.
    bytes: [u8; ROOM],
    /// Where the digits end.
    end: usize,
}

impl Model for Hundred {
    ghost use Rattle.std.specs.Prelude.{ℕ, List, ◌≡◌, ◌≤◌, ◌*◌, ◌/◌, ◌++◌, take, decimal};
    ghost use Rattle.rga_lines.specs.declared.hundred.TheConstants.{MAX_PIECE, ROOM};

    ghost Value = { List ℕ };

    ghost view = { λ h. take h.piece h.bytes };

    ghost invariant = { λ h. (take h.end h.bytes ≡ take h.piece h.bytes ++ decimal (h.first / 100))
        × (h.first / 100 * 100 ≡ h.first) × (100 ≤ h.first) × (h.piece ≤ MAX_PIECE)
        × (h.end ≤ ROOM) };
}

impl Hundred {
    /// The piece, with the digits of the number 100.
    pub(crate) fn behind(piece: &[u8]) -> Hundred
        requires { length piece.now ≤ MAX_PIECE }
        ensures { result ≡ piece.now }
    {
        let mut bytes = [0; ROOM];
        let end = put(&mut bytes, 0, piece);
        let end = put(&mut bytes, end, b"1");
        Hundred {
            first: 100,
            piece: piece.len(),
            bytes,
            end,
        }
    }

    /// Puts the piece and the digits of a number. What stands behind that, within the room, may
    /// change.
    #[inline(always)]
    pub(crate) fn put(&mut self, bytes: &mut [u8], at: usize, number: u64) -> usize
        requires room { at + ROOM + 2 ≤ length bytes.old }
        ensures put { take result bytes.new ≡ take at bytes.old ++ (self.old ++ decimal number) }
        ensures within { result ≤ at + length self.old + 20 }
        ensures length { length bytes.new ≡ length bytes.old }
        ensures piece { self.new ≡ self.old }
    {
        if number < self.first {
            return self.put_other(bytes, at, number);
        }
        let rest = number - self.first;
        if rest >= 100 {
            return self.put_other(bytes, at, number);
        }
        // All the room is copied, since so many bytes are a few moves.
        put_array(bytes, at, self.bytes);
        let digits = rest as usize * 2;
        put_array(bytes, at + self.end, [PAIRS[digits], PAIRS[digits + 1]])
    }

    /// The same of any number, whose digits are then kept.
    #[inline(never)]
    fn put_other(&mut self, bytes: &mut [u8], at: usize, number: u64) -> usize
        requires room { at + ROOM + 2 ≤ length bytes.old }
        ensures put { take result bytes.new ≡ take at bytes.old ++ (self.old ++ decimal number) }
        ensures within { result ≤ at + length self.old + 20 }
        ensures length { length bytes.new ≡ length bytes.old }
        ensures piece { self.new ≡ self.old }
    {
        self.turn_to(number);
        let at = put(bytes, at, &self.bytes[..self.piece]);
        put_number(bytes, at, number)
    }

    /// Keeps the digits of a number, where it has more than two.
    fn turn_to(&mut self, number: u64)
        ensures { self.new ≡ self.old }
    {
        let digits = number / 100;
        if digits == 0 {
            return;
        }
        self.first = digits * 100;
        self.end = put_number(&mut self.bytes, self.piece, digits);
    }
}
