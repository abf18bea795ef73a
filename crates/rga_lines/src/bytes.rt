//! Bytes that are put among others, from a place on.
ghost use Rattle.std.specs.Prelude.{◌≡◌, ◌≤◌, ◌+◌, ◌++◌, length, take};

/// Puts bytes from a place on, and answers where they end. Takes no memory.
#[inline(always)]
pub fn put(bytes: &mut [u8], at: usize, piece: &[u8]) -> usize
    requires room { at + length piece.now ≤ length bytes.old }
    ensures put { take result bytes.new ≡ take at bytes.old ++ piece.now }
    ensures end { result ≡ at + length piece.now }
    ensures length { length bytes.new ≡ length bytes.old }
{
    let end = at + piece.len();
    bytes[at..end].copy_from_slice(piece);
    end
}

/// The same of an array. It stands apart from what it is put among, so nothing looks whether both
/// overlap.
#[inline(always)]
pub(crate) fn put_array<const N: usize>(bytes: &mut [u8], at: usize, piece: [u8; N]) -> usize
    requires room { at + N ≤ length bytes.old }
    ensures put { take result bytes.new ≡ take at bytes.old ++ piece.entry }
    ensures end { result ≡ at + N }
    ensures length { length bytes.new ≡ length bytes.old }
{
    put(bytes, at, &piece)
}
