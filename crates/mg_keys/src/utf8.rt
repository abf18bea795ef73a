//! Characters, byte by byte, by Unicode's table of well-formed byte sequences (The Unicode
//! Standard, table 3-7).
ghost use Rattle.std.specs.Prelude.{◌≡◌, ◌<◌};
ghost use Rattle.mg_keys.specs.Advance.{ReadsOn};
ghost use Rattle.mg_keys.specs.Utf8 as spec;

/// What is still to come of a character: how many bytes, the bits so far, and between which bounds
/// the next byte stands.
#[derive(Clone, Copy)]
pub(crate) struct Continuation {
    count: u8,
    bits: u32,
    low: u8,
    high: u8,
}

/// What a byte makes of a character.
#[derive(Clone, Copy)]
pub(crate) enum Read {
    /// It is whole.
    Character(char),
    /// More bytes are to come.
    More(Continuation),
    /// There is no such character.
    Nothing,
}

fn to_come(count: u8, bits: u32, low: u8, high: u8) -> Continuation
    ensures { result ≡ spec.continuation count bits low high }
{
    Continuation {
        count,
        bits,
        low,
        high,
    }
}

/// What the first byte of a character says of the others.
fn first_byte(byte: u8) -> Option<Continuation>
    ensures { result ≡ spec.first_byte byte }
{
    if byte >= 194 && byte <= 223 {
        return Some(to_come(1, u32::from(byte) - 192, 128, 191));
    }
    if byte == 224 {
        return Some(to_come(2, 0, 160, 191));
    }
    if byte == 237 {
        return Some(to_come(2, 13, 128, 159));
    }
    if byte >= 225 && byte <= 239 {
        return Some(to_come(2, u32::from(byte) - 224, 128, 191));
    }
    if byte == 240 {
        return Some(to_come(3, 0, 144, 191));
    }
    if byte >= 241 && byte <= 243 {
        return Some(to_come(3, u32::from(byte) - 240, 128, 191));
    }
    if byte == 244 {
        return Some(to_come(3, 4, 128, 143));
    }
    None
}

/// The first byte of a character that is none of ASCII.
pub(crate) fn begin(byte: u8) -> Read
    ensures { ReadsOn spec.characters byte result }
{
    match first_byte(byte) {
        Some(begun) => Read::More(begun),
        None => Read::Nothing,
    }
}

/// The bits with those of one byte more.
fn joined_bits(begun: Continuation, byte: u8) -> u32
    ensures { result ≡ spec.joined_bits begun byte }
{
    begun
        .bits
        .saturating_mul(64)
        .saturating_add(u32::from(byte.saturating_sub(128)))
}

/// One byte more of a character.
pub(crate) fn read_on(begun: Continuation, byte: u8) -> Read
    ensures { ReadsOn (spec.reading_behind begun) byte result }
{
    if byte < begun.low || byte > begun.high {
        return Read::Nothing;
    }
    let bits = joined_bits(begun, byte);
    if begun.count <= 1 {
        return match char::from_u32(bits) {
            Some(c) => Read::Character(c),
            None => Read::Nothing,
        };
    }
    Read::More(to_come(begun.count - 1, bits, 128, 191))
}
