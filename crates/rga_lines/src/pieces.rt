//! Pieces of lines, put into bytes from a place on: each function answers where its piece ends.
ghost use Rattle.std.specs.Prelude.{◌≡◌, ◌≤◌, ◌<◌, ◌+◌, ◌++◌, ◌∷◌, MatchOption, IfSome, if◌then◌else◌, length, take, decimal, nat_lt};
ghost use Rattle.std.specs.Char.{digit_char, encode_utf8};
ghost use Rattle.rga_lines.specs.Spelling.{code_escape, escaped};

use crate::bytes::{put, put_array};
use itoa::write_digits;

/// Puts a character as it stands between quotes.
#[inline(always)]
#[tactic(auto, unfolding(crate::specs::Spelling::escaped))]
pub(crate) fn put_character(bytes: &mut [u8], at: usize, ch: char) -> usize
    requires room { at + 6 ≤ length bytes.old }
    ensures put { take result bytes.new ≡ take at bytes.old ++ escaped ch }
    ensures within { result ≤ at + 6 }
    ensures length { length bytes.new ≡ length bytes.old }
{
    match ch {
        '"' | '\\' => put_rare(bytes, at, ch),
        // Most are these, which stand for themselves.
        ' '..='~' => put_array(bytes, at, [ch as u8]),
        _ => put_rare(bytes, at, ch),
    }
}

/// The same of any character.
fn put_rare(bytes: &mut [u8], at: usize, ch: char) -> usize
    requires room { at + 6 ≤ length bytes.old }
    ensures put { take result bytes.new ≡ take at bytes.old ++ escaped ch }
    ensures within { result ≤ at + 6 }
    ensures length { length bytes.new ≡ length bytes.old }
{
    match short_escape(ch) {
        Some(escape) => put(bytes, at, escape.as_bytes()),
        None if ch < ' ' => put_code(bytes, at, ch),
        None => put(bytes, at, ch.encode_utf8(&mut [0; 4]).as_bytes()),
    }
}

/// Puts a character below the space as its code in hexadecimal digits.
fn put_code(bytes: &mut [u8], at: usize, ch: char) -> usize
    requires code { ch < 32 }
    requires room { at + 6 ≤ length bytes.old }
    ensures put { take result bytes.new ≡ take at bytes.old ++ code_escape ch }
    ensures within { result ≤ at + 6 }
    ensures length { length bytes.new ≡ length bytes.old }
{
    let code = u32::from(ch);
    let at = put(bytes, at, b"\\u00");
    put(
        bytes,
        at,
        &[hex_digit(code / 16) as u8, hex_digit(code % 16) as u8],
    )
}

/// Puts a comma and the digits of a replica's number.
#[inline(always)]
pub(crate) fn put_replica(bytes: &mut [u8], at: usize, replica: u16) -> usize
    requires room { at + 6 ≤ length bytes.old }
    ensures put { take result bytes.new ≡ take at bytes.old ++ 44 ∷ decimal replica }
    ensures within { result ≤ at + 6 }
    ensures length { length bytes.new ≡ length bytes.old }
{
    if replica < 10 {
        return put_array(bytes, at, [b',', b'0' + replica as u8]);
    }
    put_long_replica(bytes, at, replica)
}

/// The same of any replica.
fn put_long_replica(bytes: &mut [u8], at: usize, replica: u16) -> usize
    requires room { at + 6 ≤ length bytes.old }
    ensures put { take result bytes.new ≡ take at bytes.old ++ 44 ∷ decimal replica }
    ensures within { result ≤ at + 6 }
    ensures length { length bytes.new ≡ length bytes.old }
{
    let at = put(bytes, at, b",");
    put_number(bytes, at, u64::from(replica))
}

/// Puts the digits of a number.
#[inline(always)]
pub(crate) fn put_number(bytes: &mut [u8], at: usize, number: u64) -> usize
    requires room { at + length (decimal number) ≤ length bytes.old }
    ensures put { take result bytes.new ≡ take at bytes.old ++ decimal number }
    ensures end { result ≡ at + length (decimal number) }
    ensures length { length bytes.new ≡ length bytes.old }
{
    let end = at + count_digits(number);
    write_digits(number, bytes, end);
    end
}

/// How many digits a number has.
#[inline(always)]
fn count_digits(number: u64) -> usize
    ensures { result ≡ length (decimal number) }
{
    let mut count = 0;
    let mut rest = number;
    'fours: while rest >= 10_000 {
        rest /= 10_000;
        count += 4;
    }
    count + count_few(rest)
}

/// The same of a number of at most four.
#[inline(always)]
fn count_few(number: u64) -> usize
    requires { number < 10000 }
    ensures { result ≡ length (decimal number) }
{
    if number < 10 {
        return 1;
    }
    if number < 100 {
        return 2;
    }
    if number < 1000 { 3 } else { 4 }
}

/// The escape of a character that has a short one, where JSON (RFC 8259, section 7) asks for one.
#[tactic(auto, unfolding(crate::specs::Spelling::escaped))]
pub(crate) fn short_escape(ch: char) -> Option<&'static str>
    ensures escape { MatchOption result
        (escaped ch ≡ (if nat_lt ch 32 then code_escape ch else encode_utf8 ch))
        (λ escape. escape.now ≡ escaped ch) }
    ensures short { IfSome result (λ escape. length escape.now ≤ 2) }
{
    match ch {
        '"' => Some("\\\""),
        '\\' => Some("\\\\"),
        '\u{8}' => Some("\\b"),
        '\t' => Some("\\t"),
        '\n' => Some("\\n"),
        '\u{c}' => Some("\\f"),
        '\r' => Some("\\r"),
        _ => None,
    }
}

/// The lower-case digit of a number below 16.
pub(crate) fn hex_digit(value: u32) -> char
    requires { value < 16 }
    ensures value { result ≡ digit_char value }
    ensures ascii { result < 128 }
{
    char::from_digit(value, 16).unwrap()
}
