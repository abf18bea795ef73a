//! The parts of a line that is spelled in one way: literals, characters and numbers.
ghost use Rattle.std.specs.Prelude.{◌≡◌, ◌<◌, ◌≤◌, ◌++◌, ◌∷◌, [], decimal, IfSome};
ghost use Rattle.std.specs.Bool.{OnTrue};
ghost use Rattle.std.specs.Char.{IsScalar};
ghost use Rattle.rga_lines.specs.Spelling.{escaped, BeginsWithCharacter, BeginsWithIdentifier};

use crate::parts::{element_or_root, only_char};
use rga_ops::Id;

/// What stands behind the literal, with which the bytes begin. Its length is known, so that nothing
/// is called to compare it.
#[inline(always)]
pub(crate) fn after_literal<'a, const N: usize>(
    bytes: &'a [u8],
    literal: &[u8; N],
) -> Option<&'a [u8]>
    ensures { IfSome result (λ rest. bytes.now ≡ literal.now ++ rest.now) }
{
    let (front, rest) = bytes.split_first_chunk()?;
    if front == literal { Some(rest) } else { None }
}

/// Whether the bytes are the literal.
#[inline(always)]
#[tactic(auto, using(crate::proofs::PartsLemmas::nothing_after))]
pub(crate) fn is_literal<const N: usize>(bytes: &[u8], literal: &[u8; N]) -> bool
    ensures { OnTrue result (bytes.now ≡ literal.now) }
{
    let Some(rest) = after_literal(bytes, literal) else {
        return false;
    };
    rest.is_empty()
}

/// What stands behind a byte, with which the bytes begin.
#[inline(always)]
fn after_byte(bytes: &[u8], byte: u8) -> Option<&[u8]>
    ensures { IfSome result (λ rest. bytes.now ≡ byte ∷ rest.now) }
{
    let (first, rest) = bytes.split_first()?;
    if *first == byte { Some(rest) } else { None }
}

/// The character that the bytes begin with, and what stands behind it.
#[inline(always)]
pub(crate) fn character(bytes: &[u8]) -> Option<(char, &[u8])>
    ensures { IfSome result (λ p. BeginsWithCharacter bytes.now p.0 p.1.now) }
{
    // Most characters are plain, and cost no call; nor does the quote behind the last one.
    if let Some(found) = plain_character(bytes) {
        return Some(found);
    }
    if *bytes.first()? == b'"' {
        return None;
    }
    other_character(bytes)
}

/// The same of a character that is no plain one.
#[inline(never)]
fn other_character(bytes: &[u8]) -> Option<(char, &[u8])>
    ensures { IfSome result (λ p. BeginsWithCharacter bytes.now p.0 p.1.now) }
{
    let first = *bytes.first()?;
    if first == b'\\' {
        short_escape(bytes)
    } else if first < 128 {
        None
    } else {
        wide_character(bytes)
    }
}

/// An ASCII character that needs no escape, and what stands behind it.
#[inline(always)]
#[tactic(auto, using(crate::proofs::PartsLemmas::plain_spelled))]
fn plain_character(bytes: &[u8]) -> Option<(char, &[u8])>
    ensures { IfSome result (λ p. BeginsWithCharacter bytes.now p.0 p.1.now) }
{
    let (first, rest) = bytes.split_first()?;
    if *first >= b' ' && *first < 128 && *first != b'"' && *first != b'\\' {
        Some((char::from(*first), rest))
    } else {
        None
    }
}

/// A character by its escape of one letter, and what stands behind it.
fn short_escape(bytes: &[u8]) -> Option<(char, &[u8])>
    ensures { IfSome result (λ p. BeginsWithCharacter bytes.now p.0 p.1.now) }
{
    let rest = after_byte(bytes, b'\\')?;
    let (letter, behind) = rest.split_first()?;
    let ch = of_letter(*letter)?;
    Some((ch, behind))
}

/// The character whose escape has this letter.
#[tactic(auto, unfolding(crate::specs::Spelling::escaped))]
fn of_letter(letter: u8) -> Option<char>
    ensures { IfSome result (λ ch. (escaped ch ≡ 92 ∷ letter ∷ []) × IsScalar ch) }
{
    match letter {
        b'"' => Some('"'),
        b'\\' => Some('\\'),
        b'b' => Some('\u{8}'),
        b'f' => Some('\u{c}'),
        b'n' => Some('\n'),
        b'r' => Some('\r'),
        b't' => Some('\t'),
        _ => None,
    }
}

/// A character above ASCII, and what stands behind it.
fn wide_character(bytes: &[u8]) -> Option<(char, &[u8])>
    ensures { IfSome result (λ p. BeginsWithCharacter bytes.now p.0 p.1.now) }
{
    let width = match *bytes.first()? {
        0..=223 => 2usize,
        224..=239 => 3,
        _ => 4,
    };
    let (front, rest) = bytes.split_at_checked(width)?;
    let Ok(text) = str::from_utf8(front) else {
        return None;
    };
    let ch = only_char(text)?;
    if u32::from(ch) < 128 {
        None
    } else {
        Some((ch, rest))
    }
}

/// A number without leading zeros, and what stands behind it.
#[inline(always)]
pub(crate) fn number(bytes: &[u8]) -> Option<(u64, &[u8])>
    ensures { IfSome result (λ p. bytes.now ≡ decimal p.0 ++ p.1.now) }
{
    let (first, behind) = bytes.split_first()?;
    if *first == b'0' {
        return Some((0, behind));
    }
    if !is_digit(*first) {
        return None;
    }
    let mut value = u64::from(*first - b'0');
    let mut rest = behind;
    'digits: while let Some((next, behind)) = rest.split_first() {
        if !is_digit(*next) {
            break;
        }
        if value > Id::MAX_COUNTER {
            return None;
        }
        value = 10 * value + u64::from(*next - b'0');
        rest = behind;
    }
    Some((value, rest))
}

/// A number behind the byte, with which the bytes begin, and what stands behind it.
#[inline(always)]
fn number_behind(bytes: &[u8], byte: u8) -> Option<(u64, &[u8])>
    ensures { IfSome result (λ p. bytes.now ≡ byte ∷ (decimal p.0 ++ p.1.now)) }
{
    let rest = after_byte(bytes, byte)?;
    number(rest)
}

fn is_digit(byte: u8) -> bool
    ensures { OnTrue result ((48 ≤ byte) × (byte < 58)) }
{
    byte >= b'0' && byte <= b'9'
}

/// The identifier of an element, or the root, between brackets behind the literal, with which the
/// bytes begin, and what stands behind it.
#[inline(always)]
pub(crate) fn id_after<'a, const N: usize>(
    bytes: &'a [u8],
    literal: &[u8; N],
) -> Option<(Id, &'a [u8])>
    ensures { IfSome result (λ p. BeginsWithIdentifier bytes.now literal.now p.0 p.1.now) }
{
    let rest = after_literal(bytes, literal)?;
    let (counter, rest) = number_behind(rest, b'[')?;
    let (replica, rest) = number_behind(rest, b',')?;
    let rest = after_byte(rest, b']')?;
    let id = element_or_root(counter, u16::try_from(replica).ok()?)?;
    Some((id, rest))
}
