//! Characters in UTF-8.
ghost use Rattle.std.specs.Prelude.{◌≡◌, ◌<◌, ◌≤◌, ◌+◌, ◌++◌, encode_utf8_all, vec_capacity, vec_len, IfOk, OnOk};
ghost use Rattle.std.specs.Char.{encode_utf8};
ghost use Rattle.std.specs.Str.{IsUtf8};
ghost use Rattle.std.specs.String.{string_bytes};

use std::alloc::{AllocError, Global};

/// The characters in UTF-8. `AllocError` alone.
pub fn string_of(alloc: Global, characters: &[char]) -> Result<String, AllocError>
    ensures { IfOk result (λ text. string_bytes text ≡ encode_utf8_all characters.now) }
{
    match String::from_utf8(bytes_of(alloc, characters)?) {
        Ok(text) => Ok(text),
        Err(_) => unreachable!(),
    }
}

/// The bytes of the characters in UTF-8. `AllocError` alone.
fn bytes_of(alloc: Global, characters: &[char]) -> Result<Vec<u8>, AllocError>
    ensures bytes { IfOk result (λ bytes. bytes.items ≡ encode_utf8_all characters.now) }
    ensures utf8 { IfOk result (λ bytes. IsUtf8 bytes.items) }
{
    let mut bytes = Vec::with_capacity(alloc, characters.len())?;
    for index in 0..characters.len() {
        push_utf8(&mut bytes, characters[index], characters.len() - index)?;
    }
    Ok(bytes)
}

/// Puts a character after others. For so many, and this is one of them, there is room for a byte
/// each. `AllocError` alone.
#[inline(always)]
fn push_utf8(bytes: &mut Vec<u8>, c: char, left: usize) -> Result<(), AllocError>
    requires some { 0 < left }
    requires room { vec_len bytes.old + left ≤ vec_capacity bytes.old }
    ensures bytes { OnOk result (bytes.new.items ≡ bytes.old.items ++ encode_utf8 c) }
    ensures room { OnOk result (vec_len bytes.new + left ≤ vec_capacity bytes.new + 1) }
{
    // Most are these.
    if c < '\u{80}' {
        bytes.push_reserved(c as u8);
        return Ok(());
    }
    bytes.extend_from_slice(c.encode_utf8(&mut [0; 4]).as_bytes())?;
    bytes.reserve(left)
}

/// Puts characters after a text. `AllocError` alone; the text may have some of them then.
pub fn push_characters(text: &mut String, characters: &[char]) -> Result<(), AllocError>
    ensures { OnOk result
        (string_bytes text.new ≡ string_bytes text.old ++ encode_utf8_all characters.now) }
{
    for c in characters {
        text.push(*c)?;
    }
    Ok(())
}
