//! Lines of a text with the replicas that wrote in them.
ghost use Rattle.std.specs.Prelude.{◌≡◌, ◌++◌, IfOk, OnOk, map, string_bytes, encode_utf8_all, decimal};
ghost use Rattle.std.specs.List.{flat_map, join_with_byte};
ghost use Rattle.mgr_show.specs.Authors.{authored_lines, characters, length_of_line, line_of, without_newline, writers};

use itoa::Buffer;
use std::alloc::{AllocError, Global};
use std::collections::BTreeSet;

/// The lines of a text, each after those who wrote in it, as `line_of` of `specs/Authors.antt` has
/// them. `AllocError` alone.
pub(crate) fn lines_text(alloc: Global, written: &[(u16, char)]) -> Result<String, AllocError>
    ensures { IfOk result (λ text.
        string_bytes text ≡ flat_map line_of (authored_lines written.now)) }
{
    let mut text = String::new(alloc);
    let mut rest = written;
    'lines: while let Some(_) = rest.first() {
        let (line, behind) = rest.split_at(line_len(rest));
        push_line(alloc, &mut text, line)?;
        rest = behind;
    }
    Ok(text)
}

/// How many characters the first line has, with its newline.
fn line_len(written: &[(u16, char)]) -> usize
    ensures { result ≡ length_of_line written.now }
{
    for (index, character) in written.iter().enumerate() {
        if character.1 == '\n' {
            return index + 1;
        }
    }
    written.len()
}

/// Adds a line.
#[tactic(auto, unfolding(crate::specs::Authors::line_of))]
fn push_line(alloc: Global, text: &mut String, line: &[(u16, char)]) -> Result<(), AllocError>
    ensures { OnOk result (string_bytes text.new ≡ string_bytes text.old ++ line_of line.now) }
{
    push_writers(text, writers_of(alloc, line)?)?;
    text.push('\t')?;
    push_characters(text, line)?;
    text.push('\n')
}

/// The replicas that wrote in a line.
fn writers_of(alloc: Global, line: &[(u16, char)]) -> Result<BTreeSet<u16>, AllocError>
    ensures { IfOk result (λ replicas. replicas.keys ≡ writers line.now) }
{
    let mut replicas = BTreeSet::new(alloc);
    let mut rest = line;
    'characters: while let Some((first, behind)) = rest.split_first() {
        replicas.insert(first.0)?;
        rest = behind;
    }
    Ok(replicas)
}

/// Adds numbers with commas between them.
fn push_writers(text: &mut String, replicas: BTreeSet<u16>) -> Result<(), AllocError>
    ensures { OnOk result (string_bytes text.new
        ≡ string_bytes text.old ++ join_with_byte 44 (map decimal replicas.keys)) }
{
    let mut digits = Buffer::new();
    let mut rest = replicas;
    let Some(first) = rest.pop_first() else {
        return Ok(());
    };
    text.push_str(digits.format(first))?;
    'others: while let Some(other) = rest.pop_first() {
        text.push_str(",")?;
        text.push_str(digits.format(other))?;
    }
    Ok(())
}

/// Adds the characters of a line without its newline.
fn push_characters(text: &mut String, line: &[(u16, char)]) -> Result<(), AllocError>
    ensures { OnOk result (string_bytes text.new
        ≡ string_bytes text.old ++ encode_utf8_all (without_newline (characters line.now))) }
{
    for character in line {
        if character.1 != '\n' {
            text.push(character.1)?;
        }
    }
    Ok(())
}
