//! Pieces of a text, each written by one replica.
ghost use Rattle.std.specs.Prelude.{◌≡◌, ◌++◌, IfOk, OnOk, ◌==◌, string_bytes, encode_utf8_all};
ghost use Rattle.std.specs.List.{flat_map, prefix_len};
ghost use Rattle.mgr_show.specs.Authors.{characters, piece, piece_line, piece_text, pieces};

use serde_json::json;
use std::alloc::{AllocError, Global};

/// The lines of the pieces of a text, as `piece_line` of `specs/Authors.antt` has them.
/// `AllocError` alone.
pub(crate) fn pieces_text(alloc: Global, written: &[(u16, char)]) -> Result<String, AllocError>
    ensures { IfOk result (λ text.
        string_bytes text ≡ flat_map piece_line (pieces written.now)) }
{
    let mut text = String::new(alloc);
    let mut rest = written;
    'pieces: while let Some(first) = rest.first() {
        let (front, behind) = rest.split_at(piece_len(rest, first.0));
        push_piece(alloc, &mut text, first.0, front)?;
        rest = behind;
    }
    Ok(text)
}

/// How many characters from the front on the replica wrote.
fn piece_len(written: &[(u16, char)], replica: u16) -> usize
    ensures { result ≡ prefix_len (λ x. x.0 == replica) written.now }
{
    for (index, character) in written.iter().enumerate() {
        if character.0 != replica {
            return index;
        }
    }
    written.len()
}

/// Adds the line of a piece.
#[tactic(auto, unfolding(crate::specs::Authors::piece_line))]
fn push_piece(
    alloc: Global,
    text: &mut String,
    replica: u16,
    written: &[(u16, char)],
) -> Result<(), AllocError>
    ensures { OnOk result (string_bytes text.new
        ≡ string_bytes text.old ++ piece_line (piece replica (characters written.now))) }
{
    let line = piece_string(alloc, replica, written)?;
    text.push_str(&line)?;
    text.push('\n')
}

/// A piece as an object of JSON.
fn piece_string(alloc: Global, replica: u16, written: &[(u16, char)]) -> Result<String, AllocError>
    ensures { IfOk result (λ s.
        string_bytes s ≡ piece_text (piece replica (characters written.now))) }
{
    let chars = string_of(alloc, written)?;
    json!(in alloc; {"replica": replica, "text": chars})?.to_string(alloc)
}

/// Characters in UTF-8.
fn string_of(alloc: Global, written: &[(u16, char)]) -> Result<String, AllocError>
    ensures { IfOk result (λ s. string_bytes s ≡ encode_utf8_all (characters written.now)) }
{
    let mut string = String::with_capacity(alloc, written.len())?;
    for character in written {
        string.push(character.1)?;
    }
    Ok(string)
}
