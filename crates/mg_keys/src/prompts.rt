//! Keys of prompts, of searches and of answers while matches are replaced.
ghost use Rattle.std.specs.Prelude.{◌≡◌};
ghost use Rattle.mg_keys.specs.declared.step.Mode.{Mode as AnyMode};
ghost use Rattle.mg_keys.specs.Advance.{ReadsOn, TextAdvances, by_itself};
ghost use Rattle.mg_keys.specs.Begun.{text_rest};
ghost use Rattle.mg_keys.specs.Meaning as spec;

use crate::argument::Argument;
use crate::bytes::{CANCEL, DELETE, RETURN, SEARCH_BACKWARD, SEARCH_FORWARD, TAB};
use crate::sequence::{Advance, Sequence};
use crate::step::{Answer, Mode, Step};
use crate::utf8::{Continuation, Read, begin, read_on};

fn line_key(byte: u8) -> Option<Step>
    ensures { result ≡ spec.line_key byte }
{
    match byte {
        DELETE => Some(Step::Rub),
        RETURN => Some(Step::Accept),
        CANCEL => Some(Step::Cancel),
        _ => None,
    }
}

fn search_key(byte: u8) -> Option<Step>
    ensures { result ≡ spec.search_key byte }
{
    match byte {
        SEARCH_FORWARD => Some(Step::Next),
        SEARCH_BACKWARD => Some(Step::Prev),
        _ => line_key(byte),
    }
}

fn query_key(byte: u8) -> Option<Step>
    ensures { result ≡ spec.query_key byte }
{
    match byte {
        b'y' | b' ' => Some(Step::Answer(Answer::Yes)),
        b'n' | DELETE => Some(Step::Answer(Answer::No)),
        b'!' => Some(Step::Answer(Answer::All)),
        b'q' | RETURN => Some(Step::Answer(Answer::Quit)),
        CANCEL => Some(Step::Cancel),
        _ => None,
    }
}

/// A byte that is a character by itself, or begins one.
fn alone(byte: u8) -> Read
    ensures { ReadsOn by_itself byte result }
{
    if byte == TAB || (byte >= b' ' && byte <= b'~') {
        return Read::Character(char::from(byte));
    }
    if byte >= 128 {
        return begin(byte);
    }
    Read::Nothing
}

/// A byte of a line that is answered.
pub(crate) fn prompt_advance(byte: u8) -> Advance
    ensures { TextAdvances Mode.Prompt spec.prompt_meaning byte result }
{
    if let Some(step) = line_key(byte) {
        return Advance::Whole(step);
    }
    match alone(byte) {
        Read::Character(c) => Advance::Whole(Step::Text(c)),
        Read::More(begun) => Advance::On(Argument::Absent, Sequence::Character(begun)),
        Read::Nothing => Advance::Nothing,
    }
}

/// A byte of a search, which one that begins no character leaves.
pub(crate) fn search_advance(byte: u8) -> Advance
    ensures { TextAdvances Mode.Search spec.search_meaning byte result }
{
    if let Some(step) = search_key(byte) {
        return Advance::Whole(step);
    }
    match alone(byte) {
        Read::Character(c) => Advance::Whole(Step::Text(c)),
        Read::More(begun) => Advance::On(Argument::Absent, Sequence::Character(begun)),
        Read::Nothing => Advance::Whole(Step::Leave),
    }
}

/// One byte more of a character.
pub(crate) fn text_advance(begun: Continuation, byte: u8) -> Advance
    ensures { (m : AnyMode) →
        TextAdvances m (text_rest m (Sequence.Character begun)) byte result }
{
    match read_on(begun, byte) {
        Read::Character(c) => Advance::Whole(Step::Text(c)),
        Read::More(begun) => Advance::On(Argument::Absent, Sequence::Character(begun)),
        Read::Nothing => Advance::Nothing,
    }
}

/// An answer while matches are replaced.
pub(crate) fn query_advance(byte: u8) -> Advance
    ensures { TextAdvances Mode.Query spec.query_meaning byte result }
{
    match query_key(byte) {
        Some(step) => Advance::Whole(step),
        None => Advance::Nothing,
    }
}
